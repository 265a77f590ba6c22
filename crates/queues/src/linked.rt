ghost use Rattle.std.specs.Prelude.{◌≡◌, ◌+◌, ◌%◌, IfOk, if◌then◌else◌, ◌==◌, nat_eq, nat_lt, slice_index};
ghost use Rattle.frames.specs.Keys.{referred, changed};
ghost use Rattle.queues.specs.Five.{empty, times_held, size, dropped, on, turned, step as step_of, taken};
ghost use Rattle.queues.specs.Five.{seen_q00 as seen_first, seen_q01 as seen_second, turned_off};
ghost use Rattle.queues.specs.Names.{number_of, frames_of, head_of};

use super::chain::Chain;
use super::queue::Queue;
use frames::KeyBits;
use std::alloc::{AllocError, Global};
use std::marker::Model;

// the end mark of the queue 0
const MARK: u16 = 256;

/// Five queues of frames, linked both ways. Each held frame stands in one of them. Clauses see the five by name.
#[derive(Drop)]
pub struct LinkedQueues {
    // From each node to the one behind it, and to the one before it. The rules ask for arrays of links; no call may allocate;
    // and a frame leaves from the middle of its queue at once.
    next: Chain,
    prev: Chain,
    // The number of the queue in which each frame stands, if it is in one. Numbers and not names, since the names turn, and an
    // array beside the links, so that a frame is found at once.
    place: [Option<u8>; 256],
    // the number of the queue that is Q00 at present
    first: u8,
}

impl Model for LinkedQueues {
    ghost use Rattle.queues.specs.Five.{Five};
    ghost use Rattle.queues.specs.Links.{list_of, IsLinked};
    ghost use Rattle.queues.specs.Names.{named};

    ghost Value = { Five };

    ghost view = { λ q. named (list_of q.next) q.first };

    ghost invariant = { λ q. IsLinked q.next q.prev q.place q.first };
}

impl LinkedQueues {
    /// Holds no frame.
    pub fn new() -> LinkedQueues
        ensures { result ≡ empty }
    {
        LinkedQueues {
            next: Chain::new(),
            prev: Chain::new(),
            place: [None; 256],
            first: 0,
        }
    }

    /// The same queues, to be worked on in the place of these.
    pub fn copied(&self) -> LinkedQueues
        ensures { result ≡ self.now }
    {
        LinkedQueues {
            next: self.next,
            prev: self.prev,
            place: self.place,
            first: self.first,
        }
    }

    /// The frame at the head of a queue.
    pub fn head(&self, queue: Queue) -> Option<u8>
        ensures { result ≡ head_of (frames_of self.now queue) }
    {
        u8::try_from(self.next.follow(MARK + number(self.first, queue))).ok()
    }

    /// Takes a frame out of its queue, wherever it stands. One that is in none changes nothing.
    pub fn unlink(&mut self, frame: u8) -> bool
        ensures answer { result ≡ (times_held self.old frame == 1) }
        ensures after { self.new ≡ dropped self.old frame }
    {
        if self.place[frame as usize].is_none() {
            return false;
        }
        let before = self.prev.follow(frame as u16);
        let behind = self.next.follow(frame as u16);
        self.next.lead(before, behind);
        self.prev.lead(behind, before);
        self.place[frame as usize] = None;
        true
    }

    /// Links a frame in at the tail of a queue. One that is in a queue already changes nothing.
    pub fn link(&mut self, queue: Queue, frame: u8) -> bool
        ensures answer { result ≡ (times_held self.old frame == 0) }
        ensures after { self.new ≡ (if nat_eq (times_held self.old frame) 0 then on queue self.old frame else self.old) }
    {
        if self.place[frame as usize].is_some() {
            return false;
        }
        let number = number(self.first, queue);
        let node = frame as u16;
        let mark = MARK + number;
        let tail = self.prev.follow(mark);
        self.next.lead(tail, node);
        self.next.lead(node, mark);
        self.prev.lead(node, tail);
        self.prev.lead(mark, node);
        self.place[frame as usize] = Some(number as u8);
        true
    }

    // A frame goes to the tail of a queue.
    fn refile(&mut self, queue: Queue, frame: u8)
        ensures { self.new ≡ on queue (dropped self.old frame) frame }
    {
        self.unlink(frame);
        self.link(queue, frame);
    }

    // The names turn: Q10 becomes Q00, HQ becomes Q10, Q01 becomes HQ, Q11 becomes Q01, Q00 becomes Q11.
    fn turn_names(&mut self)
        ensures { self.new ≡ turned self.old }
    {
        self.first = (self.first + 2) % 5;
    }

    // Whether a frame is held.
    fn any(&self) -> bool
        ensures { result ≡ nat_lt 0 (size self.now) }
    {
        Queue::ALL
            .iter()
            .copied()
            .any(|queue| self.head(queue).is_some())
    }

    // Looks at the head of Q00: with reference and change bit off it is taken, else it goes to the tail of Q01, Q10 or Q11.
    fn look_first(&mut self, keys: &mut [u8; 256], frame: u8) -> Option<u8>
        ensures answer { result ≡ (seen_first (referred (slice_index keys.old frame)) (changed (slice_index keys.old frame)) self.old keys.old frame).frame }
        ensures keys { keys.new ≡ (seen_first (referred (slice_index keys.old frame)) (changed (slice_index keys.old frame)) self.old keys.old frame).keys }
        ensures after { self.new ≡ (seen_first (referred (slice_index keys.old frame)) (changed (slice_index keys.old frame)) self.old keys.old frame).left }
    {
        let bits = note(keys, frame);
        if bits.referred || bits.changed {
            self.refile(Queue::from(bits), frame);
            return None;
        }
        self.unlink(frame);
        Some(frame)
    }

    // Looks at the head of Q01: with the reference bit off it is taken, else it goes to the tail of Q11.
    fn look_second(&mut self, keys: &mut [u8; 256], frame: u8) -> Option<u8>
        ensures answer { result ≡ (seen_second (referred (slice_index keys.old frame)) self.old keys.old frame).frame }
        ensures keys { keys.new ≡ (seen_second (referred (slice_index keys.old frame)) self.old keys.old frame).keys }
        ensures after { self.new ≡ (seen_second (referred (slice_index keys.old frame)) self.old keys.old frame).left }
    {
        if note(keys, frame).referred {
            self.refile(Queue::Q11, frame);
            return None;
        }
        self.unlink(frame);
        Some(frame)
    }

    // One step of Take: a look at the head of Q00, or of Q01 where Q00 is empty, or a turn of the names.
    fn step(&mut self, keys: &mut [u8; 256]) -> Option<u8>
        ensures answer { result ≡ (step_of self.old keys.old).frame }
        ensures keys { keys.new ≡ (step_of self.old keys.old).keys }
        ensures after { self.new ≡ (step_of self.old keys.old).left }
    {
        if let Some(frame) = self.head(Queue::Q00) {
            return self.look_first(keys, frame);
        }
        if let Some(frame) = self.head(Queue::Q01) {
            return self.look_second(keys, frame);
        }
        self.turn_names();
        None
    }

    /// Takes a frame: a step after another, until one takes a frame or none is held.
    pub fn pick(&mut self, keys: &mut [u8; 256]) -> Option<u8>
        ensures answer { result ≡ (taken self.old keys.old).frame }
        ensures keys { keys.new ≡ (taken self.old keys.old).keys }
        ensures after { self.new ≡ (taken self.old keys.old).left }
    {
        while self.any() {
            if let Some(frame) = self.step(keys) {
                return Some(frame);
            }
        }
        None
    }

    /// The frames of a queue, the head first.
    pub fn frames(&self, heap: Global, queue: Queue) -> Result<Vec<u8>, AllocError>
        ensures { IfOk result (λ v. v.items ≡ frames_of self.now queue) }
    {
        let mut list = Vec::new(heap);
        let mut node = self.next.follow(MARK + number(self.first, queue));
        // A queue has at most 256 frames.
        for _ in 0..256u16 {
            let Ok(frame) = u8::try_from(node) else {
                return Ok(list);
            };
            list.push(frame)?;
            node = self.next.follow(node);
        }
        Ok(list)
    }
}

// The number that a queue has at present, where Q00 has the number `first`.
fn number(first: u8, queue: Queue) -> u16
    ensures { result ≡ (first + number_of queue) % 5 }
{
    (first as u16 + queue as u16) % 5
}

// Notes the reference and the change bit of a frame, and turns the reference bit off.
fn note(keys: &mut [u8; 256], frame: u8) -> KeyBits
    ensures reference { result.referred ≡ referred (slice_index keys.old frame) }
    ensures change { result.changed ≡ changed (slice_index keys.old frame) }
    ensures keys { keys.new ≡ turned_off keys.old frame }
{
    let key = keys[frame as usize];
    keys[frame as usize] = frames::reference_off(key);
    KeyBits::from(key)
}
