ghost use Rattle.std.specs.Prelude.{◌≡◌, IfOk, if◌then◌else◌, ◌==◌};
ghost use Rattle.queues.specs.Five.{Good, dropped, empty, free_in, on, taken, times_held};
ghost use Rattle.queues.specs.Laws.{TakeLaws};
ghost use Rattle.queues.specs.Names.{frames_of, head_of};

use super::linked::LinkedQueues;
use super::queue::Queue;
use std::alloc::{AllocError, Global};

/// The frame policy of five queues. A call that changes anything works in a copy of the queues, and writes the whole value
/// once, from the copy.
// The law `valid` of a policy sees of `queues` what clauses see, and not what their type keeps: so `good` stands beside them.
#[derive(Drop)]
pub struct FiveQueues {
    pub(crate) queues: LinkedQueues,
    // each frame is held at most once, and is at most 255
    ghost good: { Good queues },
}

impl FiveQueues {
    /// Holds no frame.
    pub fn new() -> FiveQueues
        ensures { result.queues ≡ empty }
    {
        FiveQueues {
            queues: LinkedQueues::new(),
        }
    }

    /// The frame at the head of a queue.
    pub fn head(&self, queue: Queue) -> Option<u8>
        ensures { result ≡ head_of (frames_of self.now.queues queue) }
    {
        self.queues.head(queue)
    }

    /// Takes a frame: a step after another, until one takes a frame or none is held.
    pub fn pick(&mut self, keys: &mut [u8; 256]) -> Option<u8>
        ensures answer { result ≡ (taken self.old.queues keys.old).frame }
        ensures keys { keys.new ≡ (taken self.old.queues keys.old).keys }
        ensures after { self.new.queues ≡ (taken self.old.queues keys.old).left }
        ensures laws { TakeLaws self.old.queues keys.old result keys.new self.new.queues }
    {
        let mut queues = self.queues.copied();
        let frame = queues.pick(keys);
        *self = FiveQueues { queues };
        frame
    }

    // Puts a frame at the tail of a queue. The answer is no, and nothing changes, if it is above 255 or held already.
    pub(crate) fn put(&mut self, queue: Queue, frame: u16) -> bool
        ensures answer { result ≡ free_in self.old.queues frame }
        ensures after { self.new.queues ≡ (if free_in self.old.queues frame then on queue self.old.queues frame else self.old.queues) }
    {
        let Ok(frame) = u8::try_from(frame) else {
            return false;
        };
        let mut queues = self.queues.copied();
        let answer = queues.link(queue, frame);
        *self = FiveQueues { queues };
        answer
    }

    // Drops a frame. The answer is no, and nothing changes, if it is not held.
    pub(crate) fn remove(&mut self, frame: u16) -> bool
        ensures answer { result ≡ (times_held self.old.queues frame == 1) }
        ensures after { self.new.queues ≡ dropped self.old.queues frame }
    {
        let Ok(frame) = u8::try_from(frame) else {
            return false;
        };
        let mut queues = self.queues.copied();
        let answer = queues.unlink(frame);
        *self = FiveQueues { queues };
        answer
    }

    /// The frames of a queue, the head first.
    pub fn frames(&self, heap: Global, queue: Queue) -> Result<Vec<u8>, AllocError>
        ensures { IfOk result (λ v. v.items ≡ frames_of self.now.queues queue) }
    {
        self.queues.frames(heap, queue)
    }
}
