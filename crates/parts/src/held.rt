//! The frames that a policy holds.
ghost use Rattle.std.specs.Prelude.{◌≡◌, ℕ, List, IfOk, string_bytes};
ghost use Rattle.parts.specs.Held.{five_lines, lru_line, queue_line};

use frames::Policy;
use listing::lines::listed;
use lru_list::LruList;
use queues::{FiveQueues, Queue};
use std::alloc::{AllocError, Global};

/// A policy that shows which frames it holds.
pub trait ShowFrames: Policy {
    // the lines, with a line feed between
    ghost lines: { Self → List ℕ };

    /// The lines that show its frames, with a line feed between.
    fn lines(&self, heap: Global) -> Result<String, AllocError>
        ensures { IfOk result (λ t. string_bytes t ≡ lines self.now) };
}

// The line of a queue.
fn queue_line(heap: Global, queues: &FiveQueues, queue: Queue) -> Result<String, AllocError>
    ensures { IfOk result (λ t. string_bytes t ≡ queue_line queues.now.queues queue) }
{
    let name = queue.to_string(heap)?;
    let frames = queues.frames(heap, queue)?;
    listed(heap, name.as_str(), &frames)
}

/// The five queues, the head of each first.
impl ShowFrames for FiveQueues {
    ghost lines = { λ x. five_lines x.queues };

    fn lines(&self, heap: Global) -> Result<String, AllocError> {
        let q00 = queue_line(heap, self, Queue::Q00)?;
        let q01 = queue_line(heap, self, Queue::Q01)?;
        let q10 = queue_line(heap, self, Queue::Q10)?;
        let q11 = queue_line(heap, self, Queue::Q11)?;
        let hq = queue_line(heap, self, Queue::Hq)?;
        format!(in heap; "{q00}\n{q01}\n{q10}\n{q11}\n{hq}")
    }
}

/// The list, first to go first.
impl ShowFrames for LruList {
    ghost lines = { λ x. lru_line x.frames };

    fn lines(&self, heap: Global) -> Result<String, AllocError> {
        listed(heap, "LRU", self.held())
    }
}
