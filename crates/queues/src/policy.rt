ghost use Rattle.queues.specs.Five.{Five, five_rules};
ghost use Rattle.queues.specs.Lawful.{five_lawful};

use super::five::FiveQueues;
use super::queue::Queue;
use frames::{KeyBits, Policy};

impl Policy for FiveQueues {
    ghost Model = { Five };

    ghost model = { λ x. x.queues };

    ghost rules = { five_rules };

    ghost lawful = { five_lawful };

    ghost valid = { λ x. x.good };

    fn enter(&mut self, frame: u16) -> bool {
        self.put(Queue::Hq, frame)
    }

    fn return_frame(&mut self, frame: u16, bits: KeyBits) -> bool {
        self.put(Queue::from(bits), frame)
    }

    fn leave(&mut self, frame: u16) -> bool {
        self.remove(frame)
    }

    fn touch(&mut self, _frame: u16) {}

    fn clear(&mut self) {
        *self = FiveQueues::new();
    }

    fn take(&mut self, keys: &mut [u8; 256]) -> Option<u8> {
        self.pick(keys)
    }
}
