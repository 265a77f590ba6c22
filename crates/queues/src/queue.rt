ghost use Rattle.std.specs.Prelude.{◌≡◌, Some};
ghost use Rattle.queues.specs.Five.{queue_for};
ghost use Rattle.queues.specs.Names.{name_of};

use frames::KeyBits;
use std::fmt;

/// The five queues by name: Q with the reference and change bit that a frame had when it was filed there, and HQ, in which
/// a frame stands that was just entered.
#[derive(Clone, Copy, Debug, PartialEq, Eq)]
pub enum Queue {
    Q00,
    Q01,
    Q10,
    Q11,
    Hq,
}

impl Queue {
    /// the five, in order
    pub const ALL: [Queue; 5] = [Queue::Q00, Queue::Q01, Queue::Q10, Queue::Q11, Queue::Hq];
}

// Q with these reference and change bits.
impl From<KeyBits> for Queue {
    ghost from_gives = { λ bits r. r ≡ queue_for bits.referred bits.changed };

    fn from(bits: KeyBits) -> Queue {
        match (bits.referred, bits.changed) {
            (false, false) => Queue::Q00,
            (false, true) => Queue::Q01,
            (true, false) => Queue::Q10,
            (true, true) => Queue::Q11,
        }
    }
}

impl fmt::Display for Queue {
    ghost output = { λ queue. Some (name_of queue) };

    fn fmt<W: fmt::Write>(&self, f: &mut fmt::Formatter<W>) -> fmt::Result {
        f.write_str(match self {
            Queue::Q00 => "Q00",
            Queue::Q01 => "Q01",
            Queue::Q10 => "Q10",
            Queue::Q11 => "Q11",
            Queue::Hq => "HQ",
        })
    }
}
