//! The calls of a machine, their answers and refusals.
ghost use Rattle.std.specs.Prelude.{◌≡◌};
ghost use Rattle.model.specs.Ipl.{ipl_number};
ghost use Rattle.model.specs.Refusals.{number_of};

use pages::fault::Fault;

/// Why a call is refused, with the number under which an operator knows the refusal.
#[derive(Clone, Copy, PartialEq, Eq, Debug)]
pub enum Refusal {
    /// main storage has not the length that IPL was given
    Sizes = 32,
    /// the key is over 15
    Key = 36,
    /// the page is none of the machine's
    Addressing = 5,
    /// the page is the supervisor's, or the key does not fit its partition
    Protection = 4,
    /// the page is fixed 255 times
    FixLimit = 37,
    /// the page is not fixed
    NotFixed = 38,
    /// every pageable frame has a fixed page, and this page is none of them
    AllFixed = 35,
    /// the tables in main storage are not what IPL, partitions and frame table give
    Tables = 54,
}

impl Refusal {
    /// The number under which an operator knows the refusal.
    pub fn number(self) -> u8
        ensures { result ≡ number_of self }
    {
        self as u8
    }
}

/// Why IPL is refused.
#[derive(Clone, Copy, PartialEq, Eq, Debug)]
pub enum IplRefusal {
    /// the numbers of frames, supervisor frames and pages, or the length of main storage
    Sizes,
    /// the partitions
    Partitions,
    /// a slot that cannot be used, with the fault by which the store tells it
    Slot(Fault),
}

impl IplRefusal {
    /// The number under which an operator knows the refusal.
    pub fn number(self) -> u8
        ensures { result ≡ ipl_number self }
    {
        // A `match`: a case that carries a value has no number of its own to cast.
        match self {
            IplRefusal::Sizes => 32,
            IplRefusal::Partitions => 33,
            IplRefusal::Slot(_) => 34,
        }
    }
}

/// A call.
#[derive(Clone, Copy, PartialEq, Eq, Debug)]
pub enum Call {
    Load { address: u32, key: u8 },
    Store { address: u32, key: u8, byte: u8 },
    Fix { page: u32 },
    Free { page: u32 },
    Purge,
    Settle,
}

/// What an answered call gives: the byte that a Load reads, or done.
#[derive(Clone, Copy, PartialEq, Eq, Debug)]
pub enum Reply {
    Byte(u8),
    Done,
}

/// What a call answers.
pub type Answer = Result<Reply, Refusal>;
