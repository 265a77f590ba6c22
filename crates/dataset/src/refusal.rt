//! Why an area is no page data set.
ghost use Rattle.std.specs.Prelude.{◌≡◌};
ghost use Rattle.dataset.specs.declared.refusal.BlankRefusal.TheVariants.{NoMemory};
ghost use Rattle.dataset.specs.declared.refusal.MarkRefusal.TheVariants.{NotDataSet};
ghost use Rattle.dataset.specs.Numbers.{open_number, mark_number};

use std::alloc::AllocError;
use std::error::Error;
use std::fmt;

/// Why opening refuses an area: the first of these that holds.
#[derive(Clone, Copy, PartialEq, Eq, Debug)]
pub enum OpenRefusal {
    /// It has fewer than the 8 bytes of the two numbers at its front.
    TooShort,
    /// Its page size is not 2,048.
    OtherPageSize,
    /// It says that it has more than 8,192 slots.
    TooManySlots,
    /// Its length is not what its number of slots asks for.
    OtherLength,
    /// One of its marks is over 2.
    UnknownMark,
}

impl OpenRefusal {
    /// The number under which an operator knows the refusal: one for all.
    pub fn number(self) -> u8
        ensures { result ≡ open_number self }
    {
        // No numbers on the cases: they have one and the same, which two cases cannot share.
        53
    }
}

/// Why a mark was not put, or what putting it led to.
#[derive(Clone, Copy, PartialEq, Eq, Debug)]
pub enum MarkRefusal {
    /// The data set has no such slot: nothing was altered.
    NoSuchSlot,
    /// The mark was put, and the area is no page data set any more.
    NotDataSet(OpenRefusal),
}

impl MarkRefusal {
    /// The number under which an operator knows the refusal.
    pub fn number(self) -> u8
        ensures { result ≡ mark_number self }
    {
        // A `match`: a case that carries a value has no number of its own to cast.
        match self {
            MarkRefusal::NoSuchSlot => 50,
            MarkRefusal::NotDataSet(why) => why.number(),
        }
    }
}

impl From<OpenRefusal> for MarkRefusal {
    ghost from_gives = { λ why r. r ≡ NotDataSet why };

    fn from(why: OpenRefusal) -> Self {
        Self::NotDataSet(why)
    }
}

/// Why no blank data set was made.
#[derive(Clone, Copy, PartialEq, Eq, Debug)]
pub enum BlankRefusal {
    /// A data set has at most 8,192 slots.
    TooManySlots,
    /// There is no memory for the area.
    NoMemory,
}

impl From<AllocError> for BlankRefusal {
    ghost from_gives = { λ _ r. r ≡ NoMemory };

    fn from(_: AllocError) -> Self {
        Self::NoMemory
    }
}

impl fmt::Display for OpenRefusal {
    fn fmt<W: fmt::Write>(&self, f: &mut fmt::Formatter<W>) -> fmt::Result {
        let why = match self {
            OpenRefusal::TooShort => "under 8 bytes",
            OpenRefusal::OtherPageSize => "its page size is not 2048",
            OpenRefusal::TooManySlots => "more than 8192 slots",
            OpenRefusal::OtherLength => "its length does not fit its slots",
            OpenRefusal::UnknownMark => "a mark over 2",
        };
        write!(f, "no page data set: {why}")
    }
}

impl fmt::Display for MarkRefusal {
    fn fmt<W: fmt::Write>(&self, f: &mut fmt::Formatter<W>) -> fmt::Result {
        match self {
            MarkRefusal::NoSuchSlot => f.write_str("no such slot"),
            MarkRefusal::NotDataSet(why) => write!(f, "{why}"),
        }
    }
}

impl fmt::Display for BlankRefusal {
    fn fmt<W: fmt::Write>(&self, f: &mut fmt::Formatter<W>) -> fmt::Result {
        match self {
            BlankRefusal::TooManySlots => f.write_str("a data set has at most 8192 slots"),
            BlankRefusal::NoMemory => f.write_str("no memory"),
        }
    }
}

impl Error for OpenRefusal {}

impl Error for MarkRefusal {}

impl Error for BlankRefusal {}
