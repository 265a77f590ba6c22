//! The marks of the slots of a page data set.
ghost use Rattle.std.specs.Prelude.{◌≡◌};
ghost use Rattle.dataset.specs.Marks.{mark_from, number_of};

use std::error::Error;
use std::fmt;

/// The mark of a slot, each with the number by which an area tells it.
#[derive(Clone, Copy, PartialEq, Eq, Debug)]
pub enum Mark {
    /// Nothing was written: the slot reads as zeros, whatever its bytes are.
    Blank = 0,
    /// The bytes of the slot hold the page last written.
    Written = 1,
    /// The slot can be neither read nor written.
    Bad = 2,
}

impl Mark {
    /// The number by which an area tells the mark.
    pub fn number(self) -> u8
        ensures { result ≡ number_of self }
    {
        self as u8
    }
}

/// A number that is no mark.
#[derive(Clone, Copy, PartialEq, Eq, Debug)]
pub struct UnknownMark(pub u8);

impl TryFrom<u8> for Mark {
    type Error = UnknownMark;

    ghost try_from_gives = { λ number r. r ≡ mark_from number };

    fn try_from(number: u8) -> Result<Mark, UnknownMark> {
        match number {
            0 => Ok(Mark::Blank),
            1 => Ok(Mark::Written),
            2 => Ok(Mark::Bad),
            _ => Err(UnknownMark(number)),
        }
    }
}

impl fmt::Display for UnknownMark {
    fn fmt<W: fmt::Write>(&self, f: &mut fmt::Formatter<W>) -> fmt::Result {
        write!(f, "{} is no mark", self.0)
    }
}

impl Error for UnknownMark {}
