//! What a page store tells where it refuses a call.
ghost use Rattle.std.specs.Prelude.{◌≡◌};
ghost use Rattle.pages.specs.Numbers.{refusal_number};

use std::error::Error;
use std::fmt;

/// Why a page store refuses a call, in the order in which the cases are tested, each with the number under which an
/// operator knows it.
#[derive(Clone, Copy, PartialEq, Eq, Debug)]
pub enum StoreRefusal {
    /// the buffer has not 2,048 bytes
    WrongLength = 52,
    /// the slot is not below the number of slots
    NoSuchSlot = 50,
    /// the slot is bad
    BadSlot = 51,
}

impl StoreRefusal {
    /// The number under which an operator knows the refusal.
    pub fn number(self) -> u8
        ensures { result ≡ refusal_number self }
    {
        self as u8
    }
}

/// A fault by itself, as a store laid over the one that it is of carries it.
#[derive(Clone, Copy, PartialEq, Eq, Debug)]
pub struct Cause {
    pub refusal: StoreRefusal,
    // A number, since the kinds are an open set: each type that implements `PageStore` brings its own.
    pub kind: u8,
    pub slot: u32,
}

/// A refused call: why, by which kind of store, at which slot, and the fault of a store below that led to it, if any.
// No `Cause` stands inside for the first three: they are public fields, which callers, laws and rules read by their names.
#[derive(Clone, Copy, PartialEq, Eq, Debug)]
pub struct Fault {
    pub refusal: StoreRefusal,
    pub kind: u8,
    pub slot: u32,
    pub cause: Option<Cause>,
}

impl Fault {
    /// The fault of a store that is laid over no other.
    pub fn new(refusal: StoreRefusal, kind: u8, slot: u32) -> Fault
        ensures { result ≡ record { refusal = refusal; kind = kind; slot = slot; cause = None } }
    {
        Fault {
            refusal,
            kind,
            slot,
            cause: None,
        }
    }
}

impl fmt::Display for StoreRefusal {
    fn fmt<W: fmt::Write>(&self, f: &mut fmt::Formatter<W>) -> fmt::Result {
        f.write_str(match self {
            StoreRefusal::WrongLength => "the buffer has not 2048 bytes",
            StoreRefusal::NoSuchSlot => "no such slot",
            StoreRefusal::BadSlot => "the slot is bad",
        })
    }
}

impl fmt::Display for Cause {
    fn fmt<W: fmt::Write>(&self, f: &mut fmt::Formatter<W>) -> fmt::Result {
        write!(
            f,
            "{} kind {} slot {}",
            self.refusal.number(),
            self.kind,
            self.slot
        )
    }
}

/// As `51 kind 2 slot 4`, and the fault below in parentheses after it.
impl fmt::Display for Fault {
    fn fmt<W: fmt::Write>(&self, f: &mut fmt::Formatter<W>) -> fmt::Result {
        let own = Cause {
            refusal: self.refusal,
            kind: self.kind,
            slot: self.slot,
        };
        match self.cause {
            None => write!(f, "{own}"),
            Some(below) => write!(f, "{own} ({below})"),
        }
    }
}

impl Error for StoreRefusal {}

impl Error for Fault {}
