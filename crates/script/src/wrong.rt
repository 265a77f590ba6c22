//! Why a line cannot be carried out as it is written.
ghost use Rattle.std.specs.Prelude.{◌≡◌};
ghost use Rattle.script.specs.declared.wrong.Wrong.TheVariants.{Memory};

use crate::number::NotNumber;
use crate::verb::Verb;
use std::alloc::{AllocError, AllocFailed};
use std::error::Error;
use std::fmt;

/// What is wrong with a line. Such a line changes nothing.
#[derive(Clone, Copy, Debug, PartialEq, Eq)]
pub enum Wrong {
    /// Its bytes are no text.
    NotText,
    /// It begins with no command.
    NoCommand,
    /// Other words must follow the command.
    Arguments(Verb),
    /// A word is no number, or one that is too large.
    Number(Verb, NotNumber),
    /// A word that the command does not know.
    UnknownWord(Verb),
    /// A word of the command that may stand once stands twice.
    Twice(Verb),
    /// The command stands before the first WIRE.
    NotWired(Verb),
    /// The command wants a data set, and the store is a plain area.
    NoMarks(Verb),
    /// The command changes marks, and an IPL was answered.
    Started(Verb),
    /// A file cannot be read.
    Unreadable,
    /// A file cannot be written.
    Unwritable,
    /// Memory is not to be had.
    Memory,
}

impl From<AllocError> for Wrong {
    ghost from_gives = { λ _ e. e ≡ Memory };

    fn from(_e: AllocError) -> Wrong {
        Wrong::Memory
    }
}

impl<T: Drop> From<AllocFailed<T>> for Wrong {
    ghost from_gives = { λ _ e. e ≡ Memory };

    fn from(_e: AllocFailed<T>) -> Wrong {
        Wrong::Memory
    }
}

impl fmt::Display for Wrong {
    fn fmt<W: fmt::Write>(&self, f: &mut fmt::Formatter<W>) -> fmt::Result {
        match *self {
            Wrong::NotText => f.write_str("the line is no text"),
            Wrong::NoCommand => f.write_str("no such command; HELP prints the commands"),
            Wrong::Arguments(verb) => wants(f, verb),
            Wrong::Number(verb, why) => write!(f, "{verb}: {why}"),
            Wrong::UnknownWord(verb) => write!(f, "{verb}: an unknown word"),
            Wrong::Twice(verb) => write!(f, "{verb}: a word stands twice"),
            Wrong::NotWired(verb) => write!(f, "{verb} before the first WIRE"),
            Wrong::NoMarks(verb) => write!(
                f,
                "{verb} wants a data set, and the store is a plain area"
            ),
            Wrong::Started(verb) => write!(f, "{verb} after an answered IPL"),
            Wrong::Unreadable => f.write_str("the file cannot be read"),
            Wrong::Unwritable => f.write_str("the file cannot be written"),
            Wrong::Memory => f.write_str("memory is not to be had"),
        }
    }
}

impl Error for Wrong {}

// As `SLOT wants a slot`.
fn wants<W: fmt::Write>(f: &mut fmt::Formatter<W>, verb: Verb) -> fmt::Result {
    let arguments = verb.arguments();
    write!(f, "{verb} wants {arguments}")
}
