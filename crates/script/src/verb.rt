//! The words that begin a command.
ghost use Rattle.std.specs.Prelude.{◌≡◌, Some};
ghost use Rattle.script.specs.Verbs.{IsNoVerb, spelled};
ghost use Rattle.script.specs.Words.{Reads};

use crate::wrong::Wrong;
use std::fmt;
use std::str::FromStr;

/// What a command is called.
#[derive(Clone, Copy, Debug, PartialEq, Eq)]
pub enum Verb {
    Help,
    Wire,
    Save,
    Bad,
    Mark,
    Storage,
    Display,
    Alter,
    Walk,
    Controls,
    Slot,
    Ipl,
    Load,
    Store,
    Fix,
    Free,
    Purge,
    Settle,
    Entry,
    Keys,
    Frames,
    Queues,
    Pairs,
    State,
}

impl Verb {
    /// How it is spelled.
    pub fn name(self) -> &'static str
        ensures { result.now ≡ spelled self }
    {
        match self {
            Verb::Help => "HELP",
            Verb::Wire => "WIRE",
            Verb::Save => "SAVE",
            Verb::Bad => "BAD",
            Verb::Mark => "MARK",
            Verb::Storage => "STORAGE",
            Verb::Display => "DISPLAY",
            Verb::Alter => "ALTER",
            Verb::Walk => "WALK",
            Verb::Controls => "CONTROLS",
            Verb::Slot => "SLOT",
            Verb::Ipl => "IPL",
            Verb::Load => "LOAD",
            Verb::Store => "STORE",
            Verb::Fix => "FIX",
            Verb::Free => "FREE",
            Verb::Purge => "PURGE",
            Verb::Settle => "SETTLE",
            Verb::Entry => "ENTRY",
            Verb::Keys => "KEYS",
            Verb::Frames => "FRAMES",
            Verb::Queues => "QUEUES",
            Verb::Pairs => "PAIRS",
            Verb::State => "STATE",
        }
    }

    // What must follow it.
    pub(crate) fn arguments(self) -> &'static str {
        match self {
            Verb::Help => "nothing",
            Verb::Wire => "policy=, translator=, store= and slots= or file=, each once",
            Verb::Save => "a path",
            Verb::Bad => "a slot",
            Verb::Mark => "a slot and a mark",
            Verb::Storage => "a number of bytes",
            Verb::Display => "an address and a count",
            Verb::Alter => "an address and one byte or more",
            Verb::Walk => "an address, and both control words or neither",
            Verb::Controls => "nothing",
            Verb::Slot => "a slot",
            Verb::Ipl =>
                "frames=, supervisor= and pages=, each at most once, and partition=first,count,key",
            Verb::Load => "an address and a key",
            Verb::Store => "an address, a key and a byte",
            Verb::Fix => "a page",
            Verb::Free => "a page",
            Verb::Purge => "nothing",
            Verb::Settle => "nothing",
            Verb::Entry => "a page",
            Verb::Keys => "a first frame and a count",
            Verb::Frames => "nothing",
            Verb::Queues => "nothing",
            Verb::Pairs => "nothing",
            Verb::State => "nothing",
        }
    }
}

/// The verb that a word spells.
impl FromStr for Verb {
    type Err = Wrong;

    ghost from_str_gives = { Reads spelled IsNoVerb };

    fn from_str(word: &str) -> Result<Verb, Wrong> {
        match word {
            "HELP" => Ok(Verb::Help),
            "WIRE" => Ok(Verb::Wire),
            "SAVE" => Ok(Verb::Save),
            "BAD" => Ok(Verb::Bad),
            "MARK" => Ok(Verb::Mark),
            "STORAGE" => Ok(Verb::Storage),
            "DISPLAY" => Ok(Verb::Display),
            "ALTER" => Ok(Verb::Alter),
            "WALK" => Ok(Verb::Walk),
            "CONTROLS" => Ok(Verb::Controls),
            "SLOT" => Ok(Verb::Slot),
            "IPL" => Ok(Verb::Ipl),
            "LOAD" => Ok(Verb::Load),
            "STORE" => Ok(Verb::Store),
            "FIX" => Ok(Verb::Fix),
            "FREE" => Ok(Verb::Free),
            "PURGE" => Ok(Verb::Purge),
            "SETTLE" => Ok(Verb::Settle),
            "ENTRY" => Ok(Verb::Entry),
            "KEYS" => Ok(Verb::Keys),
            "FRAMES" => Ok(Verb::Frames),
            "QUEUES" => Ok(Verb::Queues),
            "PAIRS" => Ok(Verb::Pairs),
            "STATE" => Ok(Verb::State),
            _ => Err(Wrong::NoCommand),
        }
    }
}

impl fmt::Display for Verb {
    ghost output = { λ v. Some (spelled v) };

    fn fmt<W: fmt::Write>(&self, f: &mut fmt::Formatter<W>) -> fmt::Result {
        f.write_str(self.name())
    }
}
