//! What a board is wired from, and the words of WIRE that say it.
ghost use Rattle.std.specs.Prelude.{◌≡◌, true, IfErr, IfOk, IsSome, MatchResult, OnOk, codes};
ghost use Rattle.script.specs.Faults.{Faulty, SourceFaulty, WiringWordFaulty};
ghost use Rattle.script.specs.Said.{has_name, Takes, value_for};
ghost use Rattle.script.specs.Wirings.{Chosen, IsHeld, SaysWiring, Spells, wire_names, WritesSlots};
ghost use Rattle.script.specs.Words.{IsUnknown, kind_word, policy_word, Reads, translator_word};
ghost use Rattle.script.specs.declared.wrong.Wrong.{Wrong};

use crate::number::limited;
use crate::verb::Verb;
use crate::wrong::Wrong;
use std::alloc::Global;
use std::str::FromStr;

/// The slots that a store may be wired with, at most.
pub const MOST_WIRED: u32 = 16_384;

/// Which frame goes next.
#[derive(Clone, Copy, Debug, PartialEq, Eq)]
pub enum Policy {
    /// five queues
    Queues,
    /// the LRU list
    Lru,
}

/// How an address becomes a real one.
#[derive(Clone, Copy, Debug, PartialEq, Eq)]
pub enum Translator {
    /// the walk of the tables alone
    Walker,
    /// a TLB over the walker
    Tlb,
    /// a TLB over a TLB over the walker
    Tlb2,
}

/// The kind of a page store.
#[derive(Clone, Copy, Debug, PartialEq, Eq)]
pub enum Kind {
    Plain,
    DataSet,
}

/// Where the pages of a store come from.
#[derive(Debug, PartialEq, Eq, Drop)]
pub enum Source {
    /// a plain area of so many slots, all zeros
    Plain(u32),
    /// a page data set of so many blank slots
    Blank(u32),
    /// the page data set in the file of this name
    File(String),
}

/// A whole board, as WIRE says it.
#[derive(Debug, PartialEq, Eq, Drop)]
pub struct Wiring {
    pub policy: Policy,
    pub translator: Translator,
    pub source: Source,
}

/// The words of WIRE that were met so far.
#[derive(Drop)]
struct Words<'a> {
    policy: Option<Policy>,
    translator: Option<Translator>,
    kind: Option<Kind>,
    slots: Option<u32>,
    file: Option<&'a str>,
}

// Takes in one value of a word that may stand once.
pub(crate) fn once<T: Drop>(verb: Verb, place: &mut Option<T>, value: T) -> Result<(), Wrong>
    ensures { MatchResult result (λ _. (place.old ≡ None) × (place.new ≡ Some value)) (λ e. (e ≡ Wrong.Twice verb) × IsSome place.old) }
{
    if place.is_some() {
        return Err(Wrong::Twice(verb));
    }
    *place = Some(value);
    Ok(())
}

/// The policy that a value of `policy=` names.
impl FromStr for Policy {
    type Err = Wrong;

    ghost from_str_gives = { Reads policy_word IsUnknown };

    fn from_str(value: &str) -> Result<Policy, Wrong> {
        match value {
            "queues" => Ok(Policy::Queues),
            "lru" => Ok(Policy::Lru),
            _ => Err(Wrong::UnknownWord(Verb::Wire)),
        }
    }
}

/// The translator that a value of `translator=` names.
impl FromStr for Translator {
    type Err = Wrong;

    ghost from_str_gives = { Reads translator_word IsUnknown };

    fn from_str(value: &str) -> Result<Translator, Wrong> {
        match value {
            "walker" => Ok(Translator::Walker),
            "tlb" => Ok(Translator::Tlb),
            "tlb2" => Ok(Translator::Tlb2),
            _ => Err(Wrong::UnknownWord(Verb::Wire)),
        }
    }
}

/// The kind of store that a value of `store=` names.
impl FromStr for Kind {
    type Err = Wrong;

    ghost from_str_gives = { Reads kind_word IsUnknown };

    fn from_str(value: &str) -> Result<Kind, Wrong> {
        match value {
            "plain" => Ok(Kind::Plain),
            "dataset" => Ok(Kind::DataSet),
            _ => Err(Wrong::UnknownWord(Verb::Wire)),
        }
    }
}

impl<'a> Words<'a> {
    // Takes in one word of WIRE.
    fn take_in(&mut self, word: &'a str) -> Result<(), Wrong>
        ensures known { OnOk result (has_name wire_names word.now ≡ true) }
        ensures policy { OnOk result (Takes (Spells policy_word) (value_for (codes "policy") word.now) self.old.policy self.new.policy) }
        ensures translator { OnOk result (Takes (Spells translator_word) (value_for (codes "translator") word.now) self.old.translator self.new.translator) }
        ensures kind { OnOk result (Takes (Spells kind_word) (value_for (codes "store") word.now) self.old.kind self.new.kind) }
        ensures slots { OnOk result (Takes WritesSlots (value_for (codes "slots") word.now) self.old.slots self.new.slots) }
        ensures file { OnOk result (Takes IsHeld (value_for (codes "file") word.now) self.old.file self.new.file) }
        ensures faulty { IfErr result (WiringWordFaulty self.old word.now) }
    {
        let (name, value) = word.split_once('=').ok_or(Wrong::UnknownWord(Verb::Wire))?;
        match name {
            "policy" => once(Verb::Wire, &mut self.policy, value.parse()?),
            "translator" => once(Verb::Wire, &mut self.translator, value.parse()?),
            "store" => once(Verb::Wire, &mut self.kind, value.parse()?),
            "slots" => once(
                Verb::Wire,
                &mut self.slots,
                limited(Verb::Wire, value, MOST_WIRED)?,
            ),
            "file" => once(Verb::Wire, &mut self.file, value),
            _ => Err(Wrong::UnknownWord(Verb::Wire)),
        }
    }

    // Where the pages come from: slots or a file, and a file for a data set only.
    fn source(&self, heap: Global) -> Result<Source, Wrong>
        ensures { MatchResult result (Chosen self.now.kind self.now.slots self.now.file) (SourceFaulty self.now.kind self.now.slots self.now.file) }
    {
        match (self.kind, self.slots, self.file) {
            (Some(Kind::Plain), Some(n), None) => Ok(Source::Plain(n)),
            (Some(Kind::DataSet), Some(n), None) => Ok(Source::Blank(n)),
            (Some(Kind::DataSet), None, Some(path)) => Ok(Source::File(String::from_str(
                heap, path,
            )?)),
            _ => Err(Wrong::Arguments(Verb::Wire)),
        }
    }
}

impl Wiring {
    /// The board that the words of WIRE say.
    pub fn of(heap: Global, words: &[&str]) -> Result<Wiring, Wrong>
        ensures says { IfOk result (SaysWiring words.now) }
        ensures faulty { IfErr result (Faulty Verb.Wire words.now) }
    {
        let mut met = Words {
            policy: None,
            translator: None,
            kind: None,
            slots: None,
            file: None,
        };
        for word in words {
            met.take_in(word)?;
        }
        let (Some(policy), Some(translator)) = (met.policy, met.translator) else {
            return Err(Wrong::Arguments(Verb::Wire));
        };
        let source = met.source(heap)?;
        Ok(Wiring {
            policy,
            translator,
            source,
        })
    }
}
