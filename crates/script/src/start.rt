//! What IPL starts a machine with, and the words of IPL that say it.
ghost use Rattle.std.specs.Prelude.{◌≡◌, true, IfErr, IfOk, MatchResult, OnOk, codes};
ghost use Rattle.script.specs.Faults.{Faulty, PartitionFaulty, StartWordFaulty};
ghost use Rattle.script.specs.Numbers.{Writes};
ghost use Rattle.script.specs.Said.{Appends, has_name, Takes, value_for};
ghost use Rattle.script.specs.Starts.{SaysStart, start_names, WritesPartition};

use crate::number::{byte_of, word_of};
use crate::verb::Verb;
use crate::wiring::once;
use crate::wrong::Wrong;
use model::shape::Partition;
use std::alloc::Global;

/// How many frames, supervisor frames and pages a machine is to have, and its partitions. IPL tests them, nothing before.
#[derive(Debug, PartialEq, Eq, Drop)]
pub struct Start {
    pub frames: u32,
    pub supervisor: u32,
    pub pages: u32,
    pub partitions: Vec<Partition>,
}

/// The words of IPL that were met so far.
#[derive(Drop)]
struct Words {
    frames: Option<u32>,
    supervisor: Option<u32>,
    pages: Option<u32>,
    partitions: Vec<Partition>,
}

// The partition that a value of `partition=` writes: first page, count and key.
fn partition(value: &str) -> Result<Partition, Wrong>
    ensures { MatchResult result (WritesPartition value.now) (PartitionFaulty value.now) }
{
    let (first, rest) = value.split_once(',').ok_or(Wrong::Arguments(Verb::Ipl))?;
    let (count, key) = rest.split_once(',').ok_or(Wrong::Arguments(Verb::Ipl))?;
    Ok(Partition {
        first: word_of(Verb::Ipl, first)?,
        count: word_of(Verb::Ipl, count)?,
        key: byte_of(Verb::Ipl, key)?,
    })
}

impl Words {
    // Takes in one word of IPL.
    fn take_in(&mut self, word: &str) -> Result<(), Wrong>
        ensures known { OnOk result (has_name start_names word.now ≡ true) }
        ensures frames { OnOk result (Takes Writes (value_for (codes "frames") word.now) self.old.frames self.new.frames) }
        ensures supervisor { OnOk result (Takes Writes (value_for (codes "supervisor") word.now) self.old.supervisor self.new.supervisor) }
        ensures pages { OnOk result (Takes Writes (value_for (codes "pages") word.now) self.old.pages self.new.pages) }
        ensures partitions { OnOk result (Appends WritesPartition (value_for (codes "partition") word.now) self.old.partitions.items self.new.partitions.items) }
        ensures faulty { IfErr result (StartWordFaulty self.old word.now) }
    {
        let (name, value) = word.split_once('=').ok_or(Wrong::UnknownWord(Verb::Ipl))?;
        match name {
            "frames" => once(Verb::Ipl, &mut self.frames, word_of(Verb::Ipl, value)?),
            "supervisor" => once(Verb::Ipl, &mut self.supervisor, word_of(Verb::Ipl, value)?),
            "pages" => once(Verb::Ipl, &mut self.pages, word_of(Verb::Ipl, value)?),
            "partition" => Ok(self.partitions.push(partition(value)?)?),
            _ => Err(Wrong::UnknownWord(Verb::Ipl)),
        }
    }
}

impl Start {
    /// The start that the words of IPL say. A number that none of them says is 0.
    pub fn of(heap: Global, words: &[&str]) -> Result<Start, Wrong>
        ensures says { IfOk result (SaysStart words.now) }
        ensures faulty { IfErr result (Faulty Verb.Ipl words.now) }
    {
        let mut met = Words {
            frames: None,
            supervisor: None,
            pages: None,
            partitions: Vec::new(heap),
        };
        for word in words {
            met.take_in(word)?;
        }
        Ok(Start {
            frames: met.frames.unwrap_or(0),
            supervisor: met.supervisor.unwrap_or(0),
            pages: met.pages.unwrap_or(0),
            partitions: met.partitions,
        })
    }
}
