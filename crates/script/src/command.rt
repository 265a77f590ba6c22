//! Lines and the commands that they write.
ghost use Rattle.std.specs.Prelude.{◌≡◌, ℕ, ◌⊎◌, IfErr, IfOk, MatchResult};
ghost use Rattle.script.specs.Commands.{Says, verb_of, WriteBytes};
ghost use Rattle.script.specs.Faults.{BytesFaulty, Faulty, IsMisread, NoByte, NoWord};
ghost use Rattle.script.specs.Lines.{IsUncommented, Parses};
ghost use Rattle.script.specs.Numbers.{Writes};

use crate::number::{byte_of, limited, word_of};
use crate::start::Start;
use crate::verb::Verb;
use crate::wiring::Wiring;
use crate::wrong::Wrong;
use std::alloc::Global;
use tables::Controls;

/// The bytes of main storage, at most.
pub const MOST_STORAGE: u32 = 67_108_864;

/// A command with its arguments.
#[derive(Debug, PartialEq, Eq, Drop)]
pub enum Command {
    Help,
    Wire(Wiring),
    Save(String),
    Bad(u32),
    Mark(u32, u8),
    Storage(u32),
    Display(u32, u32),
    Alter(u32, Vec<u8>),
    Walk(u32, Option<Controls>),
    Controls,
    Slot(u32),
    Ipl(Start),
    Load(u32, u8),
    Store(u32, u8, u8),
    Fix(u32),
    Free(u32),
    Purge,
    Settle,
    Entry(u32),
    Keys(u32, u32),
    Frames,
    Queues,
    Pairs,
    State,
}

/// The part of a line in front of its comment.
pub fn uncommented(line: &[u8]) -> &[u8]
    ensures { IsUncommented line.now result.now }
{
    let end = line.iter().position(|c| *c == b'#').unwrap_or(line.len());
    &line[..end]
}

// The bytes that words behind ALTER write. (Not `try_collect`: its clauses speak of runs of iterators, from which the way to the
// words is longer than this loop.)
fn bytes_of(heap: Global, words: &[&str]) -> Result<Vec<u8>, Wrong>
    ensures { MatchResult result (λ bytes. WriteBytes words.now bytes.items) (BytesFaulty words.now) }
{
    let mut bytes = Vec::new(heap);
    for word in words {
        bytes.push(byte_of(Verb::Alter, word)?)?;
    }
    Ok(bytes)
}

// ALTER address byte byte ..
fn alter(heap: Global, words: &[&str]) -> Result<Command, Wrong>
    ensures called { IfOk result (λ c. verb_of c ≡ Verb.Alter) }
    ensures says { IfOk result (Says words.now) }
    ensures faulty { IfErr result (Faulty Verb.Alter words.now) }
{
    let [address, _, ..] = words else {
        return Err(Wrong::Arguments(Verb::Alter));
    };
    let address = word_of(Verb::Alter, address)?;
    let bytes = bytes_of(heap, &words[1..])?;
    Ok(Command::Alter(address, bytes))
}

// WALK address cr0 cr1
fn walk_by(address: &str, cr0: &str, cr1: &str) -> Result<Command, Wrong>
    ensures called { IfOk result (λ c. verb_of c ≡ Verb.Walk) }
    ensures says { MatchResult result (λ c. (a : ℕ) × (x : ℕ) × (y : ℕ) × (c ≡ Command.Walk a (Some (record { cr0 = x; cr1 = y }))) × Writes address.now a × Writes cr0.now x × Writes cr1.now y) (IsMisread Verb.Walk (λ why. NoWord address.now why ⊎ (NoWord cr0.now why ⊎ NoWord cr1.now why))) }
{
    let address = word_of(Verb::Walk, address)?;
    let cr0 = word_of(Verb::Walk, cr0)?;
    let cr1 = word_of(Verb::Walk, cr1)?;
    Ok(Command::Walk(address, Some(Controls { cr0, cr1 })))
}

// WALK address, WALK address cr0 cr1
fn walk(words: &[&str]) -> Result<Command, Wrong>
    ensures called { IfOk result (λ c. verb_of c ≡ Verb.Walk) }
    ensures says { IfOk result (Says words.now) }
    ensures faulty { IfErr result (Faulty Verb.Walk words.now) }
{
    match words {
        [address] => Ok(Command::Walk(word_of(Verb::Walk, address)?, None)),
        [address, cr0, cr1] => walk_by(address, cr0, cr1),
        _ => Err(Wrong::Arguments(Verb::Walk)),
    }
}

// MARK slot value
fn mark(slot: &str, value: &str) -> Result<Command, Wrong>
    ensures called { IfOk result (λ c. verb_of c ≡ Verb.Mark) }
    ensures says { MatchResult result (λ c. (s : ℕ) × (v : ℕ) × (c ≡ Command.Mark s v) × Writes slot.now s × Writes value.now v) (IsMisread Verb.Mark (λ why. NoWord slot.now why ⊎ NoByte value.now why)) }
{
    Ok(Command::Mark(word_of(Verb::Mark, slot)?, byte_of(Verb::Mark, value)?))
}

// DISPLAY address count
fn display(address: &str, count: &str) -> Result<Command, Wrong>
    ensures called { IfOk result (λ c. verb_of c ≡ Verb.Display) }
    ensures says { MatchResult result (λ c. (a : ℕ) × (n : ℕ) × (c ≡ Command.Display a n) × Writes address.now a × Writes count.now n) (IsMisread Verb.Display (λ why. NoWord address.now why ⊎ NoWord count.now why)) }
{
    Ok(Command::Display(
        word_of(Verb::Display, address)?,
        word_of(Verb::Display, count)?,
    ))
}

// LOAD address key
fn load(address: &str, key: &str) -> Result<Command, Wrong>
    ensures called { IfOk result (λ c. verb_of c ≡ Verb.Load) }
    ensures says { MatchResult result (λ c. (a : ℕ) × (k : ℕ) × (c ≡ Command.Load a k) × Writes address.now a × Writes key.now k) (IsMisread Verb.Load (λ why. NoWord address.now why ⊎ NoByte key.now why)) }
{
    Ok(Command::Load(word_of(Verb::Load, address)?, byte_of(Verb::Load, key)?))
}

// STORE address key byte
fn store(address: &str, key: &str, byte: &str) -> Result<Command, Wrong>
    ensures called { IfOk result (λ c. verb_of c ≡ Verb.Store) }
    ensures says { MatchResult result (λ c. (a : ℕ) × (k : ℕ) × (b : ℕ) × (c ≡ Command.Store a k b) × Writes address.now a × Writes key.now k × Writes byte.now b) (IsMisread Verb.Store (λ why. NoWord address.now why ⊎ (NoByte key.now why ⊎ NoByte byte.now why))) }
{
    let address = word_of(Verb::Store, address)?;
    let key = byte_of(Verb::Store, key)?;
    let byte = byte_of(Verb::Store, byte)?;
    Ok(Command::Store(address, key, byte))
}

// KEYS first count
fn keys(first: &str, count: &str) -> Result<Command, Wrong>
    ensures called { IfOk result (λ c. verb_of c ≡ Verb.Keys) }
    ensures says { MatchResult result (λ c. (f : ℕ) × (n : ℕ) × (c ≡ Command.Keys f n) × Writes first.now f × Writes count.now n) (IsMisread Verb.Keys (λ why. NoWord first.now why ⊎ NoWord count.now why)) }
{
    Ok(Command::Keys(word_of(Verb::Keys, first)?, word_of(Verb::Keys, count)?))
}

impl Command {
    /// What the command is called.
    pub fn verb(&self) -> Verb
        ensures { result ≡ verb_of self.now }
    {
        match self {
            Command::Help => Verb::Help,
            Command::Wire(_) => Verb::Wire,
            Command::Save(_) => Verb::Save,
            Command::Bad(_) => Verb::Bad,
            Command::Mark(_, _) => Verb::Mark,
            Command::Storage(_) => Verb::Storage,
            Command::Display(_, _) => Verb::Display,
            Command::Alter(_, _) => Verb::Alter,
            Command::Walk(_, _) => Verb::Walk,
            Command::Controls => Verb::Controls,
            Command::Slot(_) => Verb::Slot,
            Command::Ipl(_) => Verb::Ipl,
            Command::Load(_, _) => Verb::Load,
            Command::Store(_, _, _) => Verb::Store,
            Command::Fix(_) => Verb::Fix,
            Command::Free(_) => Verb::Free,
            Command::Purge => Verb::Purge,
            Command::Settle => Verb::Settle,
            Command::Entry(_) => Verb::Entry,
            Command::Keys(_, _) => Verb::Keys,
            Command::Frames => Verb::Frames,
            Command::Queues => Verb::Queues,
            Command::Pairs => Verb::Pairs,
            Command::State => Verb::State,
        }
    }

    /// The command of a verb and the words behind it.
    pub fn of(heap: Global, verb: Verb, words: &[&str]) -> Result<Command, Wrong>
        ensures called { IfOk result (λ c. verb_of c ≡ verb) }
        ensures says { IfOk result (Says words.now) }
        ensures faulty { IfErr result (Faulty verb words.now) }
    {
        match (verb, words) {
            (Verb::Help, []) => Ok(Command::Help),
            (Verb::Wire, _) => Ok(Command::Wire(Wiring::of(heap, words)?)),
            (Verb::Save, [path]) => Ok(Command::Save(String::from_str(heap, path)?)),
            (Verb::Bad, [slot]) => Ok(Command::Bad(word_of(verb, slot)?)),
            (Verb::Mark, [slot, value]) => mark(slot, value),
            (Verb::Storage, [bytes]) => Ok(Command::Storage(limited(verb, bytes, MOST_STORAGE)?)),
            (Verb::Display, [address, count]) => display(address, count),
            (Verb::Alter, _) => alter(heap, words),
            (Verb::Walk, _) => walk(words),
            (Verb::Controls, []) => Ok(Command::Controls),
            (Verb::Slot, [slot]) => Ok(Command::Slot(word_of(verb, slot)?)),
            (Verb::Ipl, _) => Ok(Command::Ipl(Start::of(heap, words)?)),
            (Verb::Load, [address, key]) => load(address, key),
            (Verb::Store, [address, key, byte]) => store(address, key, byte),
            (Verb::Fix, [page]) => Ok(Command::Fix(word_of(verb, page)?)),
            (Verb::Free, [page]) => Ok(Command::Free(word_of(verb, page)?)),
            (Verb::Purge, []) => Ok(Command::Purge),
            (Verb::Settle, []) => Ok(Command::Settle),
            (Verb::Entry, [page]) => Ok(Command::Entry(word_of(verb, page)?)),
            (Verb::Keys, [first, count]) => keys(first, count),
            (Verb::Frames, []) => Ok(Command::Frames),
            (Verb::Queues, []) => Ok(Command::Queues),
            (Verb::Pairs, []) => Ok(Command::Pairs),
            (Verb::State, []) => Ok(Command::State),
            _ => Err(Wrong::Arguments(verb)),
        }
    }
}

/// The command that a line writes, or none where it has no words.
pub fn parse(heap: Global, line: &[u8]) -> Result<Option<Command>, Wrong>
    ensures { Parses line.now result }
{
    let text = std::str::from_utf8(uncommented(line)).map_err(|_| Wrong::NotText)?;
    let mut words = text.split_ascii_whitespace();
    let Some(first) = words.next() else {
        return Ok(None);
    };
    let verb = first.parse()?;
    let words: Vec<&str> = words.collect(heap)?;
    Command::of(heap, verb, &words).map(Some)
}
