//! The answers to commands, as they are printed.
ghost use Rattle.std.specs.Prelude.{◌≡◌};
ghost use Rattle.console.specs.Refusals.{number_of};
ghost use Rattle.console.specs.declared.answer.Refusal.TheVariants as Why;

use dataset::mark::Mark;
use dataset::refusal::{MarkRefusal, OpenRefusal};
use listing::entry::PageEntry;
use model::calls::{self, IplRefusal};
use model::shape::FrameRecord;
use pages::fault::StoreRefusal;
use script::verb::Verb;
use std::fmt;
use table::NO_PAGE;

/// Why a command was refused.
#[derive(Clone, Copy, Debug, PartialEq, Eq)]
pub enum Refusal {
    /// Not all of the bytes are in main storage, or the walk of the tables is refused.
    Walk(tables::Refusal),
    /// The page store refuses the slot.
    Store(StoreRefusal),
    /// The area is no page data set.
    Open(OpenRefusal),
    /// The machine refuses the call.
    Call(calls::Refusal),
}

impl Refusal {
    /// The number under which an operator knows the refusal.
    pub fn number(self) -> u8
        ensures { result ≡ number_of self }
    {
        // A `match`: each case hands on the number of what it carries.
        match self {
            Refusal::Walk(why) => why.number(),
            Refusal::Store(why) => why.number(),
            Refusal::Open(why) => why.number(),
            Refusal::Call(why) => why.number(),
        }
    }
}

impl From<tables::Refusal> for Refusal {
    ghost from_gives = { λ why r. r ≡ Why.Walk why };

    fn from(why: tables::Refusal) -> Refusal {
        Refusal::Walk(why)
    }
}

impl From<StoreRefusal> for Refusal {
    ghost from_gives = { λ why r. r ≡ Why.Store why };

    fn from(why: StoreRefusal) -> Refusal {
        Refusal::Store(why)
    }
}

impl From<OpenRefusal> for Refusal {
    ghost from_gives = { λ why r. r ≡ Why.Open why };

    fn from(why: OpenRefusal) -> Refusal {
        Refusal::Open(why)
    }
}

impl From<calls::Refusal> for Refusal {
    ghost from_gives = { λ why r. r ≡ Why.Call why };

    fn from(why: calls::Refusal) -> Refusal {
        Refusal::Call(why)
    }
}

/// Six digests, by which two boards are compared.
#[derive(Clone, Copy, Debug, PartialEq, Eq)]
pub struct Digests {
    /// of main storage
    pub storage: u64,
    /// of the 256 storage keys
    pub keys: u64,
    /// of the 256 records of the frame table
    pub frames: u64,
    /// of the lines that show the frames of the policy
    pub policy: u64,
    /// of the line that shows the pairs of the translator
    pub pairs: u64,
    /// of all slots of the page store that can be read
    pub store: u64,
}

/// What the console says to a command that it could carry out.
// A variant for each line that is printed: so a refusal is a variant too, and no `Result` stands for it.
#[derive(Debug, PartialEq, Eq, Drop)]
pub enum Answer {
    /// The commands.
    Help,
    /// The command was done.
    Done(Verb),
    /// The command was refused, and why.
    Refused(Verb, Refusal),
    /// The data set was opened again.
    Opened,
    /// The data set was not opened again, and why.
    NotOpened(MarkRefusal),
    /// Bytes of main storage: their address, and their digits.
    Bytes(u32, String),
    /// A real address.
    Real(usize),
    /// The digits of both control words.
    Words(String, String),
    /// A slot: its number, the digits of its digest, and its mark where it has one.
    Page(u32, String, Option<Mark>),
    /// IPL was refused, and why.
    NotStarted(IplRefusal),
    /// The byte that a Load reads.
    Byte(u8),
    /// The entry of a page: the page, the real address of its entry, and the entry.
    Entry(u32, usize, u16),
    /// Storage keys: the first frame, and their digits.
    Keys(u32, String),
    /// The records of the frames, frame 0 first; none before IPL.
    Frames(Vec<FrameRecord>),
    /// Lines as they stand.
    Lines(String),
    /// The digests of a board.
    State(Digests),
}

/// The commands, a line each.
const HELP: &str = "\
HELP                          prints the commands
WIRE words                    makes a fresh board. The words, each once, in any order:
  policy=queues|lru translator=walker|tlb|tlb2 store=plain|dataset slots=N
  or, for the page data set in a file, store=dataset file=PATH
SAVE path                     puts the area of the store into a file
BAD slot                      marks a slot of the data set bad
MARK slot value               puts a mark at a slot, and opens the data set again
STORAGE bytes                 makes main storage anew, all zeros
DISPLAY address count         shows bytes of main storage
ALTER address byte ..         puts bytes into main storage
WALK address [cr0 cr1]        walks the tables to a real address
CONTROLS                      shows both control words
SLOT slot                     shows the digest of a slot, and its mark
IPL words                     starts the machine. The words, in any order, a number left out being 0:
  frames=N supervisor=K pages=V, and partition=first,count,key for each partition
LOAD address key              reads a byte at a virtual address
STORE address key byte        writes a byte at a virtual address
FIX page                      fixes a page in its frame
FREE page                     takes one FIX back
PURGE                         ends the lookaside pairs that do not agree with the tables
SETTLE                        writes every changed page to its slot
ENTRY page                    shows the entry of a page, and what it says
KEYS first count              shows storage keys
FRAMES                        shows the frame table: frame, page, fix count
QUEUES                        shows the frames that the policy holds
PAIRS                         shows the lookaside pairs
STATE                         shows six digests of the whole board";

impl fmt::Display for Answer {
    fn fmt<W: fmt::Write>(&self, f: &mut fmt::Formatter<W>) -> fmt::Result {
        match self {
            Answer::Help => f.write_str(HELP),
            Answer::Done(verb) => write!(f, "{verb} done"),
            Answer::Refused(verb, why) => write!(f, "{verb} refused {}", why.number()),
            Answer::Opened => f.write_str("OPEN done"),
            Answer::NotOpened(why) => write!(f, "OPEN refused {}", why.number()),
            Answer::Bytes(address, digits) => numbered(f, Verb::Display, *address, digits),
            Answer::Real(address) => write!(f, "WALK {address}"),
            Answer::Words(cr0, cr1) => write!(f, "CONTROLS X'{cr0}' X'{cr1}'"),
            Answer::Page(slot, digest, Some(mark)) => {
                write!(f, "SLOT {slot} {digest} {}", mark.number())
            }
            Answer::Page(slot, digest, None) => write!(f, "SLOT {slot} {digest} -"),
            Answer::NotStarted(why) => not_started(f, why),
            Answer::Byte(byte) => write!(f, "LOAD {byte}"),
            Answer::Entry(page, at, entry) => shown_entry(f, *page, *at, *entry),
            Answer::Keys(first, digits) => numbered(f, Verb::Keys, *first, digits),
            Answer::Frames(records) => frames(f, records),
            Answer::Lines(lines) => f.write_str(lines.as_str()),
            Answer::State(digests) => write!(f, "STATE {digests}"),
        }
    }
}

// What bytes are shown, from which number on, and their digits where there are any.
fn numbered<W: fmt::Write>(
    f: &mut fmt::Formatter<W>,
    verb: Verb,
    first: u32,
    digits: &String,
) -> fmt::Result {
    if digits.is_empty() {
        return write!(f, "{verb} {first}");
    }
    write!(f, "{verb} {first} {digits}")
}

// The entry of a page: where it stands, its digits, and what it says.
fn shown_entry<W: fmt::Write>(
    f: &mut fmt::Formatter<W>,
    page: u32,
    at: usize,
    entry: u16,
) -> fmt::Result {
    let says = PageEntry::from(entry);
    write!(f, "ENTRY {page} at {at} X'{entry:04X}' {says}")
}

// Why IPL was refused: its number, and the fault of a slot.
fn not_started<W: fmt::Write>(f: &mut fmt::Formatter<W>, why: &IplRefusal) -> fmt::Result {
    match why {
        IplRefusal::Slot(fault) => write!(f, "IPL refused {} ({fault})", why.number()),
        IplRefusal::Sizes | IplRefusal::Partitions => write!(f, "IPL refused {}", why.number()),
    }
}

// A line for each frame: its number, its page or FFFF, and its fix count.
fn frames<W: fmt::Write>(f: &mut fmt::Formatter<W>, records: &[FrameRecord]) -> fmt::Result {
    if records.is_empty() {
        return f.write_str("FRAMES none");
    }
    for (frame, record) in records.iter().enumerate() {
        if frame > 0 {
            f.write_str("\n")?;
        }
        match record.page {
            NO_PAGE => write!(f, "{frame} FFFF {}", record.fixes)?,
            page => write!(f, "{frame} {page} {}", record.fixes)?,
        }
    }
    Ok(())
}

/// As `storage=.. keys=.. frames=.. policy=.. pairs=.. store=..`, sixteen digits each.
impl fmt::Display for Digests {
    fn fmt<W: fmt::Write>(&self, f: &mut fmt::Formatter<W>) -> fmt::Result {
        write!(
            f,
            "storage={:016X} keys={:016X} frames={:016X} ",
            self.storage, self.keys, self.frames
        )?;
        write!(
            f,
            "policy={:016X} pairs={:016X} store={:016X}",
            self.policy, self.pairs, self.store
        )
    }
}
