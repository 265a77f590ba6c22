//! Commands, carried out on a board of any kind.
use console::answer::Answer;
use console::board::Board;
use layout::Sizes;
use parts::held::ShowFrames;
use parts::marks::Marked;
use parts::pairs::ShowPairs;
use script::command::Command;
use script::start::Start;
use script::verb::Verb;
use script::wrong::Wrong;
use std::fs;

// Puts the area of the store into a file.
fn save<T: ShowPairs, P: ShowFrames, S: Marked>(
    rt: &HostRuntime,
    board: &Board<T, P, S>,
    path: &str,
) -> Result<Answer, Wrong> {
    fs::write(rt, path, board.saved()).map_err(|_| Wrong::Unwritable)?;
    Ok(Answer::Done(Verb::Save))
}

// Starts the machine.
fn start<T: ShowPairs, P: ShowFrames, S: Marked>(
    rt: &HostRuntime,
    board: &mut Board<T, P, S>,
    start: &Start,
) -> Result<Answer, Wrong> {
    let sizes = Sizes {
        frames: start.frames,
        supervisor: start.supervisor,
        pages: start.pages,
    };
    Ok(board.ipl(rt.alloc(), sizes, &start.partitions)?)
}

/// Carries a command out on a board.
pub fn work<T: ShowPairs, P: ShowFrames, S: Marked>(
    rt: &HostRuntime,
    board: &mut Board<T, P, S>,
    command: Command,
) -> Result<Answer, Wrong> {
    let heap = rt.alloc();
    match command {
        Command::Save(path) => save(rt, board, path.as_str()),
        Command::Bad(slot) => board.bad(slot),
        Command::Mark(slot, value) => board.mark(slot, value),
        Command::Storage(bytes) => Ok(board.make_storage(heap, bytes)?),
        Command::Alter(address, bytes) => Ok(board.alter(address, &bytes)),
        Command::Ipl(words) => start(rt, board, &words),
        Command::Load(address, key) => Ok(board.load(address, key)),
        Command::Store(address, key, byte) => Ok(board.store(address, key, byte)),
        Command::Fix(page) => Ok(board.fix(page)),
        Command::Free(page) => Ok(board.free(page)),
        Command::Purge => Ok(board.purge()),
        Command::Settle => Ok(board.settle()),
        other => show(rt, board, other),
    }
}

// Shows what a command asks for; it changes nothing.
fn show<T: ShowPairs, P: ShowFrames, S: Marked>(
    rt: &HostRuntime,
    board: &Board<T, P, S>,
    command: Command,
) -> Result<Answer, Wrong> {
    let heap = rt.alloc();
    match command {
        Command::Display(address, count) => Ok(board.display(heap, address, count)?),
        Command::Walk(address, controls) => Ok(board.walk(address, controls)),
        Command::Controls => Ok(board.show_controls(heap)?),
        Command::Slot(slot) => Ok(board.slot(heap, slot)?),
        Command::Entry(page) => Ok(board.entry(page)),
        Command::Keys(first, count) => Ok(board.keys(heap, first, count)?),
        Command::Frames => Ok(board.frames(heap)?),
        Command::Queues => Ok(board.queues(heap)?),
        Command::Pairs => Ok(board.pairs(heap)?),
        Command::State => Ok(board.state(heap)?),
        _ => Ok(Answer::Help),
    }
}
