//! The nine cases: whether what is seen of the machine is what the rules give.
ghost use Rattle.std.specs.Prelude.{◌≡◌};
ghost use Rattle.cases.specs.Worked.{config_of};
ghost use Rattle.layout.specs.Config.{config_with};

use crate::board::Board;
use cases::table::{Configuration, Step, Table};
use layout::Sizes;
use runs::start::Start;
use runs::stopped::Stopped;
use runs::whole::work;
use std::alloc::{AllocError, Global};
use tables::Controls;

// The sizes that IPL is given.
fn sizes(configuration: &Configuration) -> Sizes
    ensures { config_with result configuration.now.partitions ≡ config_of configuration.now }
{
    Sizes {
        frames: configuration.frames,
        supervisor: configuration.supervisor,
        pages: configuration.pages,
    }
}

// What IPL is given.
fn start(configuration: &Configuration) -> Start<'_>
    ensures { config_with result.sizes result.partitions.now ≡ config_of configuration.now }
{
    Start {
        sizes: sizes(configuration),
        partitions: &configuration.partitions,
    }
}

// Makes calls, one after another: whether each is answered and leaves the frames as stated.
fn played(
    board: &mut Board,
    heap: Global,
    table: &Table,
    steps: &[Step],
) -> Result<bool, AllocError> {
    let mut same = true;
    for step in steps {
        let answer = board.make(step.call);
        same &= answer == step.answer;
        same &= board.is_at(heap, &table.pageable, &step.left)?;
    }
    Ok(same)
}

/// IPL.
pub fn a(board: &mut Board, heap: Global, table: &Table) -> Result<bool, AllocError> {
    let answered = board.ipl(start(&table.configuration)).is_ok();
    let same = answered && board.has_words(&table.words);
    Ok(same && board.is_at(heap, &table.pageable, &table.started)?)
}

/// The page tables.
pub fn b(board: &Board, table: &Table) -> bool {
    board.has_entries(&table.entries)
}

/// Walks with the machine's control words.
pub fn c(board: &Board, table: &Table) -> bool {
    let controls = board.machine.controls();
    table.walks.iter().all(|walk| board.walk_with(controls, walk.address) == walk.answer)
}

/// Walks with other words in control word 0.
pub fn d(board: &Board, table: &Table) -> bool {
    let controls = board.machine.controls();
    table.other_walks.iter().all(|&(cr0, walk)| {
        board.walk_with(Controls { cr0, ..controls }, walk.address) == walk.answer
    })
}

/// A Store.
pub fn e(board: &mut Board, heap: Global, table: &Table) -> Result<bool, AllocError> {
    Ok(played(board, heap, table, &table.stores)? && board.has_entries(&table.stored))
}

/// Loads, until a frame has to be taken.
pub fn f(board: &mut Board, heap: Global, table: &Table) -> Result<bool, AllocError> {
    Ok(played(board, heap, table, &table.loads)? && board.has_entries(&table.loaded))
}

/// Loads, until a changed page is put out.
pub fn g(board: &mut Board, heap: Global, table: &Table) -> Result<bool, AllocError> {
    let (slot, first) = table.slot;
    Ok(
        played(board, heap, table, &table.more_loads)?
            && board.has_slot(slot, first)
            && board.has_entries(&table.put_out),
    )
}

/// A Load of the page that was put out, and refusals.
pub fn h(board: &mut Board, heap: Global, table: &Table) -> Result<bool, AllocError> {
    played(board, heap, table, &table.refusals)
}

/// Fixes and frees, on a machine that is started anew.
pub fn i(heap: Global, table: &Table) -> anyhow::Result<bool> {
    let mut board = Board::new(heap, &table.configuration)?;
    match work(
        &mut board.machine,
        &mut board.storage,
        start(&table.configuration),
        &table.fixes,
        heap,
    ) {
        Ok(answers) => Ok(answers.as_slice() == &table.fixed[..]),
        Err(Stopped::Refused(_)) => Ok(false),
        Err(Stopped::Memory) => Err(AllocError.into()),
    }
}
