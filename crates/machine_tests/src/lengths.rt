//! Main storage of another length, and the calls before any IPL.
use crate::boards::{
    Board, LAST_FRAME, SMALLEST, TWO_PAGES, WIDE, WRONG_KEY, blank_listed, blank_queued,
};
use crate::played::Step::{self, Fix, Free, Key, Load, Purge, Record, Settle, Store};
use crate::played::{ADDRESSING_5, DONE, KEY_36, SIZES_32, play, start};
use frames::Policy;
use machine::Machine;
use pages::store::PageStore;
use std::alloc::Global;
use std::process::Abort;
use std::test::Fail;
use translation::Translator;

// 32 before 36, 5, 4 and 38.
const OTHER_LENGTH: [Step; 10] = [
    Load(4_096, 1, SIZES_32),
    Load(4_294_967_295, 16, SIZES_32),
    Load(0, 1, SIZES_32),
    Store(4_096, 1, 9, SIZES_32),
    Store(4_096, 16, 9, SIZES_32),
    Fix(2, SIZES_32),
    Free(2, SIZES_32),
    Free(9_000, SIZES_32),
    Purge(SIZES_32),
    Settle(SIZES_32),
];

const RIGHT_LENGTH: [Step; 2] = [Purge(DONE), Settle(DONE)];

fn other_lengths<T: Translator, P: Policy, S: PageStore>(
    rt: &impl Abort,
    heap: Global,
    machine: &mut Machine<T, P, S>,
    board: Board,
) -> Result<(), Fail> {
    let mut storage = board.storage(heap)?;
    start(rt, heap, machine, &mut storage, board, Ok(()))?;
    let less = storage.len().saturating_sub(1);
    play(
        rt,
        heap,
        "one byte short",
        machine,
        &mut storage[..less],
        &OTHER_LENGTH,
    )?;
    play(rt, heap, "no byte", machine, &mut [], &OTHER_LENGTH)?;
    play(rt, heap, "as it was", machine, &mut storage, &RIGHT_LENGTH)?;
    storage.push(0)?;
    play(
        rt,
        heap,
        "one byte long",
        machine,
        &mut storage,
        &OTHER_LENGTH,
    )
}

#[test]
fn lengths(rt: HostRuntime) -> Result<(), Fail> {
    let heap = rt.alloc();
    for board in [SMALLEST, LAST_FRAME, WIDE] {
        other_lengths(&rt, heap, &mut blank_queued(heap, board.slots())?, board)?;
        other_lengths(&rt, heap, &mut blank_listed(heap, board.slots())?, board)?;
    }
    Ok(())
}

const BEFORE: [Step; 15] = [
    Load(0, 15, ADDRESSING_5),
    Load(0, 16, KEY_36),
    Load(4_294_967_295, 0, ADDRESSING_5),
    Store(0, 0, 9, ADDRESSING_5),
    Store(0, 16, 9, KEY_36),
    Fix(0, ADDRESSING_5),
    Fix(65_535, ADDRESSING_5),
    Free(0, ADDRESSING_5),
    Free(65_535, ADDRESSING_5),
    Purge(DONE),
    Settle(DONE),
    Key(0, 0),
    Key(255, 0),
    Record(0, 0xFFFF, 0),
    Record(255, 0xFFFF, 0),
];

fn before_ipl<T: Translator, P: Policy, S: PageStore>(
    rt: &impl Abort,
    heap: Global,
    machine: &mut Machine<T, P, S>,
) -> Result<(), Fail> {
    play(rt, heap, "before IPL", machine, &mut [], &BEFORE)?;
    play(
        rt,
        heap,
        "before IPL, one byte",
        machine,
        &mut [0],
        &OTHER_LENGTH,
    )?;
    assert_eq!(rt; machine.frames(), 0);
    assert_eq!(rt; machine.supervisor(), 0);
    assert_eq!(rt; machine.pages(), 0);
    Ok(())
}

#[test]
fn calls_before_ipl(rt: HostRuntime) -> Result<(), Fail> {
    let heap = rt.alloc();
    before_ipl(&rt, heap, &mut blank_queued(heap, 1)?)?;
    before_ipl(&rt, heap, &mut blank_listed(heap, 1)?)
}

// A refused IPL before any answered one leaves a machine that has none.
fn refused_first<T: Translator, P: Policy, S: PageStore>(
    rt: &impl Abort,
    heap: Global,
    machine: &mut Machine<T, P, S>,
) -> Result<(), Fail> {
    let mut storage = SMALLEST.storage(heap)?;
    start(rt, heap, machine, &mut storage, WIDE, Err(32))?;
    start(rt, heap, machine, &mut storage, WRONG_KEY, Err(33))?;
    start(rt, heap, machine, &mut storage, TWO_PAGES, Err(34))?;
    before_ipl(rt, heap, machine)?;
    start(rt, heap, machine, &mut storage, SMALLEST, Ok(()))
}

#[test]
fn refused_ipl_first(rt: HostRuntime) -> Result<(), Fail> {
    let heap = rt.alloc();
    refused_first(&rt, heap, &mut blank_queued(heap, 1)?)?;
    refused_first(&rt, heap, &mut blank_listed(heap, 1)?)
}
