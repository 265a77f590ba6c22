//! A page fixed 255 times, and all of 247 frames fixed.
use crate::boards::{NARROW, WIDE, blank_listed, blank_queued};
use crate::played::Step::{self, Fix, Free, Load, Purge, Put, Record, Settle};
use crate::played::{
    ALL_FIXED_35, DONE, FIX_LIMIT_37, NOT_FIXED_38, PROTECTION_4, TABLES_54, ZERO, make, play,
    start,
};
use frames::Policy;
use machine::Machine;
use model::calls::Call;
use pages::store::PageStore;
use std::alloc::Global;
use std::process::Abort;
use std::test::Fail;
use translation::Translator;

// Page 2 is fixed 254 times. The entry of page 2 stands at 2,052.
const AT_THE_LIMIT: [Step; 19] = [
    Record(2, 2, 254),
    Fix(2, DONE),
    Record(2, 2, 255),
    Fix(2, FIX_LIMIT_37),
    Record(2, 2, 255),
    Fix(3, ALL_FIXED_35),
    Fix(1, PROTECTION_4),
    Load(4_096, 1, ZERO),
    // 37 before 54
    Put(2_052, 0x0019),
    Fix(2, FIX_LIMIT_37),
    Free(2, TABLES_54),
    Put(2_052, 0x0011),
    Free(2, DONE),
    Record(2, 2, 254),
    Fix(2, DONE),
    Fix(2, FIX_LIMIT_37),
    Purge(DONE),
    Settle(DONE),
    Record(2, 2, 255),
];

// Page 2 was freed 254 times after that.
const FREED_AGAIN: [Step; 6] = [
    Load(6_144, 1, ALL_FIXED_35),
    Free(2, DONE),
    Record(2, 2, 0),
    Free(2, NOT_FIXED_38),
    Load(6_144, 1, ZERO),
    Record(2, 3, 0),
];

// Makes a call so many times, and sees that each is done.
fn repeat<T: Translator, P: Policy, S: PageStore>(
    rt: &impl Abort,
    machine: &mut Machine<T, P, S>,
    storage: &mut [u8],
    call: Call,
    times: u8,
) {
    for _ in 0..times {
        assert_eq!(rt; make(machine, storage, call), DONE);
    }
}

fn fixed_255_times<T: Translator, P: Policy, S: PageStore>(
    rt: &impl Abort,
    heap: Global,
    machine: &mut Machine<T, P, S>,
) -> Result<(), Fail> {
    let mut storage = NARROW.storage(heap)?;
    start(rt, heap, machine, &mut storage, NARROW, Ok(()))?;
    repeat(rt, machine, &mut storage, Call::Fix { page: 2 }, 254);
    play(
        rt,
        heap,
        "at the limit",
        machine,
        &mut storage,
        &AT_THE_LIMIT,
    )?;
    repeat(rt, machine, &mut storage, Call::Free { page: 2 }, 254);
    play(rt, heap, "freed again", machine, &mut storage, &FREED_AGAIN)
}

#[test]
fn fix_counts(rt: HostRuntime) -> Result<(), Fail> {
    let heap = rt.alloc();
    fixed_255_times(&rt, heap, &mut blank_queued(heap, NARROW.slots())?)?;
    fixed_255_times(&rt, heap, &mut blank_listed(heap, NARROW.slots())?)
}

// 246 pages are fixed, 9 to 199 and 1,000 to 1,054: one frame is left.
const ONE_LEFT: [Step; 12] = [
    Load(8_388_608, 1, ZERO),
    Load(16_775_168, 1, ZERO),
    Fix(1_055, DONE),
    // none is left
    Load(8_388_608, 1, ALL_FIXED_35),
    Fix(1_056, ALL_FIXED_35),
    Load(18_432, 1, ZERO),
    Fix(9, DONE),
    Free(9, DONE),
    Load(8_388_608, 1, ALL_FIXED_35),
    Free(9, DONE),
    Load(8_388_608, 1, ZERO),
    Free(9, NOT_FIXED_38),
];

fn all_fixed<T: Translator, P: Policy, S: PageStore>(
    rt: &impl Abort,
    heap: Global,
    machine: &mut Machine<T, P, S>,
) -> Result<(), Fail> {
    let mut storage = WIDE.storage(heap)?;
    start(rt, heap, machine, &mut storage, WIDE, Ok(()))?;
    for page in (9u32..200).chain(1_000..1_055) {
        assert_eq!(rt;
            make(machine, &mut storage, Call::Fix { page }),
            DONE,
            "page {page}"
        );
    }
    play(rt, heap, "one left", machine, &mut storage, &ONE_LEFT)
}

#[test]
fn all_of_247_fixed(rt: HostRuntime) -> Result<(), Fail> {
    let heap = rt.alloc();
    all_fixed(&rt, heap, &mut blank_queued(heap, WIDE.slots())?)?;
    all_fixed(&rt, heap, &mut blank_listed(heap, WIDE.slots())?)
}
