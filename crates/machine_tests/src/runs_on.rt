//! What IPL writes, a second IPL, a refused IPL, and a byte that outlives its page's frame.
use crate::boards::{
    LAST_FRAME, MIDDLE, NARROW, SMALLEST, TWO_PAGES, WHOLE, WIDE, WRONG_KEY, blank_listed,
    blank_queued,
};
use crate::played::Step::{
    self, Control, Fix, Free, Ipl, Key, Load, Purge, Record, See, Settle, Slot, Store,
};
use crate::played::{
    ADDRESSING_5, ALL_FIXED_35, Case, DONE, NOT_FIXED_38, PROTECTION_4, ZERO, make, play, play_all,
    start,
};
use frames::Policy;
use machine::Machine;
use model::calls::{Call, Reply};
use pages::store::PageStore;
use std::alloc::Global;
use std::process::Abort;
use std::test::Fail;
use translation::Translator;

// What IPL writes, and next to it what it leaves.
const TABLES_OF_SMALLEST: [Step; 17] = [
    See(1_022, 0xAAAA),
    See(1_024, 0xF000),
    See(1_026, 0x0800),
    See(1_028, 0x0000),
    See(1_030, 0x0001),
    See(1_084, 0x0000),
    See(1_086, 0x0001),
    See(1_088, 0xAAAA),
    See(2_046, 0xAAAA),
    See(2_048, 0x0001),
    See(2_050, 0x0009),
    See(2_052, 0x0015),
    See(2_054, 0x8005),
    See(2_110, 0x8005),
    See(2_112, 0xAAAA),
    See(4_096, 0xAAAA),
    Control(0x0000_0400),
];

const TABLES_OF_NARROW: [Step; 19] = [
    See(1_022, 0xAAAA),
    See(1_148, 0xF000),
    See(1_150, 0x0FC0),
    See(1_152, 0xAAAA),
    See(2_050, 0x0009),
    See(2_052, 0x0015),
    See(2_054, 0x0015),
    See(2_056, 0x0025),
    See(2_110, 0x0025),
    See(2_112, 0x8005),
    See(2_128, 0x0035),
    See(2_142, 0x0035),
    See(2_144, 0x8005),
    See(2_248, 0x00F5),
    See(2_250, 0x8005),
    See(4_092, 0x8005),
    See(4_094, 0x0045),
    See(4_096, 0xAAAA),
    Control(0x0100_0400),
];

const TABLES_OF_WIDE: [Step; 17] = [
    See(1_022, 0xAAAA),
    See(2_044, 0xF000),
    See(2_046, 0x47C0),
    See(2_048, 0x0001),
    See(2_064, 0x0041),
    See(2_066, 0x0015),
    See(18_428, 0x8005),
    See(18_430, 0x0045),
    See(18_432, 0xAAAA),
    Record(0, 0, 0),
    Record(8, 8, 0),
    Record(9, 0xFFFF, 0),
    Record(255, 0xFFFF, 0),
    Key(0, 0),
    Key(9, 0),
    Key(255, 0),
    Control(0x0F00_0400),
];

// A byte is stored, its page goes out for another and comes in again.
const LEDGER: [Step; 15] = [
    Store(4_096, 1, 7, DONE),
    See(2_052, 0x0011),
    Key(2, 0x16),
    Record(2, 2, 0),
    Load(6_144, 1, ZERO),
    See(2_052, 0x0014),
    See(2_054, 0x0011),
    Key(2, 0x14),
    Record(2, 3, 0),
    Load(4_096, 1, Ok(Reply::Byte(7))),
    See(2_052, 0x0010),
    See(2_054, 0x0015),
    Key(2, 0x14),
    Record(2, 2, 0),
    Slot(0, [7, 0]),
];

// Page 9 with key 7 is out and was written, and its byte comes back.
const PUSHED_OUT: [Step; 3] = [
    See(2_066, 0x0074),
    Slot(0, [0, 5]),
    Load(18_433, 0, Ok(Reply::Byte(5))),
];

// Page 9 is changed, more pages than there are frames come in after it, and then it is looked at.
fn pushed_out<T: Translator, P: Policy, S: PageStore>(
    rt: &impl Abort,
    heap: Global,
    machine: &mut Machine<T, P, S>,
) -> Result<(), Fail> {
    let mut storage = WHOLE.storage(heap)?;
    start(rt, heap, machine, &mut storage, WHOLE, Ok(()))?;
    let posted = Call::Store {
        address: 18_433,
        key: 7,
        byte: 5,
    };
    assert_eq!(rt; make(machine, &mut storage, posted), DONE);
    for page in 10u32..1_000 {
        let call = Call::Load {
            address: page * 2_048,
            key: 0,
        };
        assert_eq!(rt; make(machine, &mut storage, call), ZERO, "page {page}");
    }
    play(rt, heap, "pushed out", machine, &mut storage, &PUSHED_OUT)
}

#[test]
fn byte_outlives_many_pages(rt: HostRuntime) -> Result<(), Fail> {
    let heap = rt.alloc();
    pushed_out(&rt, heap, &mut blank_queued(heap, WHOLE.slots())?)?;
    pushed_out(&rt, heap, &mut blank_listed(heap, WHOLE.slots())?)
}

// Page 2 is changed and fixed, and some of its bytes are in its slot. After a second IPL no page was written and none is
// fixed.
const AGAIN: [Step; 22] = [
    Store(4_096, 1, 7, DONE),
    Settle(DONE),
    Store(4_097, 1, 8, DONE),
    Fix(2, DONE),
    Key(2, 0x16),
    Record(2, 2, 1),
    Ipl(SMALLEST, Ok(())),
    Control(0x0000_0400),
    Key(2, 0),
    Record(2, 0xFFFF, 0),
    See(2_052, 0x0015),
    Slot(0, [7, 0]),
    Load(6_144, 1, ADDRESSING_5),
    Free(2, NOT_FIXED_38),
    Load(4_096, 1, ZERO),
    Load(4_097, 1, ZERO),
    Store(4_097, 2, 9, PROTECTION_4),
    Store(4_097, 1, 9, DONE),
    Load(4_097, 1, Ok(Reply::Byte(9))),
    Purge(DONE),
    Settle(DONE),
    Slot(0, [0, 9]),
];

// A refused IPL leaves the machine of before running: main storage has three frames, and the store two slots.
const REFUSED: [Step; 17] = [
    Store(4_096, 1, 7, DONE),
    Settle(DONE),
    Store(4_097, 1, 8, DONE),
    Fix(2, DONE),
    Ipl(WIDE, Err(32)),
    Ipl(WRONG_KEY, Err(33)),
    Ipl(NARROW, Err(34)),
    Control(0x0000_0400),
    Key(2, 0x16),
    Record(2, 2, 1),
    See(2_052, 0x0010),
    Slot(0, [7, 0]),
    Load(6_144, 1, ALL_FIXED_35),
    Load(4_096, 1, Ok(Reply::Byte(7))),
    Load(4_097, 1, Ok(Reply::Byte(8))),
    Free(2, DONE),
    Load(6_144, 1, ZERO),
];

const CASES: [Case; 8] = [
    Case {
        name: "tables of the smallest",
        board: SMALLEST,
        steps: &TABLES_OF_SMALLEST,
    },
    Case {
        name: "tables of the narrow",
        board: NARROW,
        steps: &TABLES_OF_NARROW,
    },
    Case {
        name: "tables of the wide",
        board: WIDE,
        steps: &TABLES_OF_WIDE,
    },
    Case {
        name: "controls of the middle",
        board: MIDDLE,
        steps: &[Control(0x0000_0400)],
    },
    Case {
        name: "controls of the last frame",
        board: LAST_FRAME,
        steps: &[Control(0x0000_0400)],
    },
    Case {
        name: "ledger",
        board: NARROW,
        steps: &LEDGER,
    },
    Case {
        name: "second IPL",
        board: NARROW,
        steps: &AGAIN,
    },
    Case {
        name: "refused IPL",
        board: TWO_PAGES,
        steps: &REFUSED,
    },
];

#[test]
fn cases(rt: HostRuntime) -> Result<(), Fail> {
    play_all(&rt, rt.alloc(), &CASES)
}
