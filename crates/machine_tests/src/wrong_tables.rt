//! Tables in main storage that were altered from outside: which calls see it, and which do not.
use crate::boards::{MIDDLE, NARROW, WIDE};
use crate::played::Step::{self, Fix, Free, Key, Load, Purge, Put, Record, See, Settle, Store};
use crate::played::{
    ADDRESSING_5, ALL_FIXED_35, Case, DONE, KEY_36, NOT_FIXED_38, PROTECTION_4, TABLES_54, ZERO,
    play_all,
};
use model::calls::Reply;
use std::test::Fail;

// The entry of the page itself, which is in frame 2.
const OF_THIS_PAGE: [Step; 32] = [
    Load(4_096, 1, ZERO),
    See(2_052, 0x0011),
    // frame 3
    Put(2_052, 0x0019),
    Load(4_096, 1, TABLES_54),
    Store(4_096, 1, 9, TABLES_54),
    Fix(2, TABLES_54),
    Settle(TABLES_54),
    Purge(TABLES_54),
    Load(6_144, 1, TABLES_54),
    Fix(3, TABLES_54),
    // before 54: 36, 5, 4, 38
    Load(4_096, 16, KEY_36),
    Load(65_536, 1, ADDRESSING_5),
    Load(4_095, 1, PROTECTION_4),
    Store(4_096, 2, 9, PROTECTION_4),
    Free(2, NOT_FIXED_38),
    Free(3, NOT_FIXED_38),
    // bit 14, the invalid bit, bit 0
    Put(2_052, 0x0013),
    Load(4_096, 1, TABLES_54),
    Put(2_052, 0x0015),
    Load(4_096, 1, TABLES_54),
    Put(2_052, 0x8011),
    Load(4_096, 1, TABLES_54),
    // bit 15 alone
    Put(2_052, 0x0010),
    Load(4_096, 1, ZERO),
    Fix(2, DONE),
    Free(2, DONE),
    Settle(DONE),
    Purge(DONE),
    Put(2_052, 0x0011),
    Load(4_096, 1, ZERO),
    Settle(DONE),
    Purge(DONE),
];

// A fixed page cannot be freed while its entry is wrong.
const OF_A_FIXED_PAGE: [Step; 13] = [
    Fix(2, DONE),
    Put(2_052, 0x0019),
    Free(2, TABLES_54),
    Fix(2, TABLES_54),
    Load(4_096, 1, TABLES_54),
    Settle(TABLES_54),
    Purge(TABLES_54),
    // 35, 38 and 4 before 54
    Load(6_144, 1, ALL_FIXED_35),
    Free(3, NOT_FIXED_38),
    Store(4_096, 2, 9, PROTECTION_4),
    Put(2_052, 0x0011),
    Free(2, DONE),
    Record(2, 2, 0),
];

// The entry of a page that has no frame is looked at by the calls on this page, and by Purge.
const OF_A_PAGE_WITHOUT_A_FRAME: [Step; 19] = [
    Load(16_384, 1, ZERO),
    // key 2 in place of key 1, then a frame
    Put(2_068, 0x0025),
    Load(20_480, 1, TABLES_54),
    Store(20_480, 1, 9, TABLES_54),
    Fix(10, TABLES_54),
    Free(10, NOT_FIXED_38),
    Purge(TABLES_54),
    Load(16_384, 1, ZERO),
    Load(18_432, 1, ZERO),
    Settle(DONE),
    Put(2_068, 0x0021),
    Load(20_480, 1, TABLES_54),
    Purge(TABLES_54),
    Settle(DONE),
    Put(2_068, 0x0014),
    Purge(DONE),
    Put(2_068, 0x0015),
    Load(20_480, 1, ZERO),
    Purge(DONE),
];

// The entry of another page that has a frame is looked at while a page comes in.
const OF_ANOTHER_PAGE: [Step; 21] = [
    Load(16_384, 1, ZERO),
    Load(18_432, 1, ZERO),
    See(2_064, 0x0011),
    See(2_066, 0x0019),
    Put(2_064, 0x0019),
    // a page that has a frame
    Load(18_432, 1, ZERO),
    Store(18_432, 1, 9, DONE),
    Fix(9, DONE),
    Free(9, DONE),
    // a page that has none
    Load(20_480, 1, TABLES_54),
    Store(20_480, 1, 9, TABLES_54),
    Fix(10, TABLES_54),
    Free(10, NOT_FIXED_38),
    Settle(TABLES_54),
    Purge(TABLES_54),
    Load(16_384, 1, TABLES_54),
    Put(2_064, 0x0010),
    Load(20_480, 1, ZERO),
    Settle(DONE),
    Purge(DONE),
    Load(18_432, 1, Ok(Reply::Byte(9))),
];

// Segment entries are compared whole.
const OF_A_SEGMENT: [Step; 21] = [
    Load(65_536, 1, ZERO),
    See(2_112, 0x0011),
    Put(1_030, 0x0841),
    // page 32 alone is in segment 1
    Load(65_536, 1, TABLES_54),
    Load(16_384, 1, TABLES_54),
    Fix(32, TABLES_54),
    Settle(TABLES_54),
    Purge(TABLES_54),
    Put(1_030, 0x0840),
    Put(1_028, 0xE000),
    Load(65_536, 1, TABLES_54),
    Put(1_028, 0xF000),
    Load(16_384, 1, ZERO),
    // segment 0 as well
    Put(1_026, 0x0801),
    Load(16_384, 1, TABLES_54),
    Load(65_536, 1, ZERO),
    Load(18_432, 1, TABLES_54),
    Put(1_026, 0x0800),
    Load(18_432, 1, ZERO),
    Settle(DONE),
    Purge(DONE),
];

// A segment of which no page has a frame.
const OF_A_SEGMENT_WITHOUT_FRAMES: [Step; 12] = [
    Load(16_384, 1, ZERO),
    Put(1_028, 0xF100),
    Load(16_384, 1, ZERO),
    Load(18_432, 1, ZERO),
    Settle(DONE),
    Load(65_536, 1, TABLES_54),
    Store(65_536, 2, 9, TABLES_54),
    Fix(32, TABLES_54),
    Purge(TABLES_54),
    Put(1_028, 0xF000),
    Store(65_536, 2, 9, DONE),
    Purge(DONE),
];

// Fillers, supervisor pages, unused pages and those past V are looked at by Purge alone.
const SEEN_BY_PURGE: [Step; 42] = [
    Store(16_384, 1, 9, DONE),
    // the first filler, and the last
    See(1_034, 0x0001),
    Put(1_034, 0x0000),
    Purge(TABLES_54),
    Settle(DONE),
    Load(18_432, 1, ZERO),
    Fix(9, DONE),
    Free(9, DONE),
    Put(1_034, 0x0001),
    Purge(DONE),
    Put(1_084, 0x8000),
    Purge(TABLES_54),
    Load(20_480, 1, ZERO),
    Put(1_084, 0x0000),
    // behind the last
    Put(1_088, 0xFFFF),
    Purge(DONE),
    // the entry of a supervisor page: another frame, then bit 15 alone
    Put(2_050, 0x0019),
    Purge(TABLES_54),
    Settle(DONE),
    Load(22_528, 1, ZERO),
    Put(2_050, 0x0008),
    Purge(DONE),
    Put(2_050, 0x0009),
    // of an unused page
    Put(2_052, 0x0005),
    Purge(TABLES_54),
    Settle(DONE),
    Load(24_576, 1, ZERO),
    Put(2_052, 0x8004),
    Purge(DONE),
    Put(2_052, 0x8005),
    // of the page V, and of the last page of its segment
    Put(2_114, 0x0000),
    Purge(TABLES_54),
    Put(2_114, 0x8005),
    Put(2_174, 0x8007),
    Purge(TABLES_54),
    Settle(DONE),
    Load(26_624, 1, ZERO),
    Put(2_174, 0x8004),
    Purge(DONE),
    // behind the last
    Put(2_176, 0xFFFF),
    Purge(DONE),
    Load(16_384, 1, Ok(Reply::Byte(9))),
];

// Bit 15 alone: on means zeros, off means what the slot holds.
const BIT_15: [Step; 16] = [
    Store(4_096, 1, 7, DONE),
    See(2_052, 0x0011),
    Key(2, 0x16),
    Settle(DONE),
    See(2_052, 0x0010),
    Key(2, 0x14),
    Put(2_052, 0x0011),
    Load(6_144, 1, ZERO),
    See(2_052, 0x0015),
    Load(4_096, 1, ZERO),
    See(2_052, 0x0011),
    Put(2_052, 0x0010),
    Load(6_144, 1, ZERO),
    See(2_052, 0x0014),
    Load(4_096, 1, Ok(Reply::Byte(7))),
    See(2_052, 0x0010),
];

// 35 before 54, and 4 before both.
const FULL_BEFORE_WRONG: [Step; 13] = [
    Fix(2, DONE),
    Put(2_054, 0x0025),
    Load(6_144, 1, ALL_FIXED_35),
    Store(6_144, 1, 9, ALL_FIXED_35),
    Store(6_144, 2, 9, PROTECTION_4),
    Fix(3, ALL_FIXED_35),
    Free(2, DONE),
    Load(6_144, 1, TABLES_54),
    Store(6_144, 1, 9, TABLES_54),
    Store(6_144, 2, 9, PROTECTION_4),
    Fix(3, TABLES_54),
    Put(2_054, 0x0015),
    Load(6_144, 1, ZERO),
];

// The last segment and the last page of 8,192.
const OF_WIDE: [Step; 23] = [
    Load(16_777_215, 1, ZERO),
    See(2_044, 0xF000),
    See(2_046, 0x47C0),
    See(18_430, 0x0049),
    Put(18_430, 0x0048),
    Purge(DONE),
    Put(18_430, 0x0051),
    Purge(TABLES_54),
    Settle(TABLES_54),
    Load(18_432, 1, TABLES_54),
    Put(18_430, 0x0049),
    Put(2_046, 0x47C1),
    Purge(TABLES_54),
    Settle(TABLES_54),
    Load(18_432, 1, TABLES_54),
    Put(2_046, 0x47C0),
    Load(18_432, 1, ZERO),
    // the last unused page
    Put(18_428, 0x8001),
    Purge(TABLES_54),
    Settle(DONE),
    Load(20_480, 1, ZERO),
    Put(18_428, 0x8005),
    Purge(DONE),
];

const CASES: [Case; 10] = [
    Case {
        name: "of this page",
        board: NARROW,
        steps: &OF_THIS_PAGE,
    },
    Case {
        name: "of a fixed page",
        board: NARROW,
        steps: &OF_A_FIXED_PAGE,
    },
    Case {
        name: "of a page without a frame",
        board: MIDDLE,
        steps: &OF_A_PAGE_WITHOUT_A_FRAME,
    },
    Case {
        name: "of another page",
        board: MIDDLE,
        steps: &OF_ANOTHER_PAGE,
    },
    Case {
        name: "of a segment",
        board: MIDDLE,
        steps: &OF_A_SEGMENT,
    },
    Case {
        name: "of a segment without frames",
        board: MIDDLE,
        steps: &OF_A_SEGMENT_WITHOUT_FRAMES,
    },
    Case {
        name: "seen by purge",
        board: MIDDLE,
        steps: &SEEN_BY_PURGE,
    },
    Case {
        name: "bit 15",
        board: NARROW,
        steps: &BIT_15,
    },
    Case {
        name: "full before wrong",
        board: NARROW,
        steps: &FULL_BEFORE_WRONG,
    },
    Case {
        name: "of wide",
        board: WIDE,
        steps: &OF_WIDE,
    },
];

#[test]
fn cases(rt: HostRuntime) -> Result<(), Fail> {
    play_all(&rt, rt.alloc(), &CASES)
}
