//! The six calls on tables that are as they should be: keys and pages at their edges, and fixed frames.
use crate::boards::{LAST_FRAME, MANY_FRAMES, NARROW, SMALLEST, WHOLE, WIDE};
use crate::played::Step::{self, Fix, Free, Key, Load, Purge, Record, See, Settle, Store};
use crate::played::{
    ADDRESSING_5, ALL_FIXED_35, Case, DONE, KEY_36, NOT_FIXED_38, PROTECTION_4, ZERO, play_all,
};
use model::calls::Reply;
use std::test::Fail;

// Keys of Load and Store.
const KEYS: [Step; 13] = [
    Load(4_096, 15, ZERO),
    Load(4_096, 16, KEY_36),
    Load(4_096, 255, KEY_36),
    Store(4_096, 16, 9, KEY_36),
    Store(4_096, 15, 9, PROTECTION_4),
    Store(4_096, 2, 9, PROTECTION_4),
    Store(4_096, 1, 9, DONE),
    Store(4_096, 0, 8, DONE),
    Load(4_096, 0, Ok(Reply::Byte(8))),
    // 36 before 5 and before 4
    Load(6_144, 16, KEY_36),
    Load(4_095, 16, KEY_36),
    Store(6_144, 16, 9, KEY_36),
    Store(4_095, 16, 9, KEY_36),
];

// Pages K - 1, K and V where one page is behind the supervisor's.
const PAGES_OF_SMALLEST: [Step; 24] = [
    Load(0, 0, PROTECTION_4),
    Load(4_095, 1, PROTECTION_4),
    Store(4_095, 0, 9, PROTECTION_4),
    Store(4_095, 1, 9, PROTECTION_4),
    Fix(0, PROTECTION_4),
    Fix(1, PROTECTION_4),
    Free(0, PROTECTION_4),
    Free(1, PROTECTION_4),
    Load(4_096, 1, ZERO),
    Load(6_143, 1, ZERO),
    Fix(2, DONE),
    Free(2, DONE),
    Load(6_144, 1, ADDRESSING_5),
    Store(6_144, 1, 9, ADDRESSING_5),
    Fix(3, ADDRESSING_5),
    Free(3, ADDRESSING_5),
    // numbers that would fit if they were cut to 16 or to 24 bits
    Load(4_294_967_295, 1, ADDRESSING_5),
    Load(16_781_312, 1, ADDRESSING_5),
    Load(134_221_824, 1, ADDRESSING_5),
    Store(16_781_312, 1, 9, ADDRESSING_5),
    Fix(65_538, ADDRESSING_5),
    Free(65_538, ADDRESSING_5),
    Fix(4_294_967_295, ADDRESSING_5),
    Free(4_294_967_295, ADDRESSING_5),
];

// Pages at both ends of five partitions.
const PAGES_OF_NARROW: [Step; 27] = [
    Load(4_095, 1, PROTECTION_4),
    Load(4_096, 1, ZERO),
    Load(8_191, 1, ZERO),
    Load(8_192, 1, ZERO),
    Load(65_535, 1, ZERO),
    Load(65_536, 1, ADDRESSING_5),
    Store(65_536, 0, 9, ADDRESSING_5),
    Fix(32, ADDRESSING_5),
    Free(32, ADDRESSING_5),
    Load(81_919, 1, ADDRESSING_5),
    Load(81_920, 1, ZERO),
    Load(98_303, 1, ZERO),
    Load(98_304, 1, ADDRESSING_5),
    Load(204_799, 1, ADDRESSING_5),
    Load(204_800, 1, ZERO),
    Load(206_847, 1, ZERO),
    Load(206_848, 1, ADDRESSING_5),
    Load(2_095_103, 1, ADDRESSING_5),
    Fix(1_022, ADDRESSING_5),
    Free(1_022, ADDRESSING_5),
    Load(2_095_104, 1, ZERO),
    Load(2_097_151, 1, ZERO),
    Load(2_097_152, 1, ADDRESSING_5),
    Fix(1_023, DONE),
    Free(1_023, DONE),
    Fix(1_024, ADDRESSING_5),
    Free(1_024, ADDRESSING_5),
];

// Keys at both ends of partitions.
const KEYS_OF_NARROW: [Step; 19] = [
    Store(8_191, 1, 9, DONE),
    Store(8_191, 2, 9, PROTECTION_4),
    Store(8_192, 1, 9, PROTECTION_4),
    Store(8_192, 2, 9, DONE),
    Store(65_535, 2, 9, DONE),
    Store(65_535, 3, 9, PROTECTION_4),
    Store(81_920, 3, 9, DONE),
    Store(204_800, 15, 9, DONE),
    Store(204_800, 1, 9, PROTECTION_4),
    Store(2_097_151, 4, 9, DONE),
    Store(2_097_151, 3, 9, PROTECTION_4),
    Store(2_097_151, 0, 8, DONE),
    // 5 before 4: a key of no partition at a page of none
    Store(65_536, 7, 9, ADDRESSING_5),
    // the key of a Load is compared with none
    Load(8_191, 15, Ok(Reply::Byte(9))),
    Load(8_192, 0, Ok(Reply::Byte(9))),
    Load(65_535, 1, Ok(Reply::Byte(9))),
    Load(81_920, 1, Ok(Reply::Byte(9))),
    Load(204_800, 1, Ok(Reply::Byte(9))),
    Load(2_097_151, 1, Ok(Reply::Byte(8))),
];

// Every frame fixed, where there is one.
const ALL_FIXED: [Step; 27] = [
    Fix(2, DONE),
    Record(2, 2, 1),
    Load(4_096, 1, ZERO),
    Store(4_096, 1, 9, DONE),
    Load(6_144, 1, ALL_FIXED_35),
    Store(6_144, 1, 9, ALL_FIXED_35),
    Fix(3, ALL_FIXED_35),
    Fix(1_023, ALL_FIXED_35),
    // before 35: 36, 5, 4, 38
    Load(6_144, 16, KEY_36),
    Load(65_536, 1, ADDRESSING_5),
    Fix(32, ADDRESSING_5),
    Load(4_095, 1, PROTECTION_4),
    Fix(1, PROTECTION_4),
    Store(6_144, 2, 9, PROTECTION_4),
    Free(3, NOT_FIXED_38),
    // fixed twice, freed twice
    Fix(2, DONE),
    Record(2, 2, 2),
    Free(2, DONE),
    Load(6_144, 1, ALL_FIXED_35),
    Free(2, DONE),
    Record(2, 2, 0),
    Load(6_144, 1, ZERO),
    Record(2, 3, 0),
    Free(2, NOT_FIXED_38),
    Fix(2, DONE),
    Free(3, NOT_FIXED_38),
    Load(4_096, 1, Ok(Reply::Byte(9))),
];

// Pages at both ends of five partitions, to the last byte that there is.
const PAGES_OF_WIDE: [Step; 33] = [
    Load(16_384, 1, PROTECTION_4),
    Load(18_431, 1, PROTECTION_4),
    Fix(8, PROTECTION_4),
    Free(8, PROTECTION_4),
    Load(18_432, 1, ZERO),
    Store(204_799, 2, 9, PROTECTION_4),
    Store(204_799, 1, 9, DONE),
    Store(204_800, 1, 9, PROTECTION_4),
    Store(204_800, 2, 9, DONE),
    Load(409_599, 1, ZERO),
    Load(409_600, 1, ADDRESSING_5),
    Load(2_047_999, 1, ADDRESSING_5),
    Load(2_048_000, 1, ZERO),
    Load(3_071_999, 1, ZERO),
    Load(3_072_000, 1, ADDRESSING_5),
    Load(8_388_607, 1, ADDRESSING_5),
    Load(8_388_608, 1, ZERO),
    Load(8_390_655, 1, ZERO),
    Load(8_390_656, 1, ADDRESSING_5),
    Load(16_775_167, 1, ADDRESSING_5),
    Load(16_775_168, 1, ZERO),
    Load(16_777_215, 1, ZERO),
    Load(16_777_216, 1, ADDRESSING_5),
    Fix(8_190, ADDRESSING_5),
    Fix(8_191, DONE),
    Fix(8_192, ADDRESSING_5),
    Free(8_190, ADDRESSING_5),
    Free(8_191, DONE),
    Free(8_192, ADDRESSING_5),
    Load(204_799, 1, Ok(Reply::Byte(9))),
    Load(204_800, 1, Ok(Reply::Byte(9))),
    Purge(DONE),
    Settle(DONE),
];

// The same with one partition.
const PAGES_OF_WHOLE: [Step; 13] = [
    Store(18_431, 7, 9, PROTECTION_4),
    Store(18_432, 7, 9, DONE),
    Store(16_777_215, 8, 9, PROTECTION_4),
    Store(16_777_215, 7, 8, DONE),
    Store(16_777_216, 7, 9, ADDRESSING_5),
    Load(18_432, 1, Ok(Reply::Byte(9))),
    Load(16_777_215, 1, Ok(Reply::Byte(8))),
    Fix(8_191, DONE),
    Fix(8_192, ADDRESSING_5),
    Free(8_191, DONE),
    Free(8_191, NOT_FIXED_38),
    Purge(DONE),
    Settle(DONE),
];

// The last of 256 frames alone.
const PAGES_OF_LAST_FRAME: [Step; 18] = [
    Load(522_239, 1, PROTECTION_4),
    Load(522_240, 1, ZERO),
    Store(524_287, 2, 9, PROTECTION_4),
    Store(524_287, 1, 9, DONE),
    Load(524_287, 1, Ok(Reply::Byte(9))),
    Load(524_288, 1, ADDRESSING_5),
    Record(255, 255, 0),
    Key(255, 0x16),
    See(2_558, 0x07F9),
    Fix(254, PROTECTION_4),
    Fix(255, DONE),
    Fix(256, ADDRESSING_5),
    Load(524_287, 1, Ok(Reply::Byte(9))),
    Free(255, DONE),
    Purge(DONE),
    Settle(DONE),
    See(2_558, 0x07F8),
    Key(255, 0x14),
];

// One page in the first of 254 frames.
const PAGES_OF_MANY_FRAMES: [Step; 9] = [
    Store(4_096, 1, 9, DONE),
    Record(2, 2, 0),
    Load(6_144, 1, ADDRESSING_5),
    Fix(2, DONE),
    Load(4_096, 1, Ok(Reply::Byte(9))),
    Free(2, DONE),
    Free(2, NOT_FIXED_38),
    Purge(DONE),
    Settle(DONE),
];

const CASES: [Case; 9] = [
    Case {
        name: "keys",
        board: SMALLEST,
        steps: &KEYS,
    },
    Case {
        name: "pages of smallest",
        board: SMALLEST,
        steps: &PAGES_OF_SMALLEST,
    },
    Case {
        name: "pages of narrow",
        board: NARROW,
        steps: &PAGES_OF_NARROW,
    },
    Case {
        name: "keys of narrow",
        board: NARROW,
        steps: &KEYS_OF_NARROW,
    },
    Case {
        name: "all fixed",
        board: NARROW,
        steps: &ALL_FIXED,
    },
    Case {
        name: "pages of wide",
        board: WIDE,
        steps: &PAGES_OF_WIDE,
    },
    Case {
        name: "pages of whole",
        board: WHOLE,
        steps: &PAGES_OF_WHOLE,
    },
    Case {
        name: "pages of last frame",
        board: LAST_FRAME,
        steps: &PAGES_OF_LAST_FRAME,
    },
    Case {
        name: "pages of many frames",
        board: MANY_FRAMES,
        steps: &PAGES_OF_MANY_FRAMES,
    },
];

#[test]
fn cases(rt: HostRuntime) -> Result<(), Fail> {
    play_all(&rt, rt.alloc(), &CASES)
}
