//! The walk, step by step. A case puts one segment entry and one page entry into a storage of zeros and hands the front of
//! it to the walk. A table has a row for each case, with what the walk answers last.
use storage::Number;
use tables::{Controls, Refusal, walk};

const BYTES: usize = 8192;

// Control word 0 for the four pairs of sizes, the page size first.
const CR0_2K_64K: u32 = 0x0040_0000;

const CR0_4K_64K: u32 = 0x0080_0000;

const CR0_2K_1M: u32 = 0x0050_0000;

const CR0_4K_1M: u32 = 0x0090_0000;

// 16 segment entries at 1,024, and a full page table at 2,048.
const CR1: u32 = 0x0000_0400;

const SEGMENT: u32 = 0xF000_0800;

type Answer = Result<usize, Refusal>;

const REFUSED_5: Answer = Err(Refusal::Addressing);

const REFUSED_16: Answer = Err(Refusal::SegmentTranslation);

const REFUSED_17: Answer = Err(Refusal::PageTranslation);

const REFUSED_18: Answer = Err(Refusal::TranslationSpecification);

#[derive(Clone, Copy)]
struct Case {
    // how many bytes of the storage the walk is handed
    length: usize,
    segment_at: usize,
    segment: u32,
    page_at: usize,
    page: u16,
    cr0: u32,
    cr1: u32,
    address: u32,
}

// Segment 0, page 0, byte 5, and the page is in frame 2: the answer is 4,101.
const PLAIN: Case = Case {
    length: BYTES,
    segment_at: 1024,
    segment: SEGMENT,
    page_at: 2048,
    page: 0x0010,
    cr0: CR0_2K_64K,
    cr1: CR1,
    address: 5,
};

fn walked(case: Case) -> Answer {
    let mut bytes = [0u8; BYTES];
    case.segment.write(&mut bytes, case.segment_at);
    case.page.write(&mut bytes, case.page_at);
    let controls = Controls {
        cr0: case.cr0,
        cr1: case.cr1,
    };
    walk(&bytes[..case.length.min(BYTES)], controls, case.address)
}

// Segment 1, page 3, byte 5. The entry X'0010' is frame 2 of 2,048 bytes and frame 1 of 4,096: the answer is 4,101.
const SIZES: [(u32, u32); 4] = [
    (CR0_2K_64K, 71_685),
    (CR0_4K_64K, 77_829),
    (CR0_2K_1M, 1_054_725),
    (CR0_4K_1M, 1_060_869),
];

#[test]
fn sizes(rt: HostRuntime) {
    for (cr0, address) in SIZES {
        let case = Case {
            segment_at: 1028,
            page_at: 2054,
            cr0,
            address,
            ..PLAIN
        };
        assert_eq!(rt; walked(case), Ok(4101));
    }
}

// Steps 1 and 2: control word 0 and address. The last address is segment 255, page 31, byte 2,047.
const CONTROLS: [(u32, u32, Answer); 10] = [
    (CR0_2K_64K, 16_777_215, Ok(6143)),
    (CR0_2K_64K, 16_777_216, REFUSED_5),
    (CR0_2K_64K, 4_294_967_295, REFUSED_5),
    (0x0000_0000, 16_777_216, REFUSED_5),
    (0x0000_0000, 16_777_215, REFUSED_18),
    (0x00C0_0000, 16_777_215, REFUSED_18),
    (0x0060_0000, 16_777_215, REFUSED_18),
    (0x0048_0000, 16_777_215, REFUSED_18),
    (0x0058_0000, 16_777_215, REFUSED_18),
    (0xFF47_FFFF, 16_777_215, Ok(6143)),
];

#[test]
fn controls(rt: HostRuntime) {
    for (cr0, address, answer) in CONTROLS {
        let case = Case {
            segment_at: 2044,
            page_at: 2110,
            cr0,
            cr1: 0x0F00_0400,
            address,
            ..PLAIN
        };
        assert_eq!(rt; walked(case), answer);
    }
}

// Steps 4 to 6: length of storage, place of the segment entry, the entry, control word 1, address.
const SEGMENTS: [(usize, usize, u32, u32, u32, Answer); 16] = [
    // the table has 16 entries, then 32
    (BYTES, 1084, SEGMENT, CR1, 983_045, Ok(4101)),
    (BYTES, 1088, SEGMENT, CR1, 1_048_581, REFUSED_16),
    (BYTES, 1148, SEGMENT, 0x0100_0400, 2_031_621, Ok(4101)),
    (BYTES, 1152, SEGMENT, 0x0100_0400, 2_097_157, REFUSED_16),
    // the entry is the last 4 bytes, straddles the end, and is past it
    (BYTES, 8188, SEGMENT, 0x0000_1FC0, 983_045, Ok(4101)),
    (8191, 8188, SEGMENT, 0x0000_1FC0, 983_045, REFUSED_5),
    (8188, 8188, SEGMENT, 0x0000_1FC0, 983_045, REFUSED_5),
    // the place is not cut to 24 bits: 16,777,152 + 64 is not 0
    (BYTES, 0, SEGMENT, 0x01FF_FFC0, 1_048_581, REFUSED_5),
    // bits 4 to 7, 29, 30, then 30 and 31, then 31
    (BYTES, 1024, 0xF800_0800, CR1, 5, REFUSED_18),
    (BYTES, 1024, 0xF400_0800, CR1, 5, REFUSED_18),
    (BYTES, 1024, 0xF200_0800, CR1, 5, REFUSED_18),
    (BYTES, 1024, 0xF100_0800, CR1, 5, REFUSED_18),
    (BYTES, 1024, 0xF000_0804, CR1, 5, REFUSED_18),
    (BYTES, 1024, 0xF000_0802, CR1, 5, REFUSED_18),
    (BYTES, 1024, 0xF000_0803, CR1, 5, REFUSED_18),
    (BYTES, 1024, 0xF000_0801, CR1, 5, REFUSED_16),
];

#[test]
fn segments(rt: HostRuntime) {
    for (length, segment_at, segment, cr1, address, answer) in SEGMENTS {
        let case = Case {
            length,
            segment_at,
            segment,
            cr1,
            address,
            ..PLAIN
        };
        assert_eq!(rt; walked(case), answer);
    }
}

// Steps 7 and 8: length of storage, the segment entry, place of the page entry, control word 0, address. The page is in
// frame 0, and its byte is 5.
const PAGES: [(usize, u32, usize, u32, u32, Answer); 14] = [
    // a sixteenth of a page table has 2, 1, 32 and 16 entries
    (BYTES, 0x0000_0800, 2050, CR0_2K_64K, 2_053, Ok(5)),
    (BYTES, 0x0000_0800, 2052, CR0_2K_64K, 4_101, REFUSED_17),
    (BYTES, 0x0000_0800, 2048, CR0_4K_64K, 5, Ok(5)),
    (BYTES, 0x0000_0800, 2050, CR0_4K_64K, 4_101, REFUSED_17),
    (BYTES, 0x0000_0800, 2110, CR0_2K_1M, 63_493, Ok(5)),
    (BYTES, 0x0000_0800, 2112, CR0_2K_1M, 65_541, REFUSED_17),
    (BYTES, 0x0000_0800, 2078, CR0_4K_1M, 61_445, Ok(5)),
    (BYTES, 0x0000_0800, 2080, CR0_4K_1M, 65_541, REFUSED_17),
    // the last page of a full one
    (BYTES, SEGMENT, 3070, CR0_2K_1M, 1_046_533, Ok(5)),
    // the entry is the last 2 bytes, straddles the end, and is past it
    (2050, SEGMENT, 2048, CR0_2K_64K, 5, Ok(5)),
    (2049, SEGMENT, 2048, CR0_2K_64K, 5, REFUSED_5),
    (2048, SEGMENT, 2048, CR0_2K_64K, 5, REFUSED_5),
    // the place is not cut to 24 bits: 16,777,208 + 8 is not 0
    (BYTES, 0xF0FF_FFF8, 0, CR0_2K_64K, 8_197, REFUSED_5),
    (BYTES, SEGMENT, 2056, CR0_2K_64K, 8_197, Ok(5)),
];

#[test]
fn pages(rt: HostRuntime) {
    for (length, segment, page_at, cr0, address, answer) in PAGES {
        let case = Case {
            length,
            segment,
            page_at,
            page: 0,
            cr0,
            address,
            ..PLAIN
        };
        assert_eq!(rt; walked(case), answer);
    }
}

// Steps 9 and 10: length of storage, the page entry, control word 0, address.
const FRAMES: [(usize, u16, u32, u32, Answer); 15] = [
    (BYTES, 0x0010, CR0_2K_64K, 5, Ok(4101)),
    (BYTES, 0x0008, CR0_2K_64K, 5, Ok(2053)),
    (BYTES, 0x0011, CR0_2K_64K, 5, Ok(4101)),
    (BYTES, 0x0012, CR0_2K_64K, 5, REFUSED_18),
    (BYTES, 0x0014, CR0_2K_64K, 5, REFUSED_17),
    (BYTES, 0x0016, CR0_2K_64K, 5, REFUSED_18),
    (BYTES, 0x0011, CR0_4K_64K, 5, Ok(4101)),
    (BYTES, 0x0012, CR0_4K_64K, 5, REFUSED_18),
    (BYTES, 0x0014, CR0_4K_64K, 5, REFUSED_18),
    (BYTES, 0x0018, CR0_4K_64K, 5, REFUSED_17),
    (BYTES, 0x001C, CR0_4K_64K, 5, REFUSED_18),
    // the last byte of storage, and one past it
    (BYTES, 0x0018, CR0_2K_64K, 2047, Ok(8191)),
    (8191, 0x0018, CR0_2K_64K, 2047, REFUSED_5),
    (BYTES, 0x0020, CR0_2K_64K, 0, REFUSED_5),
    (BYTES, 0xFFF8, CR0_2K_64K, 0, REFUSED_5),
];

#[test]
fn frames(rt: HostRuntime) {
    for (length, page, cr0, address, answer) in FRAMES {
        let case = Case {
            length,
            page,
            cr0,
            address,
            ..PLAIN
        };
        assert_eq!(rt; walked(case), answer);
    }
}
