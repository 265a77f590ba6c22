//! IPL: each of its conditions where it just holds and where it just does not.
use crate::boards::{Row, Started, blank_queued, ipl, listed, queued};
use area::PlainArea;
use dataset::data_set::DataSet;
use frames::Policy;
use layout::Sizes;
use machine::Machine;
use model::calls::IplRefusal;
use pages::fault::{Fault, StoreRefusal};
use pages::store::PageStore;
use std::alloc::Global;
use std::process::Abort;
use std::test::Fail;
use translation::Translator;

const SIZES_32: Started = Err(IplRefusal::Sizes);

const PARTITIONS_33: Started = Err(IplRefusal::Partitions);

// What IPL answers where a store of this kind has this fault at a slot, or none.
fn refused_by(kind: u8, fault: Option<(StoreRefusal, u32)>) -> Started {
    match fault {
        None => Ok(()),
        Some((refusal, slot)) => Err(IplRefusal::Slot(Fault::new(refusal, kind, slot))),
    }
}

// Frames, supervisor frames, pages, bytes of main storage, and what IPL answers. The one partition is page K.
const SIZES: [(u32, u32, u32, usize, Started); 34] = [
    // frames
    (2, 1, 2, 4_096, SIZES_32),
    (2, 2, 3, 4_096, SIZES_32),
    (3, 2, 3, 6_144, Ok(())),
    (256, 2, 3, 524_288, Ok(())),
    (257, 2, 3, 526_336, SIZES_32),
    (0, 0, 0, 0, SIZES_32),
    (65_539, 2, 3, 6_144, SIZES_32),
    (4_294_967_295, 2, 3, 6_144, SIZES_32),
    // supervisor frames
    (5, 1, 2, 10_240, SIZES_32),
    (5, 4, 5, 10_240, Ok(())),
    (5, 5, 6, 10_240, SIZES_32),
    (256, 255, 256, 524_288, Ok(())),
    (256, 256, 257, 524_288, SIZES_32),
    (5, 65_538, 65_539, 10_240, SIZES_32),
    // supervisor frames that have room for the page tables
    (5, 2, 1_024, 10_240, Ok(())),
    (5, 2, 1_025, 10_240, SIZES_32),
    (5, 3, 1_025, 10_240, Ok(())),
    (5, 3, 2_048, 10_240, Ok(())),
    (5, 3, 2_049, 10_240, SIZES_32),
    (10, 8, 7_168, 20_480, Ok(())),
    (10, 8, 7_169, 20_480, SIZES_32),
    (10, 8, 8_192, 20_480, SIZES_32),
    (10, 9, 8_192, 20_480, Ok(())),
    // pages
    (5, 2, 0, 10_240, SIZES_32),
    (5, 2, 2, 10_240, SIZES_32),
    (11, 10, 8_192, 22_528, Ok(())),
    (11, 10, 8_193, 22_528, SIZES_32),
    (5, 2, 65_569, 10_240, SIZES_32),
    (5, 2, 4_294_967_295, 10_240, SIZES_32),
    // main storage
    (3, 2, 3, 0, SIZES_32),
    (3, 2, 3, 6_143, SIZES_32),
    (3, 2, 3, 6_145, SIZES_32),
    (256, 2, 3, 524_287, SIZES_32),
    (256, 2, 3, 524_289, SIZES_32),
];

// Whether the machine has the sizes that it was given.
fn has_sizes<T: Translator, P: Policy, S: PageStore>(
    machine: &Machine<T, P, S>,
    sizes: Sizes,
) -> bool {
    u32::from(machine.frames()) == sizes.frames
        && u32::from(machine.supervisor()) == sizes.supervisor
        && u32::from(machine.pages()) == sizes.pages
}

// IPL with a partition of page K alone.
fn sizes_are<T: Translator, P: Policy, S: PageStore>(
    rt: &impl Abort,
    heap: Global,
    machine: &mut Machine<T, P, S>,
    storage: &mut [u8],
    sizes: Sizes,
    answer: Started,
) -> Result<(), Fail> {
    let row = (sizes.supervisor, 1, 1);
    let bytes = storage.len();
    assert_eq!(rt;
        ipl(heap, machine, storage, sizes, &[row])?,
        answer,
        "{sizes:?}, {bytes}"
    );
    if answer.is_ok() {
        assert!(rt; has_sizes(machine, sizes), "{sizes:?}");
    }
    Ok(())
}

#[test]
fn sizes(rt: HostRuntime) -> Result<(), Fail> {
    let heap = rt.alloc();
    let mut storage = vec![in heap; 0u8; 526_336]?;
    let mut machine = blank_queued(heap, 8_190)?;
    for (frames, supervisor, pages, bytes, answer) in SIZES {
        let sizes = Sizes {
            frames,
            supervisor,
            pages,
        };
        let length = bytes.min(storage.len());
        sizes_are(
            &rt,
            heap,
            &mut machine,
            &mut storage[..length],
            sizes,
            answer,
        )?;
    }
    Ok(())
}

const FIVE: Sizes = Sizes {
    frames: 5,
    supervisor: 2,
    pages: 33,
};

// Partitions, and what IPL answers, with supervisor pages 0 and 1 and pages up to 32.
const PARTITIONS: [(&[Row], Started); 33] = [
    // how many
    (&[], PARTITIONS_33),
    (&[(2, 1, 1)], Ok(())),
    (
        &[(2, 1, 1), (3, 1, 2), (4, 1, 3), (5, 1, 4), (6, 1, 5)],
        Ok(()),
    ),
    (
        &[
            (2, 1, 1),
            (3, 1, 2),
            (4, 1, 3),
            (5, 1, 4),
            (6, 1, 5),
            (7, 1, 6),
        ],
        PARTITIONS_33,
    ),
    // counts
    (&[(2, 0, 1)], PARTITIONS_33),
    (&[(2, 1, 1), (4, 0, 2)], PARTITIONS_33),
    // keys
    (&[(2, 1, 0)], PARTITIONS_33),
    (&[(2, 1, 15)], Ok(())),
    (&[(2, 1, 16)], PARTITIONS_33),
    (&[(2, 1, 255)], PARTITIONS_33),
    (&[(2, 1, 15), (3, 1, 0)], PARTITIONS_33),
    (&[(8, 1, 1), (10, 1, 1)], Ok(())),
    // first pages
    (&[(1, 2, 1)], PARTITIONS_33),
    (&[(0, 33, 1)], PARTITIONS_33),
    (&[(8, 24, 1), (31, 1, 2)], PARTITIONS_33),
    (&[(8, 24, 1), (32, 1, 2)], Ok(())),
    (&[(8, 24, 1), (2, 1, 2)], PARTITIONS_33),
    (&[(8, 1, 1), (8, 1, 2)], PARTITIONS_33),
    (&[(8, 1, 1), (10, 1, 2)], Ok(())),
    // ends
    (&[(2, 31, 1)], Ok(())),
    (&[(2, 32, 1)], PARTITIONS_33),
    (&[(32, 1, 1)], Ok(())),
    (&[(32, 2, 1)], PARTITIONS_33),
    (&[(33, 1, 1)], PARTITIONS_33),
    (
        &[(2, 1, 1), (3, 1, 2), (4, 1, 3), (5, 1, 4), (32, 1, 5)],
        Ok(()),
    ),
    (
        &[(2, 1, 1), (3, 1, 2), (4, 1, 3), (5, 1, 4), (32, 2, 5)],
        PARTITIONS_33,
    ),
    // numbers that would fit if they were cut to 16 or to 32 bits
    (&[(65_538, 1, 1)], PARTITIONS_33),
    (&[(2, 65_537, 1)], PARTITIONS_33),
    (&[(2, 4_294_967_294, 1)], PARTITIONS_33),
    (&[(2, 4_294_967_295, 1)], PARTITIONS_33),
    (&[(4_294_967_295, 1, 1)], PARTITIONS_33),
    (&[(4_294_967_295, 4_294_967_295, 1)], PARTITIONS_33),
    (&[(2, 4_294_967_294, 1), (3, 1, 1)], PARTITIONS_33),
];

#[test]
fn partition_lists(rt: HostRuntime) -> Result<(), Fail> {
    let heap = rt.alloc();
    let mut storage = vec![in heap; 0u8; 10_240]?;
    let mut machine = blank_queued(heap, 31)?;
    for (rows, answer) in PARTITIONS {
        let started = ipl(heap, &mut machine, &mut storage, FIVE, rows)?;
        assert_eq!(rt; started, answer, "{rows:?}");
    }
    Ok(())
}

// A data set of so many slots, with marks put at some of them.
fn with_marks(heap: Global, slots: u32, marks: &[(u32, u8)]) -> Result<DataSet, Fail> {
    let mut store = DataSet::blank(heap, slots)?;
    for &(slot, mark) in marks {
        // a mark over 2 is put and refused
        let _ = store.set_mark(slot, mark);
    }
    Ok(store)
}

// Frames, supervisor frames, pages, slots of the data set, marks put at some of them (2 is bad), and the fault by which IPL
// is refused, if it is. The one partition is the last page.
const SLOTS: [(
    u32,
    u32,
    u32,
    u32,
    &[(u32, u8)],
    Option<(StoreRefusal, u32)>,
); 19] = [
    (5, 2, 33, 31, &[], None),
    (5, 2, 33, 30, &[], Some((StoreRefusal::NoSuchSlot, 30))),
    (5, 2, 33, 31, &[(4, 2)], Some((StoreRefusal::BadSlot, 4))),
    (
        5,
        2,
        33,
        31,
        &[(7, 2), (4, 2)],
        Some((StoreRefusal::BadSlot, 4)),
    ),
    // of a page in no partition
    (5, 2, 33, 31, &[(0, 2)], Some((StoreRefusal::BadSlot, 0))),
    (5, 2, 33, 31, &[(30, 2)], Some((StoreRefusal::BadSlot, 30))),
    // from V - K on
    (5, 2, 33, 32, &[(31, 2)], None),
    // the lowest
    (5, 2, 33, 10, &[(4, 2)], Some((StoreRefusal::BadSlot, 4))),
    (5, 2, 33, 3, &[], Some((StoreRefusal::NoSuchSlot, 3))),
    (5, 2, 33, 0, &[], Some((StoreRefusal::NoSuchSlot, 0))),
    (3, 2, 3, 1, &[], None),
    (3, 2, 3, 1, &[(0, 2)], Some((StoreRefusal::BadSlot, 0))),
    (256, 255, 256, 0, &[], Some((StoreRefusal::NoSuchSlot, 0))),
    (256, 255, 256, 2, &[(1, 2)], None),
    (256, 9, 8_192, 8_183, &[], None),
    (
        256,
        9,
        8_192,
        8_182,
        &[],
        Some((StoreRefusal::NoSuchSlot, 8_182)),
    ),
    (
        256,
        9,
        8_192,
        8_192,
        &[(8_183, 2), (8_182, 2)],
        Some((StoreRefusal::BadSlot, 8_182)),
    ),
    // a data set that is refused for one of its marks has no slots, whatever the mark is of
    (
        5,
        2,
        33,
        31,
        &[(30, 3)],
        Some((StoreRefusal::NoSuchSlot, 0)),
    ),
    (
        5,
        2,
        33,
        40,
        &[(39, 255)],
        Some((StoreRefusal::NoSuchSlot, 0)),
    ),
];

// IPL with a partition of the last page alone, on a data set with these slots.
fn slots_are(
    rt: &impl Abort,
    heap: Global,
    sizes: Sizes,
    store: DataSet,
    answer: Started,
) -> Result<(), Fail> {
    let mut storage = vec![in heap; 0u8; 2048 * sizes.frames as usize]?;
    let row = (sizes.pages.saturating_sub(1), 1, 1);
    let started = ipl(heap, &mut queued(store), &mut storage, sizes, &[row])?;
    assert_eq!(rt; started, answer, "{sizes:?}");
    Ok(())
}

#[test]
fn slots(rt: HostRuntime) -> Result<(), Fail> {
    let heap = rt.alloc();
    for (frames, supervisor, pages, slots, marks, fault) in SLOTS {
        let sizes = Sizes {
            frames,
            supervisor,
            pages,
        };
        let store = with_marks(heap, slots, marks)?;
        slots_are(&rt, heap, sizes, store, refused_by(2, fault))?;
    }
    Ok(())
}

// Bytes of a plain area, and the fault by which IPL is refused, if it is. 31 slots are asked for.
const AREAS: [(usize, Option<(StoreRefusal, u32)>); 3] = [
    (63_488, None),
    (63_487, Some((StoreRefusal::NoSuchSlot, 30))),
    (0, Some((StoreRefusal::NoSuchSlot, 0))),
];

#[test]
fn slots_of_an_area(rt: HostRuntime) -> Result<(), Fail> {
    let heap = rt.alloc();
    let mut storage = vec![in heap; 0u8; 10_240]?;
    for (bytes, fault) in AREAS {
        let mut machine = listed(PlainArea::new(vec![in heap; 0u8; bytes]?));
        let started = ipl(heap, &mut machine, &mut storage, FIVE, &[(8, 1, 1)])?;
        assert_eq!(rt; started, refused_by(1, fault), "{bytes} bytes");
    }
    Ok(())
}

// What IPL answers to wrong sizes, wrong partitions and a bad slot 4; to the last two; to the last.
const ORDER: [(usize, &[Row], Started); 3] = [
    (10_239, &[], SIZES_32),
    (10_240, &[], PARTITIONS_33),
    (10_240, &[(8, 1, 1)], Err(IplRefusal::Slot(BAD_4))),
];

const BAD_4: Fault = Fault {
    refusal: StoreRefusal::BadSlot,
    kind: 2,
    slot: 4,
    cause: None,
};

#[test]
fn order(rt: HostRuntime) -> Result<(), Fail> {
    let heap = rt.alloc();
    let mut storage = vec![in heap; 0u8; 10_240]?;
    let mut machine = queued(with_marks(heap, 31, &[(4, 2)])?);
    for (bytes, rows, answer) in ORDER {
        let length = bytes.min(storage.len());
        let started = ipl(heap, &mut machine, &mut storage[..length], FIVE, rows)?;
        assert_eq!(rt; started, answer, "{bytes} bytes, {rows:?}");
    }
    Ok(())
}
