//! What IPL is given in the tests, and the machines that it is given to.
use area::PlainArea;
use dataset::data_set::DataSet;
use frames::Policy;
use layout::Sizes;
use lru_list::LruList;
use machine::Machine;
use model::calls::IplRefusal;
use model::shape::Partition;
use pages::store::PageStore;
use queues::FiveQueues;
use std::alloc::{AllocError, Global};
use std::test::Fail;
use translation::{Tlb, Translator, Walker};

/// A partition as the tables of tests have it: first page, count, key.
pub type Row = (u32, u32, u8);

/// What IPL is given.
#[derive(Clone, Copy)]
pub struct Board {
    pub sizes: Sizes,
    pub partitions: &'static [Row],
}

// The fewest frames and pages.
const FEWEST: Sizes = Sizes {
    frames: 3,
    supervisor: 2,
    pages: 3,
};

/// One pageable frame and one page: page 2 with key 1.
pub const SMALLEST: Board = Board {
    sizes: FEWEST,
    partitions: &[(2, 1, 1)],
};

/// The same with a key that no partition may have.
pub const WRONG_KEY: Board = Board {
    sizes: FEWEST,
    partitions: &[(2, 1, 16)],
};

/// One pageable frame and two pages behind the supervisor's, pages 2 and 3 with key 1.
pub const TWO_PAGES: Board = Board {
    sizes: Sizes {
        frames: 3,
        supervisor: 2,
        pages: 4,
    },
    partitions: &[(2, 2, 1)],
};

/// One pageable frame and five partitions, the second where the first ends, the last at the end of 1,024 pages.
pub const NARROW: Board = Board {
    sizes: Sizes {
        frames: 3,
        supervisor: 2,
        pages: 1024,
    },
    partitions: &[
        (2, 2, 1),
        (4, 28, 2),
        (40, 8, 3),
        (100, 1, 15),
        (1023, 1, 4),
    ],
};

/// Three pageable frames, a segment table with fillers, and a page past the first segment.
pub const MIDDLE: Board = Board {
    sizes: Sizes {
        frames: 5,
        supervisor: 2,
        pages: 33,
    },
    partitions: &[(8, 24, 1), (32, 1, 2)],
};

// All frames that there can be, and the fewest supervisor frames for 8,192 pages.
const MOST: Sizes = Sizes {
    frames: 256,
    supervisor: 9,
    pages: 8192,
};

/// All frames and all pages that there can be, and five partitions.
pub const WIDE: Board = Board {
    sizes: MOST,
    partitions: &[
        (9, 91, 1),
        (100, 100, 2),
        (1000, 500, 3),
        (4096, 1, 15),
        (8191, 1, 4),
    ],
};

/// The same with one partition of all pages.
pub const WHOLE: Board = Board {
    sizes: MOST,
    partitions: &[(9, 8183, 7)],
};

/// All frames that there can be, and the last of them alone pageable.
pub const LAST_FRAME: Board = Board {
    sizes: Sizes {
        frames: 256,
        supervisor: 255,
        pages: 256,
    },
    partitions: &[(255, 1, 1)],
};

/// All frames that there can be, and one page.
pub const MANY_FRAMES: Board = Board {
    sizes: Sizes {
        frames: 256,
        supervisor: 2,
        pages: 3,
    },
    partitions: &[(2, 1, 1)],
};

/// What IPL answers.
pub type Started = Result<(), IplRefusal>;

// The partitions of rows.
fn partitions(heap: Global, rows: &[Row]) -> Result<Vec<Partition>, AllocError> {
    let mut list = Vec::new(heap);
    for &(first, count, key) in rows {
        list.push(Partition { first, count, key })?;
    }
    Ok(list)
}

/// IPL of a machine.
pub fn ipl<T: Translator, P: Policy, S: PageStore>(
    heap: Global,
    machine: &mut Machine<T, P, S>,
    storage: &mut [u8],
    sizes: Sizes,
    rows: &[Row],
) -> Result<Started, AllocError> {
    let list = partitions(heap, rows)?;
    Ok(machine.ipl(storage, sizes, &list))
}

impl Board {
    /// Bytes of main storage, which every test begins with some byte in each of.
    pub fn storage(self, heap: Global) -> Result<Vec<u8>, AllocError> {
        vec![in heap; 0xAAu8; 2048 * self.sizes.frames as usize]
    }

    /// The slots that IPL asks for.
    pub fn slots(self) -> u32 {
        self.sizes.pages.saturating_sub(self.sizes.supervisor)
    }

    /// IPL of a machine.
    pub fn start<T: Translator, P: Policy, S: PageStore>(
        self,
        heap: Global,
        machine: &mut Machine<T, P, S>,
        storage: &mut [u8],
    ) -> Result<Started, AllocError> {
        ipl(heap, machine, storage, self.sizes, self.partitions)
    }
}

/// Five queues, a TLB over the walker, and a page data set.
pub type Queued = Machine<Tlb<Walker>, FiveQueues, DataSet>;

/// A list by recency, the walker, and a plain area.
pub type Listed = Machine<Walker, LruList, PlainArea>;

/// Five queues, a TLB over the walker, and this page data set.
pub fn queued(store: DataSet) -> Queued {
    Machine::new(Tlb::over(Walker::new()), FiveQueues::new(), store)
}

/// A list by recency, the walker, and this plain area.
pub fn listed(store: PlainArea) -> Listed {
    Machine::new(Walker::new(), LruList::new(), store)
}

/// The first of the two with so many blank slots.
pub fn blank_queued(heap: Global, slots: u32) -> Result<Queued, Fail> {
    Ok(queued(DataSet::blank(heap, slots)?))
}

/// The second with so many slots, which hold some bytes.
pub fn blank_listed(heap: Global, slots: u32) -> Result<Listed, Fail> {
    Ok(listed(PlainArea::new(vec![in heap; 0x55u8; 2048 * slots as usize]?)))
}
