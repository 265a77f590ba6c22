//! The twelve wirings: two policies, three translators and two page stores.
use crate::disturbed::disturbed;
use crate::run::Run;
use crate::same::same_answers;
use area::PlainArea;
use dataset::data_set::DataSet;
use frames::Policy;
use layout::Sizes;
use lru_list::LruList;
use machine::Machine;
use model::calls::Refusal;
use pages::store::PageStore;
use queues::FiveQueues;
use std::alloc::Global;
use std::process::Abort;
use std::test::Fail;
use translation::{Tlb, Translator, Walker};

// Refusals that the flat machine knows, apart from that of a page fixed 255 times.
const USUAL: [Refusal; 5] = [
    Refusal::Key,
    Refusal::Addressing,
    Refusal::Protection,
    Refusal::NotFixed,
    Refusal::AllFixed,
];

// Few frames, so that faults are many: 1, 2, 3 and 14 of them are pageable. In the last run pages are fixed far more often
// than freed.
const RUNS: [Run; 5] = [
    Run {
        sizes: Sizes {
            frames: 3,
            supervisor: 2,
            pages: 6,
        },
        partitions: &[(2, 3, 1)],
        seed: 1,
        fix: 4,
        free: 9,
        refusals: &USUAL,
    },
    Run {
        sizes: Sizes {
            frames: 4,
            supervisor: 2,
            pages: 40,
        },
        partitions: &[(2, 2, 1), (4, 1, 2), (30, 5, 3), (39, 1, 4)],
        seed: 77,
        fix: 5,
        free: 9,
        refusals: &USUAL,
    },
    Run {
        sizes: Sizes {
            frames: 5,
            supervisor: 2,
            pages: 33,
        },
        partitions: &[(8, 24, 1), (32, 1, 2)],
        seed: 5_000,
        fix: 5,
        free: 9,
        refusals: &USUAL,
    },
    Run {
        sizes: Sizes {
            frames: 20,
            supervisor: 6,
            pages: 60,
        },
        partitions: &[(6, 30, 15), (40, 20, 7)],
        seed: 123_456_789,
        fix: 12,
        free: 9,
        refusals: &USUAL,
    },
    Run {
        sizes: Sizes {
            frames: 5,
            supervisor: 3,
            pages: 9,
        },
        partitions: &[(3, 6, 9)],
        seed: 99,
        fix: 30,
        free: 2,
        refusals: &[Refusal::FixLimit, Refusal::AllFixed],
    },
];

// Calls of each run on a machine beside the flat machine.
const CALLS: u32 = 20_000;

// How often a machine is started for each run and then disturbed.
const TIMES: u32 = 100;

// Slots for each of the runs.
const SLOTS: u32 = 54;

// All runs on one machine, each after an IPL.
fn play<T: Translator, P: Policy, S: PageStore>(
    rt: &impl Abort,
    heap: Global,
    machine: &mut Machine<T, P, S>,
) -> Result<(), Fail> {
    for run in &RUNS {
        same_answers(rt, heap, machine, run, CALLS)?;
        disturbed(rt, heap, machine, run, TIMES)?;
    }
    Ok(())
}

// The same with one translator and one policy on both kinds of page stores.
fn play_on_stores<T: Translator + Drop, P: Policy + Drop>(
    rt: &impl Abort,
    heap: Global,
    translator: T,
    policy: P,
) -> Result<(), Fail> {
    let area = PlainArea::new(vec![in heap; 0x55u8; 2048 * SLOTS as usize]?);
    let mut machine = Machine::new(translator, policy, area);
    play(rt, heap, &mut machine)?;
    let (translator, policy, _area) = machine.into_parts();
    let mut machine = Machine::new(translator, policy, DataSet::blank(heap, SLOTS)?);
    play(rt, heap, &mut machine)
}

#[test]
fn queues_and_walker(rt: HostRuntime) -> Result<(), Fail> {
    play_on_stores(&rt, rt.alloc(), Walker::new(), FiveQueues::new())
}

#[test]
fn queues_and_tlb(rt: HostRuntime) -> Result<(), Fail> {
    play_on_stores(&rt, rt.alloc(), Tlb::over(Walker::new()), FiveQueues::new())
}

#[test]
fn queues_and_two_tlbs(rt: HostRuntime) -> Result<(), Fail> {
    let translator = Tlb::over(Tlb::over(Walker::new()));
    play_on_stores(&rt, rt.alloc(), translator, FiveQueues::new())
}

#[test]
fn list_and_walker(rt: HostRuntime) -> Result<(), Fail> {
    play_on_stores(&rt, rt.alloc(), Walker::new(), LruList::new())
}

#[test]
fn list_and_tlb(rt: HostRuntime) -> Result<(), Fail> {
    play_on_stores(&rt, rt.alloc(), Tlb::over(Walker::new()), LruList::new())
}

#[test]
fn list_and_two_tlbs(rt: HostRuntime) -> Result<(), Fail> {
    let translator = Tlb::over(Tlb::over(Walker::new()));
    play_on_stores(&rt, rt.alloc(), translator, LruList::new())
}
