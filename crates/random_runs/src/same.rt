//! A machine beside the flat machine.
use crate::draw::draw;
use crate::flat::Flat;
use crate::law::stands;
use crate::make::make;
use crate::random::Random;
use crate::run::Run;
use frames::Policy;
use machine::Machine;
use model::calls::{Call, Refusal};
use pages::store::PageStore;
use std::alloc::Global;
use std::process::Abort;
use std::test::Fail;
use translation::Translator;

// Makes one drawn call on both, and gives what it was refused with, if it was.
fn same_answer<T: Translator, P: Policy, S: PageStore>(
    rt: &impl Abort,
    machine: &mut Machine<T, P, S>,
    storage: &mut [u8],
    flat: &mut Flat,
    call: Call,
) -> Option<Refusal> {
    let answer = make(machine, storage, call);
    assert_eq!(rt; answer, flat.answer(call), "{call:?}");
    stands(rt, machine, storage, flat, call, answer);
    answer.err()
}

/// IPL of a machine, and then so many calls, each of which the flat machine answers alike.
pub fn same_answers<T: Translator, P: Policy, S: PageStore>(
    rt: &impl Abort,
    heap: Global,
    machine: &mut Machine<T, P, S>,
    run: &Run,
    calls: u32,
) -> Result<(), Fail> {
    let partitions = run.partitions(heap)?;
    let mut storage = run.storage(heap)?;
    assert_eq!(rt; machine.ipl(&mut storage, run.sizes, &partitions), Ok(()));
    let mut flat = Flat::new(heap, run)?;
    let mut random = Random::new(run.seed);
    let mut met = Vec::new(heap);
    for _ in 0..calls {
        let call = draw(&mut random, &flat, run);
        let refused = same_answer(rt, machine, &mut storage, &mut flat, call);
        met.extend(refused.filter(|refusal| !met.contains(refusal)))?;
    }
    for refusal in run.refusals {
        assert!(rt; met.contains(refusal), "{refusal:?} was never met");
    }
    Ok(())
}
