//! A machine on main storage that is altered from outside between its calls.
use crate::draw::draw;
use crate::flat::Flat;
use crate::law::consistent;
use crate::make::make;
use crate::random::Random;
use crate::run::Run;
use frames::Policy;
use machine::Machine;
use model::calls::{Answer, Call, Refusal};
use model::shape::FrameRecord;
use pages::store::PageStore;
use std::alloc::{AllocError, Global};
use std::process::Abort;
use std::test::Fail;
use tables::Controls;
use translation::Translator;

// What a refused call has to leave.
#[derive(Drop)]
struct Snapshot {
    storage: Vec<u8>,
    keys: Vec<u8>,
    records: Vec<FrameRecord>,
    controls: Controls,
}

// The 256 records.
fn records<T: Translator, P: Policy, S: PageStore>(
    heap: Global,
    machine: &Machine<T, P, S>,
) -> Result<Vec<FrameRecord>, AllocError> {
    let mut list = Vec::new(heap);
    for frame in 0u8..=255 {
        list.push(machine.record(frame))?;
    }
    Ok(list)
}

// What there is before or after a call.
fn seen<T: Translator, P: Policy, S: PageStore>(
    heap: Global,
    machine: &Machine<T, P, S>,
    storage: &[u8],
) -> Result<Snapshot, AllocError> {
    Ok(Snapshot {
        storage: storage.to_vec(heap)?,
        keys: machine.keys().to_vec(heap)?,
        records: records(heap, machine)?,
        controls: machine.controls(),
    })
}

// All is as it was.
fn unchanged(rt: &impl Abort, before: &Snapshot, after: &Snapshot, call: Call) {
    assert!(rt;
        before.storage.as_slice() == after.storage.as_slice(),
        "storage, {call:?}"
    );
    assert!(rt;
        before.keys.as_slice() == after.keys.as_slice(),
        "keys, {call:?}"
    );
    assert!(rt;
        before.records.as_slice() == after.records.as_slice(),
        "records, {call:?}"
    );
    assert_eq!(rt; before.controls, after.controls, "control words, {call:?}");
}

// Whether main storage had the wrong length, or its tables were wrong.
fn by_storage(answer: Answer) -> bool {
    matches!(answer, Err(Refusal::Sizes | Refusal::Tables))
}

// A call that was refused for another reason than main storage is refused alike by the flat machine, and one that was
// answered is answered by it, if with another byte. The flat machine then stands where the machine does.
fn follows(rt: &impl Abort, flat: &mut Flat, call: Call, answer: Answer) {
    if !by_storage(answer) {
        assert_eq!(rt; flat.answer(call).err(), answer.err(), "{call:?}");
    }
}

// Makes a call on main storage of the right length or of another. Where it is refused, all is as it was.
fn refused_or_answered<T: Translator, P: Policy, S: PageStore>(
    rt: &impl Abort,
    heap: Global,
    machine: &mut Machine<T, P, S>,
    storage: &mut [u8],
    call: Call,
) -> Result<Answer, AllocError> {
    let before = seen(heap, machine, storage)?;
    let answer = make(machine, storage, call);
    let fits = storage.len() == 2048 * usize::from(machine.frames());
    assert_eq!(rt; answer == Err(Refusal::Sizes), !fits, "{call:?}");
    if answer.is_err() {
        let after = seen(heap, machine, storage)?;
        unchanged(rt, &before, &after, call);
    }
    Ok(answer)
}

// How many bytes of main storage are handed in: seldom none, or one too few.
fn length(random: &mut Random, all: usize) -> usize {
    match random.below(40) {
        0 => 0,
        1 => all.saturating_sub(1),
        _ => all,
    }
}

// Where a byte is altered: mostly in a page table, often in the segment table, seldom anywhere.
fn place(random: &mut Random, pages: u32) -> u32 {
    match random.below(8) {
        0 => random.below(20_000),
        1 | 2 => 1024 + random.below(64) % 64,
        _ => 2048 + random.below(pages.saturating_mul(2)) % 16_384,
    }
}

// Alters one byte: its last bit, all of it, or to any byte.
fn damage(random: &mut Random, storage: &mut [u8], pages: u32) {
    let place = place(random, pages);
    let other = random.byte();
    if let Some(byte) = storage.get_mut(place as usize) {
        *byte = match random.below(3) {
            0 => *byte ^ 1,
            1 => 0,
            _ => other,
        };
    }
}

// One call on main storage that was altered or not, or is handed in with another length.
fn disturb<T: Translator, P: Policy, S: PageStore>(
    rt: &impl Abort,
    heap: Global,
    machine: &mut Machine<T, P, S>,
    storage: &mut [u8],
    flat: &mut Flat,
    random: &mut Random,
    call: Call,
) -> Result<(), AllocError> {
    if random.once_in(8) {
        damage(random, storage, flat.sizes().pages);
    }
    let length = length(random, storage.len()).min(storage.len());
    let answer = refused_or_answered(rt, heap, machine, &mut storage[..length], call)?;
    follows(rt, flat, call, answer);
    consistent(rt, machine, flat);
    Ok(())
}

// IPL of a machine, and then a few calls on main storage that is altered from outside: each returns, and a refused one
// leaves everything as it was.
fn disturbed_once<T: Translator, P: Policy, S: PageStore>(
    rt: &impl Abort,
    heap: Global,
    machine: &mut Machine<T, P, S>,
    run: &Run,
    random: &mut Random,
) -> Result<(), Fail> {
    let partitions = run.partitions(heap)?;
    let mut storage = run.storage(heap)?;
    assert_eq!(rt; machine.ipl(&mut storage, run.sizes, &partitions), Ok(()));
    let mut flat = Flat::new(heap, run)?;
    for _ in 0..64 {
        let call = draw(random, &flat, run);
        disturb(rt, heap, machine, &mut storage, &mut flat, random, call)?;
    }
    Ok(())
}

/// The same so many times, each time with other calls.
pub fn disturbed<T: Translator, P: Policy, S: PageStore>(
    rt: &impl Abort,
    heap: Global,
    machine: &mut Machine<T, P, S>,
    run: &Run,
    times: u32,
) -> Result<(), Fail> {
    let mut random = Random::new(run.seed);
    for _ in 0..times {
        disturbed_once(rt, heap, machine, run, &mut random)?;
    }
    Ok(())
}
