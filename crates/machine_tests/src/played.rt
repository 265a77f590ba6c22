//! Lists of calls, with what each answers and what is seen between them.
use crate::boards::{Board, blank_listed, blank_queued};
use frames::Policy;
use machine::Machine;
use model::calls::{Answer, Call, IplRefusal, Refusal, Reply};
use model::shape::FrameRecord;
use pages::store::PageStore;
use std::alloc::Global;
use std::process::Abort;
use std::test::Fail;
use storage::Number;
use translation::Translator;

/// A step of a test. The six calls have what they answer last.
#[derive(Clone, Copy)]
pub enum Step {
    Load(u32, u8, Answer),
    Store(u32, u8, u8, Answer),
    Fix(u32, Answer),
    Free(u32, Answer),
    Purge(Answer),
    Settle(Answer),
    /// IPL with main storage as it is, and the number of its refusal, if it is refused.
    Ipl(Board, Result<(), u8>),
    /// Main storage is altered from outside: a half-word at a place.
    Put(usize, u16),
    /// The half-word that stands at a place.
    See(usize, u16),
    /// The storage key of a frame.
    Key(usize, u8),
    /// The record of a frame: its page, and how often that is fixed.
    Record(u8, u16, u8),
    /// Control word 1.
    Control(u32),
    /// The first two bytes of a slot.
    Slot(u32, [u8; 2]),
}

/// What IPL is given, and the steps after it.
#[derive(Clone, Copy)]
pub struct Case {
    pub name: &'static str,
    pub board: Board,
    pub steps: &'static [Step],
}

/// What a call answers that gives no byte.
pub const DONE: Answer = Ok(Reply::Done);

/// What a Load answers of a byte that was never written.
pub const ZERO: Answer = Ok(Reply::Byte(0));

pub const SIZES_32: Answer = Err(Refusal::Sizes);

pub const KEY_36: Answer = Err(Refusal::Key);

pub const ADDRESSING_5: Answer = Err(Refusal::Addressing);

pub const PROTECTION_4: Answer = Err(Refusal::Protection);

pub const FIX_LIMIT_37: Answer = Err(Refusal::FixLimit);

pub const NOT_FIXED_38: Answer = Err(Refusal::NotFixed);

pub const ALL_FIXED_35: Answer = Err(Refusal::AllFixed);

pub const TABLES_54: Answer = Err(Refusal::Tables);

// What a call answers that gives no byte where it is not refused.
fn done(answered: Result<(), Refusal>) -> Answer {
    answered.map(|()| Reply::Done)
}

/// Makes one call.
pub fn make<T: Translator, P: Policy, S: PageStore>(
    machine: &mut Machine<T, P, S>,
    storage: &mut [u8],
    call: Call,
) -> Answer {
    match call {
        Call::Load { address, key } => machine.load(storage, address, key).map(Reply::Byte),
        Call::Store { address, key, byte } => done(machine.store(storage, address, key, byte)),
        Call::Fix { page } => done(machine.fix(storage, page)),
        Call::Free { page } => done(machine.free(storage, page)),
        Call::Purge => done(machine.purge(storage)),
        Call::Settle => done(machine.settle(storage)),
    }
}

// The call of a step and what it answers, if it is one.
fn call_of(step: Step) -> Option<(Call, Answer)> {
    match step {
        Step::Load(address, key, answer) => Some((Call::Load { address, key }, answer)),
        Step::Store(address, key, byte, answer) => {
            Some((Call::Store { address, key, byte }, answer))
        }
        Step::Fix(page, answer) => Some((Call::Fix { page }, answer)),
        Step::Free(page, answer) => Some((Call::Free { page }, answer)),
        Step::Purge(answer) => Some((Call::Purge, answer)),
        Step::Settle(answer) => Some((Call::Settle, answer)),
        _ => None,
    }
}

// The first bytes of a slot, or none where it cannot be read.
fn first_of<S: PageStore>(store: &S, slot: u32) -> Option<[u8; 2]> {
    let mut page = [0xFFu8; 2048];
    store.read(slot, &mut page).ok()?;
    Some([page[0], page[1]])
}

// Whether what a step tells of the machine or of main storage is so.
fn holds<T: Translator, P: Policy, S: PageStore>(
    machine: &Machine<T, P, S>,
    storage: &[u8],
    step: Step,
) -> bool {
    match step {
        Step::See(place, half) => u16::read(storage, place) == half,
        Step::Key(frame, key) => machine.keys().get(frame).copied() == Some(key),
        Step::Record(frame, page, fixes) => machine.record(frame) == FrameRecord { page, fixes },
        Step::Control(word) => machine.controls().cr1 == word,
        Step::Slot(slot, bytes) => first_of(machine.page_store(), slot) == Some(bytes),
        _ => true,
    }
}

/// IPL, and the number of its refusal. A refused one leaves main storage as it was.
pub fn start<T: Translator, P: Policy, S: PageStore>(
    rt: &impl Abort,
    heap: Global,
    machine: &mut Machine<T, P, S>,
    storage: &mut [u8],
    board: Board,
    answer: Result<(), u8>,
) -> Result<(), Fail> {
    let before = storage.to_vec(heap)?;
    let started = board.start(heap, machine, storage)?;
    assert_eq!(rt; started.map_err(IplRefusal::number), answer);
    assert!(rt; started.is_ok() || before.as_slice() == &storage[..]);
    Ok(())
}

// Takes one step. False where what it tells of the machine or of main storage is not so.
fn take<T: Translator, P: Policy, S: PageStore>(
    rt: &impl Abort,
    heap: Global,
    machine: &mut Machine<T, P, S>,
    storage: &mut [u8],
    step: Step,
) -> Result<bool, Fail> {
    if let Some((call, answer)) = call_of(step) {
        assert_eq!(rt; make(machine, storage, call), answer, "{call:?}");
    }
    match step {
        Step::Ipl(board, answer) => start(rt, heap, machine, storage, board, answer)?,
        Step::Put(place, half) => half.write(storage, place),
        _ => {}
    }
    Ok(holds(machine, storage, step))
}

/// Takes the steps one after another.
pub fn play<T: Translator, P: Policy, S: PageStore>(
    rt: &impl Abort,
    heap: Global,
    name: &str,
    machine: &mut Machine<T, P, S>,
    storage: &mut [u8],
    steps: &[Step],
) -> Result<(), Fail> {
    for (index, step) in steps.iter().enumerate() {
        let held = take(rt, heap, machine, storage, *step)?;
        assert!(rt; held, "{name}: step {index}");
    }
    Ok(())
}

// IPL of a machine, and then the steps.
fn play_case<T: Translator, P: Policy, S: PageStore>(
    rt: &impl Abort,
    heap: Global,
    machine: &mut Machine<T, P, S>,
    case: Case,
) -> Result<(), Fail> {
    let mut storage = case.board.storage(heap)?;
    start(rt, heap, machine, &mut storage, case.board, Ok(()))?;
    play(rt, heap, case.name, machine, &mut storage, case.steps)
}

/// Plays each case on both machines.
pub fn play_all(rt: &impl Abort, heap: Global, cases: &[Case]) -> Result<(), Fail> {
    for case in cases {
        let slots = case.board.slots();
        play_case(rt, heap, &mut blank_queued(heap, slots)?, *case)?;
        play_case(rt, heap, &mut blank_listed(heap, slots)?, *case)?;
    }
    Ok(())
}
