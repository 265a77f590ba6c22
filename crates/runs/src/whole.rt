//! A run in which main storage passes from IPL and between the calls unaltered.
ghost use Rattle.std.specs.Prelude.{◌≡◌, ◌+◌, ◌≤◌, ◌++◌, length, OnErr, vec_len, vec_capacity};
ghost use Rattle.layout.specs.Config.{config_with};
ghost use Rattle.machine.specs.Machine.{Does, rules, world};
ghost use Rattle.model.specs.Law.{LawOf};
ghost use Rattle.model.specs.Steps.{byte_answer, done_answer, worked};
ghost use Rattle.runs.specs.Whole.{Ran, RanInto, Run};

use crate::start::Start;
use crate::stopped::Stopped;
use frames::Policy;
use machine::Machine;
use model::calls::{Answer, Call, Refusal, Reply};
use pages::store::PageStore;
use std::alloc::Global;
use translation::Translator;

// What a call that answers nothing but done has answered.
fn done(res: Result<(), Refusal>) -> Answer
    ensures { result ≡ done_answer res }
{
    res.map(|()| Reply::Done)
}

// What a call that answers a byte has answered.
fn read(res: Result<u8, Refusal>) -> Answer
    ensures { result ≡ byte_answer res }
{
    res.map(Reply::Byte)
}

/// Makes one call.
pub fn make<T: Translator, P: Policy, S: PageStore>(
    machine: &mut Machine<T, P, S>,
    storage: &mut [u8],
    call: Call,
) -> Answer
    ensures rule { Does T.Translator P.Policy S.PageStore (λ q w. worked q call w) result (world T.Translator P.Policy S.PageStore machine.old storage.old) (world T.Translator P.Policy S.PageStore machine.new storage.new) }
    ensures refused { OnErr result (world T.Translator P.Policy S.PageStore machine.new storage.new ≡ world T.Translator P.Policy S.PageStore machine.old storage.old) }
{
    match call {
        Call::Load { address, key } => read(machine.load(storage, address, key)),
        Call::Store { address, key, byte } => done(machine.store(storage, address, key, byte)),
        Call::Fix { page } => done(machine.fix(storage, page)),
        Call::Free { page } => done(machine.free(storage, page)),
        Call::Purge => done(machine.purge(storage)),
        Call::Settle => done(machine.settle(storage)),
    }
}

// Makes the calls one after another. There is room for their answers.
fn make_all<T: Translator, P: Policy, S: PageStore>(
    machine: &mut Machine<T, P, S>,
    storage: &mut [u8],
    calls: &[Call],
    answers: &mut Vec<Answer>,
)
    requires { vec_len answers.old + length calls.now ≤ vec_capacity answers.old }
    ensures { Run (rules T.Translator P.Policy S.PageStore) calls.now (world T.Translator P.Policy S.PageStore machine.old storage.old) (world T.Translator P.Policy S.PageStore machine.new storage.new) answers.old.items answers.new.items }
{
    for call in calls {
        let answer = make(machine, storage, *call);
        answers.push_reserved(answer);
    }
}

/// IPL and then the calls, one after another. `answers` then holds their answers alone, for which it has to have room. They
/// are the flat machine's, for every list of calls and whatever the three parts are.
pub fn work_into<T: Translator, P: Policy, S: PageStore>(
    machine: &mut Machine<T, P, S>,
    storage: &mut [u8],
    start: Start,
    calls: &[Call],
    answers: &mut Vec<Answer>,
) -> Result<(), Stopped>
    ensures run { RanInto (rules T.Translator P.Policy S.PageStore) (config_with start.entry.sizes start.entry.partitions.now) calls.now (world T.Translator P.Policy S.PageStore machine.old storage.old) (world T.Translator P.Policy S.PageStore machine.new storage.new) answers.old answers.new result }
    ensures law { LawOf (rules T.Translator P.Policy S.PageStore) }
{
    if answers.capacity() < calls.len() {
        return Err(Stopped::Memory);
    }
    if let Err(why) = machine.ipl(storage, start.sizes, start.partitions) {
        return Err(Stopped::Refused(why));
    }
    answers.clear();
    make_all(machine, storage, calls, answers);
    Ok(())
}

/// IPL and then the calls, one after another: their answers, in a list of their own.
pub fn work<T: Translator, P: Policy, S: PageStore>(
    machine: &mut Machine<T, P, S>,
    storage: &mut [u8],
    start: Start,
    calls: &[Call],
    heap: Global,
) -> Result<Vec<Answer>, Stopped>
    ensures run { Ran (rules T.Translator P.Policy S.PageStore) (config_with start.entry.sizes start.entry.partitions.now) calls.now (world T.Translator P.Policy S.PageStore machine.old storage.old) (world T.Translator P.Policy S.PageStore machine.new storage.new) result }
    ensures law { LawOf (rules T.Translator P.Policy S.PageStore) }
{
    let Ok(mut answers) = Vec::with_capacity(heap, calls.len()) else {
        return Err(Stopped::Memory);
    };
    work_into(machine, storage, start, calls, &mut answers)?;
    Ok(answers)
}
