//! A run in which each call is handed a main storage of its own.
ghost use Rattle.std.specs.Prelude.{◌≡◌, ◌+◌, ◌≤◌, [], length, vec_len, vec_capacity};
ghost use Rattle.layout.specs.Config.{config_with};
ghost use Rattle.machine.specs.Machine.{rules, world};
ghost use Rattle.model.specs.Law.{SteadyOf};
ghost use Rattle.runs.specs.Disturbed.{Moved, RanDisturbed, RanDisturbedInto, handing, storages_of};

use crate::handed::Handed;
use crate::start::Start;
use crate::stopped::Stopped;
use crate::whole::make;
use frames::Policy;
use machine::Machine;
use model::calls::Answer;
use pages::store::PageStore;
use std::alloc::Global;
use translation::Translator;

// Makes the calls one after another, each on its own main storage. There is room for their answers.
fn hand_all<T: Translator, P: Policy, S: PageStore>(
    machine: &mut Machine<T, P, S>,
    calls: &mut [Handed],
    answers: &mut Vec<Answer>,
)
    requires { vec_len answers.old + length calls.old ≤ vec_capacity answers.old }
    ensures { Moved (rules T.Translator P.Policy S.PageStore) (handing calls.old) (world T.Translator P.Policy S.PageStore machine.old []) (world T.Translator P.Policy S.PageStore machine.new) answers.old.items answers.new.items (storages_of calls.new) }
{
    for handed in calls.iter_mut() {
        let answer = make(machine, &mut handed.storage, handed.call);
        answers.push_reserved(answer);
    }
}

/// IPL and then the calls, one after another, each on the main storage that it is handed, whatever it holds. `answers` then
/// holds their answers alone, for which it has to have room. Each call is answered or gives the first refusal that holds, a
/// refused one leaves everything as found, and the machine stays consistent.
pub fn work_disturbed_into<T: Translator, P: Policy, S: PageStore>(
    machine: &mut Machine<T, P, S>,
    storage: &mut [u8],
    start: Start,
    calls: &mut [Handed],
    answers: &mut Vec<Answer>,
) -> Result<(), Stopped>
    ensures run { RanDisturbedInto (rules T.Translator P.Policy S.PageStore) (config_with start.entry.sizes start.entry.partitions.now) calls.old (world T.Translator P.Policy S.PageStore machine.old storage.old) (world T.Translator P.Policy S.PageStore machine.new) storage.new calls.new answers.old answers.new result }
    ensures law { SteadyOf (rules T.Translator P.Policy S.PageStore) }
{
    if answers.capacity() < calls.len() {
        return Err(Stopped::Memory);
    }
    if let Err(why) = machine.ipl(storage, start.sizes, start.partitions) {
        return Err(Stopped::Refused(why));
    }
    answers.clear();
    hand_all(machine, calls, answers);
    Ok(())
}

/// IPL and then the calls, each on the main storage that it is handed: their answers, in a list of their own.
pub fn work_disturbed<T: Translator, P: Policy, S: PageStore>(
    machine: &mut Machine<T, P, S>,
    storage: &mut [u8],
    start: Start,
    calls: &mut [Handed],
    heap: Global,
) -> Result<Vec<Answer>, Stopped>
    ensures run { RanDisturbed (rules T.Translator P.Policy S.PageStore) (config_with start.entry.sizes start.entry.partitions.now) calls.old (world T.Translator P.Policy S.PageStore machine.old storage.old) (world T.Translator P.Policy S.PageStore machine.new) storage.new calls.new result }
    ensures law { SteadyOf (rules T.Translator P.Policy S.PageStore) }
{
    let Ok(mut answers) = Vec::with_capacity(heap, calls.len()) else {
        return Err(Stopped::Memory);
    };
    work_disturbed_into(machine, storage, start, calls, &mut answers)?;
    Ok(answers)
}
