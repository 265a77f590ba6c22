//! Calls made of a machine.
use frames::Policy;
use machine::Machine;
use model::calls::{Answer, Call, Refusal, Reply};
use pages::store::PageStore;
use translation::Translator;

// What a call answers that gives no byte where it is not refused.
fn done(answered: Result<(), Refusal>) -> Answer {
    answered.map(|()| Reply::Done)
}

/// Makes one call.
pub fn make<T: Translator, P: Policy, S: PageStore>(
    machine: &mut Machine<T, P, S>,
    storage: &mut [u8],
    call: Call,
) -> Answer {
    match call {
        Call::Load { address, key } => machine.load(storage, address, key).map(Reply::Byte),
        Call::Store { address, key, byte } => done(machine.store(storage, address, key, byte)),
        Call::Fix { page } => done(machine.fix(storage, page)),
        Call::Free { page } => done(machine.free(storage, page)),
        Call::Purge => done(machine.purge(storage)),
        Call::Settle => done(machine.settle(storage)),
    }
}
