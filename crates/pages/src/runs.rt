//! Runs: any list of reads and writes, answered or refused, on a store of any kind.
ghost use Rattle.std.specs.Prelude.{◌≡◌, length, None};
ghost use Rattle.std.specs.Option.{unwrap_or};
ghost use Rattle.pages.specs.Runs.{Kept, buffer_of, last_written, run_buffer, run_of, step_of};
ghost use Rattle.pages.specs.Store.{read_into, refusal_at, told};

use crate::call::Call;
use crate::fault::Fault;
use crate::store::PageStore;

/// Makes the calls one after another; each read copies its slot into `page`.
pub fn work<S: PageStore>(store: &mut S, calls: &[Call], page: &mut [u8])
    ensures after { S.model store.new ≡ run_of S.rules calls.now (S.model store.old) }
    ensures buffer { page.new ≡ run_buffer S.rules calls.now (S.model store.old) page.old }
    ensures kept { Kept S.rules calls.now (S.model store.old) (S.model store.new) }
{
    for call in calls {
        make(store, call, page);
    }
}

/// Makes one call, whatever it answers.
fn make<S: PageStore>(store: &mut S, call: &Call, page: &mut [u8])
    ensures after { S.model store.new ≡ step_of S.rules call.now (S.model store.old) }
    ensures buffer { page.new ≡ buffer_of S.rules call.now (S.model store.old) page.old }
{
    match call {
        Call::Read { slot } => {
            let _ = store.read(*slot, page);
        }
        Call::Write { slot, page: bytes } => {
            let _ = store.write(*slot, bytes.as_slice());
        }
    }
}

/// Makes the calls and then reads a slot: a good slot reads as the last page that the calls wrote to it, or as at the start.
pub fn read_after<S: PageStore>(
    store: &mut S,
    calls: &[Call],
    slot: u32,
    page: &mut [u8],
) -> Result<(), Fault>
    ensures kept { Kept S.rules calls.now (S.model store.old) (S.model store.new) }
    ensures answer { result ≡ told S.rules (S.model store.new) slot (refusal_at S.rules (S.model store.old) slot (length page.old)) }
    ensures buffer { page.new ≡ read_into S.rules (S.model store.new) slot (run_buffer S.rules calls.now (S.model store.old) page.old) (refusal_at S.rules (S.model store.old) slot (length page.old)) }
    ensures reads { refusal_at S.rules (S.model store.old) slot (length page.old) ≡ None → page.new ≡ unwrap_or (last_written calls.now slot) (S.rules.slot (S.model store.old) slot) }
{
    work(store, calls, page);
    store.read(slot, page)
}
