//! IPL.
ghost use Rattle.std.specs.Prelude.{◌≡◌, ℕ, ◌-◌, List, OnErr};
ghost use Rattle.layout.specs.Config.{config_with};
ghost use Rattle.model.specs.Ipl.{first_fault, fresh, ipl as ipl_rule, returned};
ghost use Rattle.machine.specs.Machine.{Does, rules, unstarted, world};

use crate::Machine;
use frames::{KeyBits, Policy};
use layout::{Layout, Sizes};
use model::calls::IplRefusal;
use model::shape::Partition;
use pages::fault::Fault;
use pages::store::PageStore;
use paging::Own;
use state::State;
use translation::Translator;

// The fault of the first of so many slots that cannot be used.
#[tactic(auto, using(layout::proofs::Made::more), unfolding(model::specs::Ipl::first_fault))]
fn first_fault<S: PageStore>(store: &S, slots: u32) -> Option<Fault>
    ensures { result ≡ first_fault S.PageStore.rules (S.PageStore.model store.now) 0 slots }
{
    for slot in 0..slots {
        if let Err(fault) = store.good(slot) {
            return Some(fault);
        }
    }
    None
}

// A frame neither referred to nor changed.
const NEITHER: KeyBits = KeyBits {
    referred: false,
    changed: false,
};

// Returns the frames from `first` up to and without `past` to a policy, in order, with both bits off.
#[tactic(auto, using(layout::proofs::Made::more), unfolding(model::specs::Ipl::returned))]
fn return_frames<P: Policy>(policy: &mut P, first: u16, past: u16)
    ensures { P.Policy.model policy.new ≡ returned P.Policy.rules first (past - first) (P.Policy.model policy.old) }
{
    for frame in first..past {
        policy.return_frame(frame, NEITHER);
    }
}

impl<T: Translator, P: Policy, S: PageStore> Machine<T, P, S> {
    /// A machine before its first IPL.
    pub fn new(translator: T, policy: P, store: S) -> Machine<T, P, S>
        ensures { (s : List ℕ) → world T.Translator P.Policy S.PageStore result s ≡ unstarted (T.Translator.model translator) (P.Policy.model policy) (S.PageStore.model store) s }
    {
        Machine {
            own: Own {
                state: State::new(),
                keys: [0; 256],
                translator,
                policy,
                store,
            },
        }
    }

    // Writes the tables and starts anew with them.
    fn start(&mut self, storage: &mut [u8], layout: Layout)
        ensures { world T.Translator P.Policy S.PageStore self.new storage.new ≡ fresh (rules T.Translator P.Policy S.PageStore) layout (world T.Translator P.Policy S.PageStore self.old storage.old) }
    {
        layout.write_tables(storage);
        self.own.keys = [0; 256];
        self.own.state = State::started(layout);
        self.own.policy.clear();
        return_frames(&mut self.own.policy, layout.supervisor(), layout.frames());
        let controls = layout.controls();
        self.own.translator.load_controls(storage, controls);
    }

    /// IPL: so many frames, supervisor frames and virtual pages, and one to five partitions. Refused by 32, 33, 34, and
    /// then everything is as found.
    #[tactic(auto, unfolding(model::specs::Ipl::ipl))]
    pub fn ipl(
        &mut self,
        storage: &mut [u8],
        sizes: Sizes,
        partitions: &[Partition],
    ) -> Result<(), IplRefusal>
        ensures rule { Does T.Translator P.Policy S.PageStore (λ q w. ipl_rule q (config_with sizes partitions.now) w) result (world T.Translator P.Policy S.PageStore self.old storage.old) (world T.Translator P.Policy S.PageStore self.new storage.new) }
        ensures refused { OnErr result (world T.Translator P.Policy S.PageStore self.new storage.new ≡ world T.Translator P.Policy S.PageStore self.old storage.old) }
    {
        let layout = Layout::checked(sizes, partitions, storage)?;
        let slots = u32::from(layout.pages().saturating_sub(layout.supervisor()));
        if let Some(fault) = first_fault(&self.own.store, slots) {
            return Err(IplRefusal::Slot(fault));
        }
        self.start(storage, layout);
        Ok(())
    }
}
