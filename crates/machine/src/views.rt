//! What can be seen of a machine from outside, and its end.
ghost use Rattle.std.specs.Prelude.{◌≡◌, ◌≤◌, [], if◌then◌else◌, Some, None, ◌==◌};
ghost use Rattle.std.specs.Borrow.{sem};
ghost use Rattle.std.specs.Option.{option_map};
ghost use Rattle.machine.specs.Lending.{LendsStore, LendsStoreIf};
ghost use Rattle.machine.specs.Machine.{world};
ghost use Rattle.table.specs.Table.{record_in};

use crate::Machine;
use frames::Policy;
use model::shape::FrameRecord;
use pages::store::PageStore;
use paging::Own;
use tables::Controls;
use translation::Translator;

impl<T: Translator, P: Policy, S: PageStore> Machine<T, P, S> {
    /// How many frames IPL was given; 0 before IPL.
    pub fn frames(&self) -> u16
        ensures value { result ≡ (world T.Translator P.Policy S.PageStore self.now []).config.frames }
        ensures few { result ≤ 256 }
    {
        self.own.state.layout().frames()
    }

    /// How many of them are the supervisor's; 0 before IPL.
    pub fn supervisor(&self) -> u16
        ensures { result ≡ (world T.Translator P.Policy S.PageStore self.now []).config.supervisor }
    {
        self.own.state.layout().supervisor()
    }

    /// How many virtual pages there are; 0 before IPL.
    pub fn pages(&self) -> u16
        ensures { result ≡ (world T.Translator P.Policy S.PageStore self.now []).config.pages }
    {
        self.own.state.layout().pages()
    }

    /// The record of a frame.
    pub fn record(&self, frame: u8) -> FrameRecord
        ensures { result ≡ record_in (world T.Translator P.Policy S.PageStore self.now []).records frame }
    {
        self.own.state.record(frame)
    }

    /// The 256 storage keys.
    pub fn keys(&self) -> &[u8]
        ensures { result.now ≡ (world T.Translator P.Policy S.PageStore self.now []).keys }
    {
        &self.own.keys
    }

    /// Both control words.
    pub fn controls(&self) -> Controls
        ensures { result ≡ T.Translator.rules.controls (world T.Translator P.Policy S.PageStore self.now []).translator }
    {
        self.own.translator.controls()
    }

    /// The translator.
    pub fn translator(&self) -> &T
        ensures value { result.now ≡ self.now.own.translator }
        ensures model { T.Translator.model result.now ≡ (world T.Translator P.Policy S.PageStore self.now []).translator }
    {
        &self.own.translator
    }

    /// The policy.
    pub fn policy(&self) -> &P
        ensures value { result.now ≡ self.now.own.policy }
        ensures model { P.Policy.model result.now ≡ (world T.Translator P.Policy S.PageStore self.now []).policy }
    {
        &self.own.policy
    }

    /// The page store.
    pub fn page_store(&self) -> &S
        ensures value { result.now ≡ self.now.own.store }
        ensures model { S.PageStore.model result.now ≡ (world T.Translator P.Policy S.PageStore self.now []).store }
    {
        &self.own.store
    }

    // The page store, lent.
    fn lend_store(&mut self) -> &mut S
        ensures* follows { sem 𝓛 (LendsStore T.row P.row S.row self.entry result) }
        ensures value { result.now ≡ self.old.own.store }
    {
        let own = &mut self.own;
        &mut own.store
    }

    /// The page store, lent to be changed before the first answered IPL; none after it, since a machine's page store is its
    /// own then.
    pub fn page_store_mut(&mut self) -> Option<&mut S>
        ensures* follows { sem 𝓛 (LendsStoreIf T.row P.row S.row self.entry result) }
        ensures value { option_map (λ s. s.now) result ≡ (if self.old.own.state.config.frames == 0 then Some self.old.own.store else None) }
    {
        if self.frames() > 0 {
            return None;
        }
        Some(self.lend_store())
    }

    /// The three parts, of which a machine is made anew.
    pub fn into_parts(self) -> (T, P, S)
        ensures translator { result.0 ≡ self.own.translator }
        ensures policy { result.1 ≡ self.own.policy }
        ensures store { result.2 ≡ self.own.store }
    {
        let Machine { own } = self;
        let Own {
            state: _,
            keys: _,
            translator,
            policy,
            store,
        } = own;
        (translator, policy, store)
    }
}
