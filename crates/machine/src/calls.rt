//! The six calls.
ghost use Rattle.std.specs.Prelude.{◌≡◌, OnErr};
ghost use Rattle.model.specs.Steps.{fix as fix_rule, free as free_rule, load as load_rule, purge as purge_rule, settle as settle_rule, store as store_rule};
ghost use Rattle.machine.specs.Machine.{Does, world};

use crate::Machine;
use frames::Policy;
use model::calls::Refusal;
use pages::store::PageStore;
use translation::Translator;

impl<T: Translator, P: Policy, S: PageStore> Machine<T, P, S> {
    /// Load: the byte at an address. Refused by 32, 36, 5, 4, 35, 54, and then everything is as found.
    #[tactic(auto, unfolding(model::specs::Steps::load, model::specs::Refusals::decode_load))]
    pub fn load(&mut self, storage: &mut [u8], address: u32, key: u8) -> Result<u8, Refusal>
        ensures rule { Does T.Translator P.Policy S.PageStore (λ q w. load_rule q address key w) result (world T.Translator P.Policy S.PageStore self.old storage.old) (world T.Translator P.Policy S.PageStore self.new storage.new) }
        ensures refused { OnErr result (world T.Translator P.Policy S.PageStore self.new storage.new ≡ world T.Translator P.Policy S.PageStore self.old storage.old) }
    {
        let request = self.own.state.decode_load(storage, address, key)?;
        let frame = self.own.bring(storage, request.page, request.frame);
        Ok(self.read_byte(storage, address, frame))
    }

    /// Store: puts a byte at an address. Refused by 32, 36, 5, 4, 35, 54, and then everything is as found.
    #[tactic(auto, unfolding(model::specs::Steps::store, model::specs::Refusals::decode_store))]
    pub fn store(
        &mut self,
        storage: &mut [u8],
        address: u32,
        key: u8,
        byte: u8,
    ) -> Result<(), Refusal>
        ensures rule { Does T.Translator P.Policy S.PageStore (λ q w. store_rule q address key byte w) result (world T.Translator P.Policy S.PageStore self.old storage.old) (world T.Translator P.Policy S.PageStore self.new storage.new) }
        ensures refused { OnErr result (world T.Translator P.Policy S.PageStore self.new storage.new ≡ world T.Translator P.Policy S.PageStore self.old storage.old) }
    {
        let request = self.own.state.decode_store(storage, address, key)?;
        let frame = self.own.bring(storage, request.page, request.frame);
        self.write_byte(storage, address, byte, frame);
        Ok(())
    }

    /// Fix: the page stays in its frame until it is freed as often. Refused by 32, 5, 4, 37, 35, 54, and then everything
    /// is as found.
    #[tactic(auto, unfolding(model::specs::Steps::fix, model::specs::Refusals::decode_fix))]
    pub fn fix(&mut self, storage: &mut [u8], page: u32) -> Result<(), Refusal>
        ensures rule { Does T.Translator P.Policy S.PageStore (λ q w. fix_rule q page w) result (world T.Translator P.Policy S.PageStore self.old storage.old) (world T.Translator P.Policy S.PageStore self.new storage.new) }
        ensures refused { OnErr result (world T.Translator P.Policy S.PageStore self.new storage.new ≡ world T.Translator P.Policy S.PageStore self.old storage.old) }
    {
        let request = self.own.state.decode_fix(storage, page)?;
        let frame = self.own.bring(storage, request.page, request.frame);
        self.fix_frame(frame);
        Ok(())
    }

    /// Free: takes one Fix back. Refused by 32, 5, 4, 38, 54, and then everything is as found.
    #[tactic(auto, unfolding(model::specs::Steps::free, model::specs::Refusals::decode_free))]
    pub fn free(&mut self, storage: &[u8], page: u32) -> Result<(), Refusal>
        ensures rule { Does T.Translator P.Policy S.PageStore (λ q w. free_rule q page w) result (world T.Translator P.Policy S.PageStore self.old storage.now) (world T.Translator P.Policy S.PageStore self.new storage.now) }
        ensures refused { OnErr result (world T.Translator P.Policy S.PageStore self.new storage.now ≡ world T.Translator P.Policy S.PageStore self.old storage.now) }
    {
        let request = self.own.state.decode_free(storage, page)?;
        let Some(frame) = request.frame else {
            unreachable!()
        };
        self.free_frame(frame);
        Ok(())
    }

    /// Purge: ends every lookaside pair that does not agree with the tables. Refused by 32, 54, and then everything is as
    /// found.
    #[tactic(auto, unfolding(model::specs::Steps::purge, model::specs::Refusals::decode_purge))]
    pub fn purge(&mut self, storage: &[u8]) -> Result<(), Refusal>
        ensures rule { Does T.Translator P.Policy S.PageStore (λ q w. purge_rule q w) result (world T.Translator P.Policy S.PageStore self.old storage.now) (world T.Translator P.Policy S.PageStore self.new storage.now) }
        ensures refused { OnErr result (world T.Translator P.Policy S.PageStore self.new storage.now ≡ world T.Translator P.Policy S.PageStore self.old storage.now) }
    {
        self.own.state.decode_purge(storage)?;
        self.own.translator.purge(storage);
        Ok(())
    }

    /// Settle: every changed page is written to its slot. Refused by 32, 54, and then everything is as found.
    #[tactic(auto, unfolding(model::specs::Steps::settle, model::specs::Refusals::decode_settle))]
    pub fn settle(&mut self, storage: &mut [u8]) -> Result<(), Refusal>
        ensures rule { Does T.Translator P.Policy S.PageStore (λ q w. settle_rule q w) result (world T.Translator P.Policy S.PageStore self.old storage.old) (world T.Translator P.Policy S.PageStore self.new storage.new) }
        ensures refused { OnErr result (world T.Translator P.Policy S.PageStore self.new storage.new ≡ world T.Translator P.Policy S.PageStore self.old storage.old) }
    {
        self.own.state.decode_settle(storage)?;
        self.settle_frames(storage);
        Ok(())
    }
}
