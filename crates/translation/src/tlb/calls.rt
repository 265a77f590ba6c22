//! What the TLB does at each call.
ghost use Rattle.std.specs.Prelude.{◌≡◌, ℕ, ◌+◌, ◌-◌, ◌<◌, ◌≤◌, List, [], length, slice_index_or};
ghost use Rattle.tables.specs.Walk.{byte_index, located, page_number};
ghost use Rattle.translation.specs.declared.pair.Pair.{Pair as PairOf};
ghost use Rattle.translation.specs.Layers.{hit, missed, pair_of, tlb_rules, without};
ghost use Rattle.translation.specs.Layered.{tlb_lawful};
ghost use Rattle.std.proofs.Common.{rules, arith};

use crate::pair::Pair;
use crate::tlb::Tlb;
use crate::translator::Translator;
use recency::RecencyList;
use tables::{Controls, Refusal, checked, located};

impl<T> Tlb<T> {
    /// A layer with no pair over a translator.
    pub fn over(below: T) -> Tlb<T>
        ensures { (result.below ≡ below) × (result.pairs ≡ []) }
    {
        Tlb {
            below,
            pairs: RecencyList::new(Pair { page: 0, start: 0 }),
        }
    }

    /// The pairs held, the first to go first.
    pub fn pairs(&self) -> &[Pair]
        ensures { result.now ≡ self.now.pairs }
    {
        self.pairs.as_slice()
    }

    /// The translator below.
    pub fn below(&self) -> &T
        ensures { result.now ≡ self.now.below }
    {
        &self.below
    }
}

// Drops every pair of a page. The others keep their order.
fn drop_pairs(pairs: &mut RecencyList<Pair, 8>, page: u32)
    ensures left { pairs.new ≡ without page pairs.old }
    ensures few { length pairs.old ≤ 8 → length pairs.new ≤ 8 }
{
    while let Some(place) = pairs.find(page) {
        pairs.remove(place);
    }
}

impl<T: Translator> Tlb<T> {
    // The pair at this place answers: it goes last, but where the byte is not in main storage.
    fn hit(&mut self, storage: &[u8], place: usize, byte: u32) -> Result<usize, Refusal>
        requires { place < length self.old.pairs }
        ensures answer { result ≡ (hit (T.Translator.model self.old.below) self.old.pairs place (located storage.now (slice_index_or self.old.pairs place (pair_of 0 0)).start byte)).answer }
        ensures after { (T.Translator.model self.new.below, self.new.pairs) ≡ (hit (T.Translator.model self.old.below) self.old.pairs place (located storage.now (slice_index_or self.old.pairs place (pair_of 0 0)).start byte)).left }
    {
        let real = located(storage, self.pairs.as_slice()[place].start, byte)?;
        self.pairs.move_to_end(place);
        Ok(real)
    }

    // The layer below answers, and its pair is put last. (No real address is below its byte index.)
    fn miss(&mut self, storage: &[u8], address: u32, page: u32, byte: u32) -> Result<usize, Refusal>
        ensures answer { result ≡ (T.Translator.rules.translate (T.Translator.model self.old.below) storage.now address).answer }
        ensures after { (T.Translator.model self.new.below, self.new.pairs) ≡ (missed (T.Translator.rules.translate (T.Translator.model self.old.below) storage.now address).left self.old.pairs page byte (T.Translator.rules.translate (T.Translator.model self.old.below) storage.now address).answer).left }
    {
        let real = self.below.translate(storage, address)?;
        self.pairs.put(Pair {
            page,
            start: real.saturating_sub(byte as usize),
        });
        Ok(real)
    }
}

impl<T: Translator> Translator for Tlb<T> {
    ghost Model = { T.Translator.Model × List PairOf };

    ghost model = { λ t. (T.Translator.model t.below, t.pairs) };

    ghost rules = { tlb_rules T.Translator.rules };

    ghost lawful = { tlb_lawful T.Translator.rules T.Translator.lawful };

    ghost valid = { first_of (Prim.search rules, Prim.grind (arith, Self.row.coded.inj)) };

    fn translate(&mut self, storage: &[u8], address: u32) -> Result<usize, Refusal> {
        let sizes = checked(self.below.controls(), address)?;
        let page = sizes.page_number(address);
        let byte = sizes.byte_index(address);
        match self.pairs.find(page) {
            Some(place) => self.hit(storage, place, byte),
            None => self.miss(storage, address, page, byte),
        }
    }

    fn load_controls(&mut self, storage: &[u8], controls: Controls) {
        self.below.load_controls(storage, controls);
        self.pairs.clear();
    }

    fn purge(&mut self, storage: &[u8]) {
        self.below.purge(storage);
        self.pairs.clear();
    }

    fn forget(&mut self, page: u32) {
        self.below.forget(page);
        drop_pairs(&mut self.pairs, page);
    }

    fn controls(&self) -> Controls {
        self.below.controls()
    }
}
