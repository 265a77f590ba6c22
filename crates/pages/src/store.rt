//! What every kind of page store means and does.
ghost use Rattle.std.specs.Prelude.{◌≡◌, ℕ, length};
ghost use Rattle.pages.specs.declared.fault.StoreRefusal.{StoreRefusal};
ghost use Rattle.pages.specs.Store.{Rules, Lawful, refusal_at, told, read_into, written};

use crate::fault::Fault;

/// Slots in a store of any kind, at most.
pub const MOST_SLOTS: u32 = 8192;

/// A page store. Each call refuses by the first of its cases that holds, and never otherwise.
pub trait PageStore {
    /// The number of this kind of store, which its faults tell. By the rules it is a constant of the kind, and a number, since
    /// the kinds are an open set.
    const KIND: u8;

    /// The same, for contracts.
    ghost KIND: { ℕ };

    /// What a store means, whatever it is made of.
    ghost Model: { Type 0 };

    ghost model: { Self → Model };

    /// Which slots there are, which of them are bad, what each holds, and what a write leaves.
    ghost rules: { Rules Model };

    /// How many slots there are.
    fn count(&self) -> u32
        ensures { result ≡ rules.count (model self.now) };

    /// Whether a slot can be read and written.
    fn good(&self, slot: u32) -> Result<(), Fault>
        ensures { result ≡ told rules (model self.now) slot (refusal_at rules (model self.now) slot 2048) };

    /// Copies a slot out. A refused read leaves the buffer.
    fn read(&self, slot: u32, page: &mut [u8]) -> Result<(), Fault>
        ensures answer { result ≡ told rules (model self.now) slot (refusal_at rules (model self.now) slot (length page.old)) }
        ensures after { page.new ≡ read_into rules (model self.now) slot page.old (refusal_at rules (model self.now) slot (length page.old)) };

    /// Fills a slot. A refused write leaves the store.
    fn write(&mut self, slot: u32, page: &[u8]) -> Result<(), Fault>
        ensures answer { result ≡ told rules (model self.old) slot (refusal_at rules (model self.old) slot (length page.now)) }
        ensures after { model self.new ≡ written rules (model self.old) slot page.now (refusal_at rules (model self.old) slot (length page.now)) };

    ghost lawful: { Lawful rules };

    ghost valid: { (x : Self) → rules.good (model x) };
}
