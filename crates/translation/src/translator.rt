//! The interface of translators.
ghost use Rattle.std.specs.Prelude.{◌≡◌, ℕ};
ghost use Rattle.translation.specs.Translator.{Lawful, Rules};

use tables::{Controls, Refusal};

/// What turns virtual addresses into real ones.
pub trait Translator {
    // what a translator of this kind is, and the value of one
    ghost Model: { Type 0 };

    ghost model: { Self → Model };

    // what each call answers and leaves, and what is certain of that
    ghost rules: { Rules Model };

    /// The real address of a virtual one, or why there is none.
    fn translate(&mut self, storage: &[u8], address: u32) -> Result<usize, Refusal>
        ensures answer { result ≡ (rules.translate (model self.old) storage.now address).answer }
        ensures after { model self.new ≡ (rules.translate (model self.old) storage.now address).left };

    /// Sets both control words.
    fn load_controls(&mut self, storage: &[u8], controls: Controls)
        ensures { model self.new ≡ rules.load (model self.old) storage.now controls };

    /// Ends every pair that does not agree with the tables in storage.
    fn purge(&mut self, storage: &[u8])
        ensures { model self.new ≡ rules.purge (model self.old) storage.now };

    /// Ends every pair of a page, in each layer.
    fn forget(&mut self, page: u32)
        ensures { model self.new ≡ rules.forget (model self.old) page };

    /// Both control words.
    fn controls(&self) -> Controls
        ensures { result ≡ rules.controls (model self.now) };

    ghost lawful: { Lawful rules };

    // every value is one that the kind can have
    ghost valid: { (x : Self) → rules.good (model x) };
}
