//! What holds the frames that can be taken for a page, and says which of them is taken.
#![tactic(auto)]

mod calls;
mod keys;
mod runs;

ghost use Rattle.std.specs.Prelude.{◌≡◌};
ghost use Rattle.frames.specs.Policy.{Rules, Lawful, free, holds};

pub use calls::{Answer, Call};
pub use keys::{KeyBits, is_changed, is_referred, reference_off, reference_on};
pub use runs::{make, play};

/// A frame policy: it holds frames out of 0 to 255, each once.
pub trait Policy {
    /// what a policy of this kind means
    ghost Model: { Type 0 };

    /// what a policy means
    ghost model: { Self → Model };

    /// what each call answers and leaves
    ghost rules: { Rules Model };

    /// Holds the frame from now on. The answer is no, and nothing changes, if it is above 255 or held already.
    fn enter(&mut self, frame: u16) -> bool
        ensures answer { result ≡ free rules (model self.old) frame }
        ensures after { model self.new ≡ rules.enter (model self.old) frame };

    /// Holds the frame from now on, as one with these reference and change bits. It answers as `enter` does.
    fn return_frame(&mut self, frame: u16, bits: KeyBits) -> bool
        ensures answer { result ≡ free rules (model self.old) frame }
        ensures after { model self.new ≡ rules.return_frame (model self.old) frame bits.referred bits.changed };

    /// Drops the frame. The answer is no, and nothing changes, if it is not held.
    fn leave(&mut self, frame: u16) -> bool
        ensures answer { result ≡ holds rules (model self.old) frame }
        ensures after { model self.new ≡ rules.leave (model self.old) frame };

    /// Says that the frame was referred to. The same frames are held after as before.
    fn touch(&mut self, frame: u16)
        ensures { model self.new ≡ rules.touch (model self.old) frame };

    /// Drops every frame.
    fn clear(&mut self)
        ensures { model self.new ≡ rules.clear (model self.old) };

    /// Picks a held frame and drops it; none, if it holds none. It may turn reference bits off in the storage keys.
    fn take(&mut self, keys: &mut [u8; 256]) -> Option<u8>
        ensures answer { result ≡ (rules.take (model self.old) keys.old).frame }
        ensures keys { keys.new ≡ (rules.take (model self.old) keys.old).keys }
        ensures after { model self.new ≡ (rules.take (model self.old) keys.old).left };

    /// what is certain of every policy
    ghost lawful: { Lawful rules };

    /// every value of the type is one that the rules are for
    ghost valid: { (x : Self) → rules.good (model x) };
}
