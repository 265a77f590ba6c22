//! What the policy does at each call.
ghost use Rattle.std.specs.Prelude.{◌≡◌, ℕ, List};
ghost use Rattle.recency.specs.Places.{place_of};
ghost use Rattle.lru_list.specs.Rules.{lru_rules};
ghost use Rattle.lru_list.specs.Laws.{lru_lawful};

use crate::list::LruList;
use frames::{KeyBits, Policy};

impl LruList {
    // The place of a frame in the list, where it is held.
    fn place(&self, frame: u16) -> Option<usize>
        ensures { result ≡ place_of (λ f. f) frame self.now.frames 0 }
    {
        self.frames.find(u32::from(frame))
    }
}

impl Policy for LruList {
    ghost Model = { List ℕ };

    ghost model = { λ x. x.frames };

    ghost rules = { lru_rules };

    ghost lawful = { lru_lawful };

    ghost valid = { λ x. x.once };

    fn enter(&mut self, frame: u16) -> bool {
        let Ok(number) = u8::try_from(frame) else {
            return false;
        };
        if self.place(frame).is_some() {
            return false;
        }
        self.frames.put(number);
        true
    }

    fn return_frame(&mut self, frame: u16, _bits: KeyBits) -> bool {
        self.enter(frame)
    }

    fn leave(&mut self, frame: u16) -> bool {
        let Some(place) = self.place(frame) else {
            return false;
        };
        self.frames.remove(place);
        true
    }

    fn touch(&mut self, frame: u16) {
        if let Some(place) = self.place(frame) {
            self.frames.move_to_end(place);
        }
    }

    fn clear(&mut self) {
        self.frames.clear();
    }

    fn take(&mut self, _keys: &mut [u8; 256]) -> Option<u8> {
        let first = *self.frames.as_slice().first()?;
        self.frames.remove(0);
        Some(first)
    }
}
