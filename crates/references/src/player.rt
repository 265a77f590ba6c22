ghost use Rattle.std.specs.Prelude.{◌≡◌, List};
ghost use Rattle.references.specs.Reference.{referred_to};

use frames::Policy;

// A policy with the storage keys, and the page in each frame: 0 in a frame that has none.
#[derive(Drop)]
pub struct Player<P> {
    pub policy: P,
    // an array of their own, which Take is handed
    pub keys: [u8; 256],
    // numbers and no `Option`: a reference to page 0 finds a frame that has none, which is what `refer` promises
    pub pages: [u8; 256],
}

impl<P: Policy> Player<P> {
    // Refers to a page. If it is in a frame, that frame is touched; else it goes into a frame that the policy takes.
    pub fn refer(&mut self, page: u8)
        ensures held { P.Policy.model self.new.policy ≡ (referred_to P.Policy.rules page (P.Policy.model self.old.policy) self.old.keys self.old.pages).held }
        ensures keys { self.new.keys ≡ (referred_to P.Policy.rules page (P.Policy.model self.old.policy) self.old.keys self.old.pages).keys }
        ensures pages { self.new.pages ≡ (referred_to P.Policy.rules page (P.Policy.model self.old.policy) self.old.keys self.old.pages).pages }
    {
        if let Some(frame) = recency::find(&self.pages, page as u32) {
            self.policy.touch(frame as u16);
            self.keys[frame] = frames::reference_on(self.keys[frame]);
        } else if let Some(frame) = self.policy.take(&mut self.keys) {
            self.pages[frame as usize] = page;
            self.policy.enter(frame as u16);
            self.keys[frame as usize] = frames::reference_on(0);
        }
    }
}
