//! The four steps of a page fault: taken, emptied, filled, connected. Each takes the token of the step before and gives the
//! next one.
ghost use Rattle.std.specs.Prelude.{◌≡◌, ℕ, ◌-◌, ◌*◌, true, List, slice_index};
ghost use Rattle.frames.specs.Keys.{changed};
ghost use Rattle.model.specs.Steps.{chosen, connected, emptied as emptied_by, emptying, fill_frame, filled as filled_by, put_out, read_in, taken as taken_by, taken_frame};
ghost use Rattle.paging.specs.Seen.{access_for, rules_of, seen, with_store};
ghost use Rattle.storage.specs.Bytes.{frame as frame_bytes};

mod token;

use crate::Own;
use frames::{Policy, is_changed};
use layout::entries::{never_written, put_entry};
use pages::store::PageStore;
use storage::{PAGE, clear_page, holds, page};
use table::NO_PAGE;
use token::{Emptied, Filled, Taken};
use translation::Translator;

// The frame that the policy hands over; the first pageable frame stands in for none, and for one that is not pageable.
fn choose(picked: Option<u8>, supervisor: u8, frames: u16) -> u8
    ensures { result ≡ chosen supervisor frames picked }
{
    match picked {
        Some(frame) if frame >= supervisor && u16::from(frame) < frames => frame,
        _ => supervisor,
    }
}

// Where a frame stands in main storage.
fn place(frame: u8) -> usize
    ensures { result ≡ 2048 * frame }
{
    PAGE * usize::from(frame)
}

impl<T: Translator, P: Policy, S: PageStore> Own<T, P, S> {
    // The slot of a page.
    fn slot(&self, page: u16) -> u32
        ensures { result ≡ page - self.now.state.config.supervisor }
    {
        u32::from(page.saturating_sub(self.state.layout().supervisor()))
    }

    // Taken: the policy picks a frame, and may turn reference bits off.
    pub(crate) fn take(&mut self, page: u16) -> Taken
        ensures frame { (s : List ℕ) → result.frame ≡ taken_frame (rules_of T.Translator P.Policy S.PageStore) (seen T.Translator P.Policy S.PageStore self.old s) }
        ensures page { result.page ≡ page }
        ensures rule { (s : List ℕ) → seen T.Translator P.Policy S.PageStore self.new s ≡ taken_by (rules_of T.Translator P.Policy S.PageStore) (seen T.Translator P.Policy S.PageStore self.old s) }
    {
        let supervisor = self.state.layout().supervisor() as u8;
        let frames = self.state.layout().frames();
        let picked = self.policy.take(&mut self.keys);
        Taken::for_page(choose(picked, supervisor, frames), page)
    }

    // Puts the bytes of a frame out to the slot of a page.
    pub fn put_out(&mut self, storage: &[u8], frame: u8, of: u16)
        ensures { seen T.Translator P.Policy S.PageStore self.new storage.now ≡ with_store (seen T.Translator P.Policy S.PageStore self.old storage.now) (put_out S.PageStore.rules (S.PageStore.model self.old.store) (of - self.old.state.config.supervisor) (frame_bytes storage.now frame)) }
    {
        let slot = self.slot(of);
        if let Some(bytes) = page(storage, place(frame)) {
            let _ = self.store.write(slot, bytes);
        }
    }

    // Takes a page out of its frame: a changed page is put out and its bit 15 goes off; its entry becomes invalid
    // with its access key, its pairs end, and the record names no page.
    fn vacate(&mut self, storage: &mut [u8], frame: u8, old: u16)
        ensures { seen T.Translator P.Policy S.PageStore self.new storage.new ≡ emptying (rules_of T.Translator P.Policy S.PageStore) true (changed (slice_index self.old.keys frame)) frame old (seen T.Translator P.Policy S.PageStore self.old storage.old) }
    {
        let key = self.keys[frame as usize];
        let changed = is_changed(key);
        if changed {
            self.put_out(storage, frame, old);
        }
        let bit = u16::from(!changed && never_written(storage, old));
        put_entry(storage, old, 4 + 16 * u16::from(key / 16) + bit);
        self.translator.forget(u32::from(old));
        self.state.set_page(frame, NO_PAGE);
    }

    // Emptied: the page that the frame has, if it has one, is vacated.
    pub(crate) fn empty(&mut self, storage: &mut [u8], taken: Taken) -> Emptied
        ensures same { (result.frame ≡ taken.frame) × (result.page ≡ taken.page) }
        ensures rule { seen T.Translator P.Policy S.PageStore self.new storage.new ≡ emptied_by (rules_of T.Translator P.Policy S.PageStore) taken.frame (seen T.Translator P.Policy S.PageStore self.old storage.old) }
    {
        let old = self.state.record(taken.frame()).page;
        if old != NO_PAGE {
            self.vacate(storage, taken.frame(), old);
        }
        taken.emptied()
    }

    // Reads the slot of a page into a frame.
    fn read_in(&self, storage: &mut [u8], frame: u8, of: u16)
        ensures { storage.new ≡ fill_frame storage.old frame (read_in S.PageStore.rules (S.PageStore.model self.now.store) (of - self.now.state.config.supervisor) (frame_bytes storage.old frame)) }
    {
        let at = place(frame);
        if holds(storage, at, PAGE) {
            let part = &mut storage[at..at + PAGE];
            let _ = self.store.read(self.slot(of), part);
        }
    }

    // Filled: the page's slot is read into the frame, or zeros where it was never written out.
    pub(crate) fn fill(&self, storage: &mut [u8], emptied: Emptied) -> Filled
        ensures same { (result.frame ≡ emptied.frame) × (result.page ≡ emptied.page) }
        ensures rule { seen T.Translator P.Policy S.PageStore self.now storage.new ≡ filled_by (rules_of T.Translator P.Policy S.PageStore) emptied.frame emptied.page (seen T.Translator P.Policy S.PageStore self.now storage.old) }
    {
        if never_written(storage, emptied.page()) {
            let _ = clear_page(storage, place(emptied.frame()));
        } else {
            self.read_in(storage, emptied.frame(), emptied.page());
        }
        emptied.filled()
    }

    // Connected: the key is the page's access key with both bits off, the entry names the frame, the record the page, and
    // the policy has the frame.
    pub(crate) fn connect(&mut self, storage: &mut [u8], filled: Filled) -> u8
        ensures frame { result ≡ filled.frame }
        ensures rule { seen T.Translator P.Policy S.PageStore self.new storage.new ≡ connected (rules_of T.Translator P.Policy S.PageStore) filled.frame filled.page (access_for self.old.state.config filled.page) (seen T.Translator P.Policy S.PageStore self.old storage.old) }
    {
        let frame = filled.frame();
        let page = filled.page();
        self.keys[frame as usize] = self.state.layout().storage_key(page);
        let bit = u16::from(never_written(storage, page));
        put_entry(storage, page, 8 * u16::from(frame) + bit);
        self.state.set_page(frame, page);
        self.policy.enter(u16::from(frame));
        filled.connected()
    }
}
