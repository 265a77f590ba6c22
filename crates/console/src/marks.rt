//! The page store at the console.
ghost use Rattle.std.specs.Prelude.{◌≡◌, IfOk, false, ◌==◌};
ghost use Rattle.machine.specs.Lending.{with_store};
ghost use Rattle.console.specs.Answers.{bad_answer, mark_answer, marked_area, ShowsSlot};

use crate::answer::Answer;
use crate::board::Board;
use listing::digest::digest_text;
use parts::held::ShowFrames;
use parts::marks::Marked;
use parts::pairs::ShowPairs;
use script::verb::Verb;
use script::wrong::Wrong;
use std::alloc::{AllocError, Global};
use storage::PAGE;

impl<T: ShowPairs, P: ShowFrames, S: Marked> Board<T, P, S> {
    /// SLOT: the digest of what a read of a slot gives, and its mark.
    pub fn slot(&self, heap: Global, slot: u32) -> Result<Answer, AllocError>
        ensures { IfOk result (ShowsSlot S.PageStore.rules (S.PageStore.model self.now.machine.own.store) (S.Marked.marks.mark self.now.machine.own.store slot) slot) }
    {
        let store = self.machine.page_store();
        let mut page = [0u8; PAGE];
        match store.read(slot, &mut page) {
            Ok(()) => {
                let digest = digest_text(heap, &page)?;
                Ok(Answer::Page(slot, digest, store.mark(slot)))
            }
            Err(fault) => Ok(Answer::Refused(Verb::Slot, fault.refusal.into())),
        }
    }

    /// BAD: marks a slot bad, before the machine starts.
    pub fn bad(&mut self, slot: u32) -> Result<Answer, Wrong>
        ensures answer { result ≡ bad_answer S.Marked.marks (self.old.machine.own.state.config.frames == 0) self.old.machine.own.store slot }
        ensures after { S.Marked.marks.area self.new.machine.own.store ≡ marked_area S.Marked.marks (self.old.machine.own.state.config.frames == 0) self.old.machine.own.store slot 2 }
        ensures others { self.new.machine ≡ with_store self.old.machine self.new.machine.own.store }
        ensures started { (self.old.machine.own.state.config.frames == 0) ≡ false → self.new.machine ≡ self.old.machine }
        ensures kept { (self.new.storage ≡ self.old.storage) × (self.new.sized ≡ self.old.sized) }
    {
        let Some(store) = self.machine.page_store_mut() else {
            return Err(Wrong::Started(Verb::Bad));
        };
        match store.mark_bad(slot) {
            None => Err(Wrong::NoMarks(Verb::Bad)),
            Some(Ok(())) => Ok(Answer::Done(Verb::Bad)),
            Some(Err(fault)) => Ok(Answer::Refused(Verb::Bad, fault.refusal.into())),
        }
    }

    /// MARK: puts a mark at a slot, and opens the data set again, before the machine starts.
    pub fn mark(&mut self, slot: u32, value: u8) -> Result<Answer, Wrong>
        ensures answer { result ≡ mark_answer S.Marked.marks (self.old.machine.own.state.config.frames == 0) self.old.machine.own.store slot value }
        ensures after { S.Marked.marks.area self.new.machine.own.store ≡ marked_area S.Marked.marks (self.old.machine.own.state.config.frames == 0) self.old.machine.own.store slot value }
        ensures others { self.new.machine ≡ with_store self.old.machine self.new.machine.own.store }
        ensures started { (self.old.machine.own.state.config.frames == 0) ≡ false → self.new.machine ≡ self.old.machine }
        ensures kept { (self.new.storage ≡ self.old.storage) × (self.new.sized ≡ self.old.sized) }
    {
        let Some(store) = self.machine.page_store_mut() else {
            return Err(Wrong::Started(Verb::Mark));
        };
        match store.set_mark(slot, value) {
            None => Err(Wrong::NoMarks(Verb::Mark)),
            Some(Ok(())) => Ok(Answer::Opened),
            Some(Err(why)) => Ok(Answer::NotOpened(why)),
        }
    }

    /// What SAVE puts into a file.
    pub fn saved(&self) -> &[u8]
        ensures { result.now ≡ S.Marked.marks.area self.now.machine.own.store }
    {
        self.machine.page_store().area()
    }
}
