//! A page brought into a frame.
ghost use Rattle.std.specs.Prelude.{◌≡◌};
ghost use Rattle.model.specs.Steps.{brought, brought_frame, faulted, taken_frame};
ghost use Rattle.paging.specs.Seen.{access_for, rules_of, seen};

use crate::Own;
use frames::Policy;
use pages::store::PageStore;
use translation::Translator;

impl<T: Translator, P: Policy, S: PageStore> Own<T, P, S> {
    // A page fault: a frame is taken for the page, emptied, filled and connected.
    fn fault(&mut self, storage: &mut [u8], page: u16) -> u8
        ensures frame { result ≡ taken_frame (rules_of T.Translator P.Policy S.PageStore) (seen T.Translator P.Policy S.PageStore self.old storage.old) }
        ensures rule { seen T.Translator P.Policy S.PageStore self.new storage.new ≡ faulted (rules_of T.Translator P.Policy S.PageStore) result page (access_for self.old.state.config page) (seen T.Translator P.Policy S.PageStore self.old storage.old) }
    {
        let taken = self.take(page);
        let emptied = self.empty(storage, taken);
        let filled = self.fill(storage, emptied);
        self.connect(storage, filled)
    }

    /// Brings a page into a frame where it has none, and says which frame it has then.
    pub fn bring(&mut self, storage: &mut [u8], page: u16, frame: Option<u8>) -> u8
        ensures frame { result ≡ brought_frame (rules_of T.Translator P.Policy S.PageStore) (seen T.Translator P.Policy S.PageStore self.old storage.old) frame }
        ensures rule { seen T.Translator P.Policy S.PageStore self.new storage.new ≡ brought (rules_of T.Translator P.Policy S.PageStore) page (access_for self.old.state.config page) (seen T.Translator P.Policy S.PageStore self.old storage.old) frame }
    {
        match frame {
            Some(f) => f,
            None => self.fault(storage, page),
        }
    }
}
