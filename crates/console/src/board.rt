//! A wired board: main storage and a machine.
ghost use Rattle.std.specs.Prelude.{◌≡◌, ℕ, [], List, false};
ghost use Rattle.machine.specs.Machine.{unstarted, world};
ghost use Rattle.console.specs.Answers.{wired_answer};

use crate::answer::Answer;
use frames::Policy;
use machine::Machine;
use pages::store::PageStore;
use parts::held::ShowFrames;
use parts::marks::Marked;
use parts::pairs::ShowPairs;
use script::verb::Verb;
use std::alloc::Global;
use translation::Translator;

/// What WIRE makes. The machine is not started yet, so both control words are zero.
// It has no model: a clause says of each part whether a command changes it.
#[derive(Drop)]
pub struct Board<T: Translator, P: Policy, S: PageStore> {
    pub(crate) machine: Machine<T, P, S>,
    pub(crate) storage: Vec<u8>,
    // whether a STORAGE gave main storage its length
    pub(crate) sized: bool,
}

impl<T: ShowPairs, P: ShowFrames, S: Marked> Board<T, P, S> {
    /// A fresh board, with no main storage.
    pub fn new(heap: Global, translator: T, policy: P, store: S) -> Board<T, P, S>
        ensures empty { result.storage.items ≡ [] }
        ensures stopped { (s : List ℕ) → world T.Translator P.Policy S.PageStore result.machine s ≡ unstarted (T.Translator.model translator) (P.Policy.model policy) (S.PageStore.model store) s }
        ensures fresh { result.sized ≡ false }
    {
        Board {
            machine: Machine::new(translator, policy, store),
            storage: Vec::new(heap),
            sized: false,
        }
    }

    /// The answer to the WIRE that made this board.
    pub fn wired(&self) -> Answer
        ensures { result ≡ wired_answer (S.Marked.marks.refused self.now.machine.own.store) }
    {
        match self.machine.page_store().refusal() {
            None => Answer::Done(Verb::Wire),
            Some(why) => Answer::Refused(Verb::Wire, why.into()),
        }
    }
}
