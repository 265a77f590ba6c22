//! The machine, shown at the console.
ghost use Rattle.std.specs.Prelude.{◌≡◌, ◌≤◌, IfOk};
ghost use Rattle.console.specs.Answers.{entry_answer, ShowsFrames, ShowsKeys, ShowsLines};
ghost use Rattle.console.specs.Boards.{digests_of, records_below, world};
ghost use Rattle.console.specs.declared.answer.Answer.TheVariants.{State};
ghost use Rattle.parts.specs.Pairs.{pairs_line};

use crate::answer::{Answer, Digests};
use crate::board::Board;
use listing::digest::digest_of;
use listing::hexadecimal::hex_text;
use listing::memory::displayed;
use listing::records::digest_of_records;
use listing::slots::digest_of_slots;
use model::shape::FrameRecord;
use parts::held::ShowFrames;
use parts::marks::Marked;
use parts::pairs::{ShowPairs, pairs_line};
use script::verb::Verb;
use std::alloc::{AllocError, Global};
use storage::read_number;
use tables::Refusal;

impl<T: ShowPairs, P: ShowFrames, S: Marked> Board<T, P, S> {
    /// ENTRY: the entry of a page, and where it stands.
    pub fn entry(&self, page: u32) -> Answer
        ensures { result ≡ entry_answer self.now.machine.own.state.config.pages self.now.storage.items page }
    {
        let entries = 32 * u32::from(self.machine.pages().div_ceil(32));
        if page >= entries {
            return Answer::Refused(Verb::Entry, Refusal::Addressing.into());
        }
        let at = 2048 + 2 * page as usize;
        match read_number::<u16>(&self.storage, at) {
            Some(entry) => Answer::Entry(page, at, entry),
            None => Answer::Refused(Verb::Entry, Refusal::Addressing.into()),
        }
    }

    /// KEYS: storage keys.
    pub fn keys(&self, heap: Global, first: u32, count: u32) -> Result<Answer, AllocError>
        ensures { IfOk result (ShowsKeys self.now.machine.own.keys first count) }
    {
        match displayed(self.machine.keys(), first as usize, count as usize) {
            Some(keys) => Ok(Answer::Keys(first, hex_text(heap, keys)?)),
            None => Ok(Answer::Refused(Verb::Keys, Refusal::Addressing.into())),
        }
    }

    // The records of the frames below `past`.
    #[tactic(auto, using(crate::proofs::Recorded::more), unfolding(crate::specs::Boards::records_below))]
    fn records(&self, heap: Global, past: u16) -> Result<Vec<FrameRecord>, AllocError>
        requires { past ≤ 256 }
        ensures { IfOk result (λ v. v.items ≡ records_below self.now.machine.own.state.records past) }
    {
        let mut records = Vec::new(heap);
        for frame in 0..past {
            records.push(self.machine.record(frame as u8))?;
        }
        Ok(records)
    }

    /// FRAMES: the records of the machine's frames.
    pub fn frames(&self, heap: Global) -> Result<Answer, AllocError>
        ensures { IfOk result (ShowsFrames (records_below self.now.machine.own.state.records self.now.machine.own.state.config.frames)) }
    {
        Ok(Answer::Frames(self.records(heap, self.machine.frames())?))
    }

    /// QUEUES: the lines that show the frames of the policy.
    pub fn queues(&self, heap: Global) -> Result<Answer, AllocError>
        ensures { IfOk result (ShowsLines (P.ShowFrames.lines self.now.machine.own.policy)) }
    {
        Ok(Answer::Lines(self.machine.policy().lines(heap)?))
    }

    /// PAIRS: the line that shows the pairs of the translator.
    pub fn pairs(&self, heap: Global) -> Result<Answer, AllocError>
        ensures { IfOk result (ShowsLines (pairs_line (T.ShowPairs.layers self.now.machine.own.translator))) }
    {
        Ok(Answer::Lines(pairs_line(heap, self.machine.translator())?))
    }

    /// STATE: six digests of the whole board.
    pub fn state(&self, heap: Global) -> Result<Answer, AllocError>
        ensures { IfOk result (λ answer. answer ≡ State (digests_of S.PageStore.rules (world T.Translator P.Policy S.PageStore self.now) (P.ShowFrames.lines self.now.machine.own.policy) (pairs_line (T.ShowPairs.layers self.now.machine.own.translator)))) }
    {
        let records = self.records(heap, 256)?;
        let lines = self.machine.policy().lines(heap)?;
        let pairs = pairs_line(heap, self.machine.translator())?;
        Ok(Answer::State(Digests {
            storage: digest_of(&self.storage),
            keys: digest_of(self.machine.keys()),
            frames: digest_of_records(&records),
            policy: digest_of(lines.as_bytes()),
            pairs: digest_of(pairs.as_bytes()),
            store: digest_of_slots(self.machine.page_store()),
        }))
    }
}
