//! IPL and the calls of the machine at the console.
ghost use Rattle.std.specs.Prelude.{◌≡◌, true, IfOk, OnErr};
ghost use Rattle.layout.specs.Config.{config_with};
ghost use Rattle.machine.specs.Machine.{world as machine_world};
ghost use Rattle.model.specs.Ipl.{ipl as ipl_rule};
ghost use Rattle.model.specs.Steps.{fix as fix_rule, free as free_rule, load as load_rule, purge as purge_rule, settle as settle_rule, store as store_rule};
ghost use Rattle.script.specs.declared.verb.Verb.TheVariants.{Fix, Free, Purge, Settle, Store};
ghost use Rattle.console.specs.Answers.{call_said, ipl_said, load_said};
ghost use Rattle.console.specs.Boards.{prepared, Works, world};

use crate::answer::Answer;
use crate::board::Board;
use layout::Sizes;
use model::calls::Refusal;
use model::shape::Partition;
use parts::held::ShowFrames;
use parts::marks::Marked;
use parts::pairs::ShowPairs;
use script::verb::Verb;
use std::alloc::{AllocError, Global};
use storage::PAGE;

// What a call that gives nothing is answered with.
fn said(verb: Verb, answer: Result<(), Refusal>) -> Answer
    ensures { result ≡ call_said verb answer }
{
    match answer {
        Ok(()) => Answer::Done(verb),
        Err(why) => Answer::Refused(verb, why.into()),
    }
}

impl<T: ShowPairs, P: ShowFrames, S: Marked> Board<T, P, S> {
    // Makes main storage anew for so many frames, where no STORAGE gave it a length and there are at most 256.
    fn prepare(&mut self, heap: Global, frames: u32) -> Result<(), AllocError>
        ensures done { IfOk result (λ _. self.new.storage.items ≡ prepared self.old.sized frames self.old.storage.items) }
        ensures failed { OnErr result (self.new.storage ≡ self.old.storage) }
        ensures kept { (self.new.machine ≡ self.old.machine) × (self.new.sized ≡ self.old.sized) }
    {
        if !self.sized && frames <= 256 {
            self.storage = vec![in heap; 0u8; PAGE * frames as usize]?;
        }
        Ok(())
    }

    /// IPL: starts the machine. Where no STORAGE gave main storage a length, it is first made anew for the frames, up to
    /// 256 of them.
    pub fn ipl(
        &mut self,
        heap: Global,
        sizes: Sizes,
        partitions: &[Partition],
    ) -> Result<Answer, AllocError>
        ensures rule { IfOk result (λ answer. Works T.Translator P.Policy S.PageStore ipl_said (λ q w. ipl_rule q (config_with sizes partitions.now) w) answer (machine_world T.Translator P.Policy S.PageStore self.old.machine (prepared self.old.sized sizes.frames self.old.storage.items)) (world T.Translator P.Policy S.PageStore self.new)) }
        ensures failed { OnErr result ((self.new.machine ≡ self.old.machine) × (self.new.storage ≡ self.old.storage)) }
        ensures kept { self.new.sized ≡ self.old.sized }
    {
        self.prepare(heap, sizes.frames)?;
        match self.machine.ipl(&mut self.storage, sizes, partitions) {
            Ok(()) => Ok(Answer::Done(Verb::Ipl)),
            Err(why) => Ok(Answer::NotStarted(why)),
        }
    }

    /// LOAD: the byte at a virtual address.
    pub fn load(&mut self, address: u32, key: u8) -> Answer
        ensures rule { Works T.Translator P.Policy S.PageStore load_said (λ q w. load_rule q address key w) result (world T.Translator P.Policy S.PageStore self.old) (world T.Translator P.Policy S.PageStore self.new) }
        ensures kept { self.new.sized ≡ self.old.sized }
    {
        match self.machine.load(&mut self.storage, address, key) {
            Ok(byte) => Answer::Byte(byte),
            Err(why) => Answer::Refused(Verb::Load, why.into()),
        }
    }

    /// STORE: puts a byte at a virtual address.
    pub fn store(&mut self, address: u32, key: u8, byte: u8) -> Answer
        ensures rule { Works T.Translator P.Policy S.PageStore (call_said Store) (λ q w. store_rule q address key byte w) result (world T.Translator P.Policy S.PageStore self.old) (world T.Translator P.Policy S.PageStore self.new) }
        ensures kept { self.new.sized ≡ self.old.sized }
    {
        let answer = self.machine.store(&mut self.storage, address, key, byte);
        said(Verb::Store, answer)
    }

    /// FIX: fixes a page in its frame.
    pub fn fix(&mut self, page: u32) -> Answer
        ensures rule { Works T.Translator P.Policy S.PageStore (call_said Fix) (λ q w. fix_rule q page w) result (world T.Translator P.Policy S.PageStore self.old) (world T.Translator P.Policy S.PageStore self.new) }
        ensures kept { self.new.sized ≡ self.old.sized }
    {
        let answer = self.machine.fix(&mut self.storage, page);
        said(Verb::Fix, answer)
    }

    /// FREE: takes one FIX back.
    pub fn free(&mut self, page: u32) -> Answer
        ensures rule { Works T.Translator P.Policy S.PageStore (call_said Free) (λ q w. free_rule q page w) result (world T.Translator P.Policy S.PageStore self.old) (world T.Translator P.Policy S.PageStore self.new) }
        ensures kept { self.new.sized ≡ self.old.sized }
    {
        let answer = self.machine.free(&self.storage, page);
        said(Verb::Free, answer)
    }

    /// PURGE: ends the lookaside pairs that do not agree with the tables.
    pub fn purge(&mut self) -> Answer
        ensures rule { Works T.Translator P.Policy S.PageStore (call_said Purge) (λ q w. purge_rule q w) result (world T.Translator P.Policy S.PageStore self.old) (world T.Translator P.Policy S.PageStore self.new) }
        ensures kept { self.new.sized ≡ self.old.sized }
    {
        let answer = self.machine.purge(&self.storage);
        said(Verb::Purge, answer)
    }

    /// SETTLE: writes every changed page to its slot.
    pub fn settle(&mut self) -> Answer
        ensures rule { Works T.Translator P.Policy S.PageStore (call_said Settle) (λ q w. settle_rule q w) result (world T.Translator P.Policy S.PageStore self.old) (world T.Translator P.Policy S.PageStore self.new) }
        ensures kept { self.new.sized ≡ self.old.sized }
    {
        let answer = self.machine.settle(&mut self.storage);
        said(Verb::Settle, answer)
    }
}
