//! Main storage at the console, and the walk of the tables that stand in it.
ghost use Rattle.std.specs.Prelude.{◌≡◌, length, replicate, true, IfOk, MatchBool, MatchResult};
ghost use Rattle.std.specs.Option.{unwrap_or};
ghost use Rattle.storage.specs.Bytes.{fits};
ghost use Rattle.tables.specs.Walk.{walk as walk_of};
ghost use Rattle.console.specs.Answers.{alter_answer, Displays, ShowsControls, walked};
ghost use Rattle.console.specs.declared.answer.Answer.TheVariants.{Done};
ghost use Rattle.listing.specs.Memory.{Altered};
ghost use Rattle.script.specs.declared.verb.Verb.TheVariants.{Storage};

use crate::answer::Answer;
use crate::board::Board;
use listing::hexadecimal::hex_text;
use listing::memory::{altered, displayed};
use parts::held::ShowFrames;
use parts::marks::Marked;
use parts::pairs::ShowPairs;
use script::verb::Verb;
use std::alloc::{AllocError, Global};
use tables::{Controls, Refusal, walk};

impl<T: ShowPairs, P: ShowFrames, S: Marked> Board<T, P, S> {
    /// STORAGE: main storage anew, of so many zero bytes.
    pub fn make_storage(&mut self, heap: Global, bytes: u32) -> Result<Answer, AllocError>
        ensures answer { IfOk result (λ answer. answer ≡ Done Storage) }
        ensures after { MatchResult result (λ _. self.new.storage.items ≡ replicate bytes 0) (λ _. self.new.storage ≡ self.old.storage) }
        ensures sized { MatchResult result (λ _. self.new.sized ≡ true) (λ _. self.new.sized ≡ self.old.sized) }
        ensures kept { self.new.machine ≡ self.old.machine }
    {
        self.storage = vec![in heap; 0u8; bytes as usize]?;
        self.sized = true;
        Ok(Answer::Done(Verb::Storage))
    }

    /// DISPLAY: bytes of main storage.
    pub fn display(&self, heap: Global, address: u32, count: u32) -> Result<Answer, AllocError>
        ensures { IfOk result (Displays self.now.storage.items address count) }
    {
        match displayed(&self.storage, address as usize, count as usize) {
            Some(bytes) => Ok(Answer::Bytes(address, hex_text(heap, bytes)?)),
            None => Ok(Answer::Refused(Verb::Display, Refusal::Addressing.into())),
        }
    }

    /// ALTER: puts bytes into main storage.
    pub fn alter(&mut self, address: u32, bytes: &[u8]) -> Answer
        ensures answer { result ≡ alter_answer (fits (length bytes.now) self.old.storage.items address) }
        ensures after { MatchBool (fits (length bytes.now) self.old.storage.items address) (Altered self.old.storage.items address bytes.now self.new.storage.items) (self.new.storage.items ≡ self.old.storage.items) }
        ensures kept { (self.new.machine ≡ self.old.machine) × (self.new.sized ≡ self.old.sized) }
    {
        if altered(&mut self.storage, address as usize, bytes) {
            Answer::Done(Verb::Alter)
        } else {
            Answer::Refused(Verb::Alter, Refusal::Addressing.into())
        }
    }

    /// WALK: the walk of the tables, with these control words or the machine's own.
    pub fn walk(&self, address: u32, controls: Option<Controls>) -> Answer
        ensures { result ≡ walked (walk_of self.now.storage.items (unwrap_or controls (T.Translator.rules.controls (T.Translator.model self.now.machine.own.translator))) address) }
    {
        let words = controls.unwrap_or(self.machine.controls());
        match walk(&self.storage, words, address) {
            Ok(real) => Answer::Real(real),
            Err(why) => Answer::Refused(Verb::Walk, why.into()),
        }
    }

    /// CONTROLS: both control words.
    pub fn show_controls(&self, heap: Global) -> Result<Answer, AllocError>
        ensures { IfOk result (ShowsControls (T.Translator.rules.controls (T.Translator.model self.now.machine.own.translator)).cr0 (T.Translator.rules.controls (T.Translator.model self.now.machine.own.translator)).cr1) }
    {
        let words = self.machine.controls();
        let cr0 = hex_text(heap, &words.cr0.to_be_bytes())?;
        let cr1 = hex_text(heap, &words.cr1.to_be_bytes())?;
        Ok(Answer::Words(cr0, cr1))
    }
}
