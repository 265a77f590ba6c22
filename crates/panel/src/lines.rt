//! The console: a script's lines, carried out one by one.
use crate::wired::{ByTranslator, Wired};
use console::answer::Answer;
use console::store;
use dataset::data_set::DataSet;
use script::command::{Command, parse};
use script::wiring::{Source, Wiring};
use script::wrong::Wrong;
use std::fs;

/// The board, once one is wired.
#[derive(Drop)]
pub struct Console {
    board: Option<Wired>,
}

impl Console {
    /// Nothing is wired yet.
    pub fn new() -> Console {
        Console { board: None }
    }

    /// Carries a line out. A line with no words has no answer; one that is wrong changes nothing.
    pub fn obey(&mut self, rt: &HostRuntime, line: &[u8]) -> Result<Option<Answer>, Wrong> {
        let Some(command) = parse(rt.alloc(), line)? else {
            return Ok(None);
        };
        self.carry_out(rt, command).map(Some)
    }

    // Carries a command out.
    fn carry_out(&mut self, rt: &HostRuntime, command: Command) -> Result<Answer, Wrong> {
        match command {
            Command::Help => Ok(Answer::Help),
            Command::Wire(wiring) => self.wire(rt, &wiring),
            other => {
                let board = self.board.as_mut().ok_or(Wrong::NotWired(other.verb()))?;
                board.work(rt, other)
            }
        }
    }

    // Makes a fresh board.
    fn wire(&mut self, rt: &HostRuntime, wiring: &Wiring) -> Result<Answer, Wrong> {
        let board = board_of(rt, wiring)?;
        let answer = board.wired();
        self.board = Some(board);
        Ok(answer)
    }
}

// The board that a WIRE says.
fn board_of(rt: &HostRuntime, wiring: &Wiring) -> Result<Wired, Wrong> {
    let heap = rt.alloc();
    let (policy, translator) = (wiring.policy, wiring.translator);
    match &wiring.source {
        Source::Plain(slots) => {
            let area = store::plain(heap, *slots)?;
            Ok(Wired::Plain(ByTranslator::new(heap, policy, translator, area)))
        }
        Source::Blank(slots) => {
            let set = store::blank(heap, *slots)?;
            Ok(Wired::Set(ByTranslator::new(heap, policy, translator, set)))
        }
        Source::File(path) => {
            let area = fs::read(rt, path.as_str()).map_err(|_| Wrong::Unreadable)?;
            Ok(Wired::Set(ByTranslator::new(heap, policy, translator, DataSet::open(area))))
        }
    }
}
