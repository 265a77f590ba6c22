//! A board of any wiring: which translator, policy and page store it has is said by the types below, one for each part.
use crate::commands::work;
use area::PlainArea;
use console::answer::Answer;
use console::board::Board;
use dataset::data_set::DataSet;
use lru_list::LruList;
use parts::marks::Marked;
use parts::pairs::ShowPairs;
use queues::FiveQueues;
use script::command::Command;
use script::wiring::{Policy, Translator};
use script::wrong::Wrong;
use std::alloc::Global;
use translation::{Tlb, Walker};

/// A board of either policy.
#[derive(Drop)]
pub enum ByPolicy<T: ShowPairs, S: Marked> {
    Queues(Board<T, FiveQueues, S>),
    Lru(Board<T, LruList, S>),
}

/// A board of any translator and either policy.
#[derive(Drop)]
pub enum ByTranslator<S: Marked> {
    Walker(ByPolicy<Walker, S>),
    Tlb(ByPolicy<Tlb<Walker>, S>),
    Tlb2(ByPolicy<Tlb<Tlb<Walker>>, S>),
}

/// A board of either kind of page store, any translator and either policy.
#[derive(Drop)]
pub enum Wired {
    Plain(ByTranslator<PlainArea>),
    Set(ByTranslator<DataSet>),
}

impl<T: ShowPairs, S: Marked> ByPolicy<T, S> {
    // A fresh board.
    fn new(heap: Global, policy: Policy, translator: T, store: S) -> ByPolicy<T, S> {
        match policy {
            Policy::Queues => {
                ByPolicy::Queues(Board::new(heap, translator, FiveQueues::new(), store))
            }
            Policy::Lru => ByPolicy::Lru(Board::new(heap, translator, LruList::new(), store)),
        }
    }

    // The answer to the WIRE that made the board.
    fn wired(&self) -> Answer {
        match self {
            ByPolicy::Queues(board) => board.wired(),
            ByPolicy::Lru(board) => board.wired(),
        }
    }

    // Carries a command out.
    fn work(&mut self, rt: &HostRuntime, command: Command) -> Result<Answer, Wrong> {
        match self {
            ByPolicy::Queues(board) => work(rt, board, command),
            ByPolicy::Lru(board) => work(rt, board, command),
        }
    }
}

impl<S: Marked> ByTranslator<S> {
    /// A fresh board.
    pub fn new(heap: Global, policy: Policy, translator: Translator, store: S) -> ByTranslator<S> {
        let walker = Walker::new();
        match translator {
            Translator::Walker => {
                ByTranslator::Walker(ByPolicy::new(heap, policy, walker, store))
            }
            Translator::Tlb => {
                ByTranslator::Tlb(ByPolicy::new(heap, policy, Tlb::over(walker), store))
            }
            Translator::Tlb2 => ByTranslator::Tlb2(ByPolicy::new(
                heap,
                policy,
                Tlb::over(Tlb::over(walker)),
                store,
            )),
        }
    }

    // The answer to the WIRE that made the board.
    fn wired(&self) -> Answer {
        match self {
            ByTranslator::Walker(board) => board.wired(),
            ByTranslator::Tlb(board) => board.wired(),
            ByTranslator::Tlb2(board) => board.wired(),
        }
    }

    // Carries a command out.
    fn work(&mut self, rt: &HostRuntime, command: Command) -> Result<Answer, Wrong> {
        match self {
            ByTranslator::Walker(board) => board.work(rt, command),
            ByTranslator::Tlb(board) => board.work(rt, command),
            ByTranslator::Tlb2(board) => board.work(rt, command),
        }
    }
}

impl Wired {
    /// The answer to the WIRE that made the board.
    pub fn wired(&self) -> Answer {
        match self {
            Wired::Plain(board) => board.wired(),
            Wired::Set(board) => board.wired(),
        }
    }

    /// Carries a command out.
    pub fn work(&mut self, rt: &HostRuntime, command: Command) -> Result<Answer, Wrong> {
        match self {
            Wired::Plain(board) => board.work(rt, command),
            Wired::Set(board) => board.work(rt, command),
        }
    }
}
