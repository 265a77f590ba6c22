//! Translators: from a virtual address to a real one, with or without lookaside registers.
//!
//! `Translator` is the interface; its meaning, both control words and its pairs, and what is certain of every translator
//! stand in `specs/Translator.antt`. `Walker` walks the tables each time; `Tlb<T>` keeps eight pairs over any translator.
//! `runs::answer_all` carries the theorem that lookaside registers cannot be told from none.
#![tactic(auto)]

mod pair;
mod runs;
mod tlb;
mod translator;
mod walker;

pub use pair::Pair;
pub use runs::{Ask, Start, Told, answer_all};
pub use tlb::Tlb;
pub use translator::Translator;
pub use walker::Walker;
