//! The operator's console: a board with its main storage and its machine, and what each command does to it and answers.
#![tactic(auto)]

pub mod answer;
pub mod board;
pub mod calls;
pub mod marks;
pub mod memory;
pub mod shown;
pub mod store;
