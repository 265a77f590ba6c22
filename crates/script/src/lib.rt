//! Scripts: lines, the numbers and words in them, and the commands that they write.
#![tactic(auto)]

pub mod command;
pub mod number;
pub mod start;
pub mod verb;
pub mod wiring;
pub mod wrong;
