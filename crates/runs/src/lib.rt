//! Whole runs: IPL of a machine over any translator, policy and page store, and then a list of calls.
//!
//! `work` hands the same main storage to each call. Its contract has the law over whole runs: the answers are those of a
//! flat machine that has nothing but bytes and fix counts. `work_disturbed` hands each call a main storage of its own,
//! whatever it holds; its contract has the law over disturbed runs.
#![tactic(auto)]

pub mod disturbed;
pub mod handed;
pub mod start;
pub mod stopped;
pub mod whole;
