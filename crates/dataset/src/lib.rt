//! A page store of kind 2: a page data set, an area that tells its number of slots and its page size and has a mark for
//! each slot, so that it can be saved and opened again.
#![tactic(auto)]

pub mod data_set;
pub mod mark;
pub mod refusal;
