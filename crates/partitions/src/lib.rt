//! The partitions of a machine: at most five, each with its first page, its number of pages and its access key.
#![tactic(auto)]

mod list;

pub use list::Partitions;
