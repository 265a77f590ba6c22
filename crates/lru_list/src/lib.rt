//! A frame policy that takes the frame whose last use is longest ago.
#![tactic(auto)]

mod list;
mod policy;

pub use list::LruList;
