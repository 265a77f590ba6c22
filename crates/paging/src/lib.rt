//! What is a machine's own, and the page fault that brings a page into a frame.
//!
//! `Own` holds the storage keys, the frame table and the three parts. `bring` gives a page a frame: the frame is taken,
//! emptied, filled and connected, each step one function on the token of the step before.
#![tactic(auto)]

mod bring;
mod own;
mod steps;

pub use own::Own;
