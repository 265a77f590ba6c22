//! The tables of a machine in main storage, as IPL lays them out: where each entry stands and what it is.
//!
//! `Layout` has what IPL was given, tested. It writes the tables, and says of storage whether an entry is still what IPL
//! made it. Storage of any length may be handed in: what is past its end reads as zeros and is not written.
#![tactic(auto)]

pub mod check;
pub mod entries;
pub mod laid;
mod layout;

pub use check::Sizes;
pub use layout::Layout;
