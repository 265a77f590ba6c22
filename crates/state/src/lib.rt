//! What a machine keeps of its frames and pages, apart from storage keys and its three parts: what IPL was given, and the
//! frame table. `decode` has the tests of the six calls, in the order of their refusals; `tables_right` what they ask of the
//! tables in main storage; `changes` what the calls change.
#![tactic(auto)]

pub mod changes;
pub mod decode;
mod state;
pub mod tables_right;

pub use state::State;
