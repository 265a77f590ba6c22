//! The rules of the whole machine and the laws above them.
//!
//! A machine is main storage, storage keys, the frame table, the sizes and partitions given at IPL, and a translator, a
//! policy and a page store of any kind. `specs/` has what IPL and the six calls answer and leave, the flat machine, and
//! the law over whole runs; `proofs/` proves it for every translator, policy and page store. There is hardly any code:
//! `law_stands` carries the theorems.
#![tactic(auto)]

pub mod calls;
pub mod law;
pub mod shape;
