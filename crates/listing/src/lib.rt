//! What an operator sees of bytes: their hexadecimal text, their digest, and the bytes of main storage displayed and altered.
#![tactic(auto)]

pub mod digest;
pub mod entry;
pub mod hexadecimal;
pub mod lines;
pub mod memory;
pub mod records;
pub mod slots;
