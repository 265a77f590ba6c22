//! What an operator sees of the parts of a machine, and changes in its page store before the machine starts: the frames
//! that a policy holds, the pairs of a translator, and the area and the marks of a page store.
//!
//! `ShowFrames`, `ShowPairs` and `Marked` are interfaces above `Policy`, `Translator` and `PageStore`; each kind has them.
#![tactic(auto)]

pub mod held;
pub mod marks;
pub mod pairs;
