//! Examples of scripts and of boards, in a crate of their own so that theirs are proved once.
#![tactic(auto)]

#[cfg(test)]
mod boards;
#[cfg(test)]
mod scripts;
