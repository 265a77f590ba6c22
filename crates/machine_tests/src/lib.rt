//! Tests of IPL and of the six calls: each refusal at its edge, and the order of two that hold at once. Each expected
//! value is worked out by hand from docs/RULES.md. Every list of calls is played on two machines that have no part in
//! common.
#![tactic(auto)]

#[cfg(test)]
mod boards;
#[cfg(test)]
mod calls;
#[cfg(test)]
mod ipl;
#[cfg(test)]
mod lengths;
#[cfg(test)]
mod limits;
#[cfg(test)]
mod played;
#[cfg(test)]
mod runs_on;
#[cfg(test)]
mod wrong_tables;
