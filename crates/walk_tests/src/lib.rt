//! Tests of the walk at the edges of each of its steps, and of translators against it. Each expected value is worked out
//! by hand from docs/RULES.md.
#![tactic(auto)]

#[cfg(test)]
mod tlb;
#[cfg(test)]
mod walk;
