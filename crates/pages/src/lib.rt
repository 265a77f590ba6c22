//! Page stores: up to 8,192 slots of 2,048 bytes, each good or bad. The trait `PageStore` says what every kind of store
//! means and does; a kind of store is proved to meet it once, and what is built over page stores cites the trait alone.
#![tactic(auto)]

pub mod call;
pub mod fault;
pub mod runs;
pub mod store;
