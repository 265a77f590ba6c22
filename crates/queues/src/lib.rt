//! The frame policy of five queues.
#![tactic(auto)]

mod chain;
mod five;
mod linked;
mod policy;
mod queue;

pub use five::FiveQueues;
pub use queue::Queue;
