//! The machine: IPL and the six calls, over any translator, policy and page store.
//!
//! Main storage is handed to each call; all else is the machine's own. Each call first tests, by `state::decode`, and is
//! then refused with everything as found, or carried out to its end. What it answers and leaves is the rule of the same
//! name in the specs of `model`, of the machine and the storage handed in.
//!
//! ```text
//! let mut machine = Machine::new(Tlb::over(Walker::new()), FiveQueues::new(), store);
//! machine.ipl(&mut storage, Sizes { frames: 5, supervisor: 2, pages: 33 }, &partitions)?;
//! machine.store(&mut storage, 16384, 1, 7)?;
//! ```
#![tactic(auto)]

mod calls;
mod frame;
mod ipl;
mod machine;
mod views;

pub use machine::Machine;
