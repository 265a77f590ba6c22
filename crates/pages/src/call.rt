//! The calls of a run.

/// A call that is made of a page store. What a read copies out goes into a buffer of the run's.
#[derive(Drop)]
pub enum Call {
    Read { slot: u32 },
    Write { slot: u32, page: Vec<u8> },
}
