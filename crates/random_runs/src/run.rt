//! What a run is made of.
use layout::Sizes;
use model::calls::Refusal;
use model::shape::Partition;
use std::alloc::{AllocError, Global};

/// What IPL is given, and how the calls after it are drawn.
#[derive(Clone, Copy)]
pub struct Run {
    pub sizes: Sizes,
    /// First page, count and key of each partition.
    pub partitions: &'static [(u32, u32, u8)],
    pub seed: u32,
    /// How many of 100 calls are a Fix.
    pub fix: u32,
    /// How many of 100 calls are a Free.
    pub free: u32,
    /// Refusals that have to be met in the run.
    pub refusals: &'static [Refusal],
}

impl Run {
    /// The partitions for IPL.
    pub fn partitions(&self, heap: Global) -> Result<Vec<Partition>, AllocError> {
        let mut list = Vec::new(heap);
        for &(first, count, key) in self.partitions {
            list.push(Partition { first, count, key })?;
        }
        Ok(list)
    }

    /// Main storage for IPL, with some byte everywhere.
    pub fn storage(&self, heap: Global) -> Result<Vec<u8>, AllocError> {
        vec![in heap; 0xAAu8; 2048 * self.sizes.frames as usize]
    }
}
