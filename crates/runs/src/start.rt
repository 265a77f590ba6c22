//! What IPL is given.
use layout::Sizes;
use model::shape::Partition;

/// What IPL is given beside main storage: the sizes and the partitions.
#[derive(Clone, Copy)]
pub struct Start<'a> {
    pub sizes: Sizes,
    pub partitions: &'a [Partition],
}
