//! The TLB: eight lookaside pairs over any translator.
ghost use Rattle.std.specs.Prelude.{◌≤◌, length};

use crate::pair::Pair;
use recency::RecencyList;

/// A layer of eight pairs over a translator. The pairs held stand in the order of their use, the first to go first.
#[derive(Drop)]
pub struct Tlb<T> {
    below: T,
    pairs: RecencyList<Pair, 8>,
    // what the law `valid` of a translator asks; it does not see what the type of `pairs` keeps
    ghost few: { length pairs ≤ 8 },
}

mod calls;
