//! A lookaside pair: a page, and where its frame starts.
ghost use Rattle.std.specs.Prelude.{ℕ, Some};
ghost use Rattle.translation.specs.Printed.{pair_text};

use recency::Keyed;
use std::fmt;

/// A page, counted in pages of the size that control word 0 names, and the real address of its first byte.
#[derive(Clone, Copy, Debug, PartialEq, Eq)]
pub struct Pair {
    pub page: u32,
    pub start: usize,
}

/// A pair's key is its page.
impl Keyed for Pair {
    ghost key_of = { λ p. p.page };

    fn key(&self) -> u32 {
        self.page
    }
}

/// As `8:4096`.
impl fmt::Display for Pair {
    ghost output = { λ p. Some (pair_text p) };

    fn fmt<W: fmt::Write>(&self, f: &mut fmt::Formatter<W>) -> fmt::Result {
        let Pair { page, start } = self;
        write!(f, "{page}:{start}")
    }
}
