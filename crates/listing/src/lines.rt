//! Lines that list things.
ghost use Rattle.std.specs.Prelude.{◌≡◌, ℕ, List, IfOk, Some, string_bytes};
ghost use Rattle.listing.specs.Lines.{listed};

use std::alloc::{AllocError, Global};
use std::fmt;

/// A line of things behind what it starts with, a blank in front of each.
pub fn listed<D: fmt::Display>(heap: Global, start: &str, items: &[D]) -> Result<String, AllocError>
    ensures { (text : D → List ℕ) → ((x : D) → D.Display.output x ≡ Some (text x)) → IfOk result (λ t. string_bytes t ≡ listed text start.now items.now) }
{
    let mut line = String::from_str(heap, start)?;
    for item in items {
        line.push_str(format!(in heap; " {item}")?.as_str())?;
    }
    Ok(line)
}
