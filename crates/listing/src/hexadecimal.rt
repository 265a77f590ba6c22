//! Hexadecimal text, in capitals.
ghost use Rattle.std.specs.Prelude.{◌≡◌, IfOk, string_bytes};
ghost use Rattle.listing.specs.Hexadecimal.{hex_of};

use std::alloc::{AllocError, Global};

/// Two digits for each byte, in order.
pub fn hex_text(heap: Global, bytes: &[u8]) -> Result<String, AllocError>
    ensures { IfOk result (λ t. string_bytes t ≡ hex_of bytes.now) }
{
    hex::encode_upper(heap, bytes)
}
