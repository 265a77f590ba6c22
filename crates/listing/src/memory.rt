//! Bytes of main storage, as an operator sees and alters them.
ghost use Rattle.std.specs.Prelude.{◌≡◌, length, if◌then◌else◌, Some, None, MatchBool};
ghost use Rattle.std.specs.Option.{option_map};
ghost use Rattle.storage.specs.Bytes.{fits};
ghost use Rattle.listing.specs.Memory.{Altered, bytes_at};

/// The `count` bytes at `at`, or none where not all of them are in storage.
pub fn displayed(storage: &[u8], at: usize, count: usize) -> Option<&[u8]>
    ensures { option_map (λ x. x.now) result ≡ (if fits count storage.now at then Some (bytes_at storage.now at count) else None) }
{
    storage::bytes(storage, at, count)
}

/// Puts bytes at `at`; false, and storage as it was, where not all of them would be in storage.
pub fn altered(storage: &mut [u8], at: usize, bytes: &[u8]) -> bool
    ensures answer { result ≡ fits (length bytes.now) storage.old at }
    ensures after { MatchBool result (Altered storage.old at bytes.now storage.new) (storage.new ≡ storage.old) }
{
    storage::put_bytes(storage, at, bytes)
}
