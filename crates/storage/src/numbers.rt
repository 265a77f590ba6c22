//! Numbers in storage, of two and of four bytes, with the high byte first.
ghost use Rattle.std.specs.Prelude.{◌≡◌, ℕ, ◌+◌, ◌^◌, ◌<◌, List, if◌then◌else◌, Some, None, slice_index, slice_set};
ghost use Rattle.storage.specs.Bytes.{fits, half, put_half, put_word, word};
ghost use Rattle.storage.specs.Numbers.{NumberLaws, half_laws, word_laws};

use crate::{byte, holds, put_byte};

// The byte `by` places after `at`; 0 past the end of storage. (`at + by` may be past the largest `usize`.)
fn byte_after(storage: &[u8], at: usize, by: usize) -> u8
    ensures { result ≡ slice_index storage.now (at + by) }
{
    if by < storage.len().saturating_sub(at) {
        storage[at + by]
    } else {
        0
    }
}

// Puts a byte `by` places after `at`; storage as it was past its end.
fn put_byte_after(storage: &mut [u8], at: usize, by: usize, value: u8)
    ensures { storage.new ≡ slice_set storage.old (at + by) value }
{
    if by < storage.len().saturating_sub(at) {
        storage[at + by] = value;
    }
}

/// A number that can stand in storage, at any place.
pub trait Number: Copy {
    /// How many bytes it has.
    const BYTES: usize;

    ghost BYTES: { ℕ };

    /// Says of a number that so many bytes hold it.
    ghost small: { Self → Type 0 };

    /// The number at a place, where a byte past the end of storage counts as 0.
    ghost number_at: { List ℕ → ℕ → Self };

    /// Storage with a number put at a place, where a byte past the end of storage is dropped.
    ghost with_number: { List ℕ → ℕ → Self → List ℕ };

    /// The number at `at`, where a byte past the end of storage counts as 0.
    fn read(storage: &[u8], at: usize) -> Self
        ensures { result ≡ number_at storage.now at };

    /// Puts the number at `at`. A byte of it that would stand past the end of storage is dropped.
    fn write(self, storage: &mut [u8], at: usize)
        ensures { storage.new ≡ with_number storage.old at self };

    /// What a read gives over a write.
    ghost laws: { NumberLaws BYTES small number_at with_number };
}

impl Number for u16 {
    const BYTES: usize = 2;

    ghost BYTES = { 2 };

    ghost small = { λ n. n < 2 ^ 16 };

    ghost number_at = { half };

    ghost with_number = { put_half };

    ghost laws = { half_laws };

    fn read(storage: &[u8], at: usize) -> u16 {
        u16::from_be_bytes([byte(storage, at), byte_after(storage, at, 1)])
    }

    fn write(self, storage: &mut [u8], at: usize) {
        let [high, low] = self.to_be_bytes();
        put_byte(storage, at, high);
        put_byte_after(storage, at, 1, low);
    }
}

impl Number for u32 {
    const BYTES: usize = 4;

    ghost BYTES = { 4 };

    ghost small = { λ n. n < 2 ^ 32 };

    ghost number_at = { word };

    ghost with_number = { put_word };

    ghost laws = { word_laws };

    fn read(storage: &[u8], at: usize) -> u32 {
        u32::from_be_bytes([
            byte(storage, at),
            byte_after(storage, at, 1),
            byte_after(storage, at, 2),
            byte_after(storage, at, 3),
        ])
    }

    fn write(self, storage: &mut [u8], at: usize) {
        let [first, second, third, last] = self.to_be_bytes();
        put_byte(storage, at, first);
        put_byte_after(storage, at, 1, second);
        put_byte_after(storage, at, 2, third);
        put_byte_after(storage, at, 3, last);
    }
}

/// The number at `at`, or none where it does not stand wholly in storage.
pub fn read_number<N: Number>(storage: &[u8], at: usize) -> Option<N>
    ensures { result ≡ (if fits N.Number.BYTES storage.now at then Some (N.Number.number_at storage.now at) else None) }
{
    holds(storage, at, N::BYTES).then(|| N::read(storage, at))
}

/// Puts a number at `at`; false, and storage as it was, where it would not stand wholly in storage.
pub fn put_number<N: Number>(storage: &mut [u8], at: usize, value: N) -> bool
    ensures answer { result ≡ fits N.Number.BYTES storage.old at }
    ensures after { storage.new ≡ (if fits N.Number.BYTES storage.old at then N.Number.with_number storage.old at value else storage.old) }
{
    let there = holds(storage, at, N::BYTES);
    if there {
        value.write(storage, at);
    }
    there
}
