//! Main storage: one byte area that is handed to each call. Numbers of two and four bytes have the high byte first and
//! may stand at any place; a page is 2,048 bytes, a frame a page at a multiple of 2,048.
//!
//! Each access says by its answer whether what it names stands wholly in storage. What it reads and leaves is given by the
//! definitions of `specs/Bytes.antt`; what a read gives over a write, by the laws of `specs/Laws.antt` and, for numbers of
//! either width, of `specs/Numbers.antt`, so that nothing above this crate reasons about parts of lists.
#![tactic(auto)]

mod numbers;

ghost use Rattle.std.specs.Prelude.{◌≡◌, ◌+◌, ◌&&◌, ◌++◌, length, take, drop, if◌then◌else◌, Some, None, ◌==◌, slice_index, slice_set};
ghost use Rattle.std.specs.Option.{option_map};
ghost use Rattle.storage.specs.Bytes.{fits, page_at, put_page, zeros};
ghost use Rattle.storage.specs.Laws.{Elsewhere, Laws};

pub use numbers::{Number, put_number, read_number};

/// Bytes in a page, a frame of main storage and a slot of a page store.
pub const PAGE: usize = 2048;

/// Whether the `count` bytes at `at` stand wholly in storage.
pub fn holds(storage: &[u8], at: usize, count: usize) -> bool
    ensures { result ≡ fits count storage.now at }
{
    at <= storage.len() && count <= storage.len() - at
}

/// The byte at `at`; 0 past the end of storage.
pub fn byte(storage: &[u8], at: usize) -> u8
    ensures { result ≡ slice_index storage.now at }
{
    storage.get(at).copied().unwrap_or(0)
}

/// Puts a byte at `at`; storage as it was past its end.
pub fn put_byte(storage: &mut [u8], at: usize, value: u8)
    ensures { storage.new ≡ slice_set storage.old at value }
{
    if at < storage.len() {
        storage[at] = value;
    }
}

/// The `count` bytes at `at`, or none where they do not stand wholly in storage.
pub fn bytes(storage: &[u8], at: usize, count: usize) -> Option<&[u8]>
    ensures { option_map (λ x. x.now) result ≡ (if fits count storage.now at then Some (take count (drop at storage.now)) else None) }
{
    if !holds(storage, at, count) {
        return None;
    }
    Some(&storage[at..at + count])
}

/// Puts bytes at `at`; false, and storage as it was, where they would not stand wholly in storage.
pub fn put_bytes(storage: &mut [u8], at: usize, bytes: &[u8]) -> bool
    ensures answer { result ≡ fits (length bytes.now) storage.old at }
    ensures after { storage.new ≡ (if result then take at storage.old ++ (bytes.now ++ drop (at + length bytes.now) storage.old) else storage.old) }
{
    if !holds(storage, at, bytes.len()) {
        return false;
    }
    storage[at..at + bytes.len()].copy_from_slice(bytes);
    true
}

/// The 2,048 bytes at `at`, or none where they do not stand wholly in storage.
pub fn page(storage: &[u8], at: usize) -> Option<&[u8]>
    ensures { option_map (λ x. x.now) result ≡ page_at storage.now at }
{
    bytes(storage, at, PAGE)
}

/// Puts a page at `at`; false, and storage as it was, where it would not stand wholly in storage or is not 2,048 bytes long.
pub fn put_page(storage: &mut [u8], at: usize, page: &[u8]) -> bool
    ensures answer { result ≡ (length page.now == 2048 && fits 2048 storage.old at) }
    ensures after { storage.new ≡ (if result then put_page storage.old at page.now else storage.old) }
{
    page.len() == PAGE && put_bytes(storage, at, page)
}

/// Puts 2,048 zero bytes at `at`; false, and storage as it was, where they would not stand wholly in storage.
pub fn clear_page(storage: &mut [u8], at: usize) -> bool
    ensures answer { result ≡ fits 2048 storage.old at }
    ensures after { storage.new ≡ (if result then put_page storage.old at zeros else storage.old) }
{
    if !holds(storage, at, PAGE) {
        return false;
    }
    storage[at..at + PAGE].fill(0);
    true
}

/// The laws of reading over writing, with none of which a program is concerned: they hold of the definitions that every
/// contract above cites. Answers the bytes in a page.
pub fn laws() -> usize
    ensures page_size { result ≡ 2048 }
    ensures laws { Laws }
    ensures elsewhere { Elsewhere }
{
    PAGE
}
