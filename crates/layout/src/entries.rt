//! The entry of a page in main storage.
ghost use Rattle.std.specs.Prelude.{◌≡◌, ◌==◌};
ghost use Rattle.model.specs.Layout.{bit15, entry_at, entry_is};
ghost use Rattle.storage.specs.Bytes.{half, put_half};

use storage::Number;

// Where the entry of a page stands.
fn place(page: u16) -> usize
    ensures { result ≡ entry_at page }
{
    2048 + 2 * page as usize
}

/// The entry of a page.
pub fn entry(storage: &[u8], page: u16) -> u16
    ensures { result ≡ half storage.now (entry_at page) }
{
    u16::read(storage, place(page))
}

/// Puts the entry of a page. A byte of it that would stand past the end of storage is dropped.
pub fn put_entry(storage: &mut [u8], page: u16, value: u16)
    ensures { storage.new ≡ put_half storage.old (entry_at page) value }
{
    value.write(storage, place(page));
}

/// Whether bit 15 of the entry of a page is on: the page was never written out.
pub fn never_written(storage: &[u8], page: u16) -> bool
    ensures { result ≡ (bit15 storage.now page == 1) }
{
    // By remainder, as the definition has it: a mask would read no plainer.
    entry(storage, page) % 2 == 1
}

/// Whether the entry of a page is this one, bit 15 aside.
pub fn entry_is(storage: &[u8], page: u16, value: u16) -> bool
    ensures { result ≡ entry_is storage.now page value }
{
    // By halves, as the definition has it: a mask would read no plainer.
    entry(storage, page) / 2 == value / 2
}
