//! The two tables: what each entry is after IPL, how they are written, and whether storage still has them.
ghost use Rattle.std.specs.Prelude.{◌≡◌, ◌+◌, ◌*◌, ◌<◌, ◌≤◌, IfOk, IfSome, OnOk, ◌==◌};
ghost use Rattle.std.specs.Option.{unwrap_or};
ghost use Rattle.model.specs.Ipl.{first_entry, with_entries, with_segments, with_tables};
ghost use Rattle.model.specs.Layout.{controls_of, key_of, page_is, segment_at, segment_entries, segment_word, segments, segments_are};
ghost use Rattle.model.specs.Refusals.{page_key};
ghost use Rattle.storage.specs.Bytes.{word};
ghost use Rattle.layout.specs.Config.{IsBounded};

use crate::Layout;
use crate::entries::{entry_is, put_entry};
use model::calls::Refusal;
use storage::Number;
use tables::Controls;

// Where the entry of a segment stands.
fn segment_place(segment: u16) -> usize
    ensures { result ≡ 1024 + 4 * segment }
{
    1024 + 4 * segment as usize
}

impl Layout {
    /// How many segments of 32 pages the virtual pages take.
    pub fn segments(&self) -> u16
        ensures value { result ≡ segments self.now }
        ensures most { result ≤ 256 }
    {
        self.pages.div_ceil(32)
    }

    // How many entries the segment table has.
    fn segment_entries(&self) -> u16
        ensures { result ≡ segment_entries self.now }
    {
        16 * self.segments().div_ceil(16)
    }

    /// The control words.
    pub fn controls(&self) -> Controls
        ensures { result ≡ controls_of self.now }
    {
        let length = self.segments().saturating_sub(1) as u32 / 16;
        Controls {
            cr0: 0x0040_0000,
            cr1: 0x0100_0000 * length + 1024,
        }
    }

    /// The access key of a partition page: 5 for a page past the last or of no partition, 4 for one of the supervisor.
    pub fn page_key(&self, page: u32) -> Result<u8, Refusal>
        ensures answer { result ≡ page_key self.now page }
        ensures low { IfOk result (λ key. key ≤ 15) }
        ensures within { OnOk result (page < 8192) }
    {
        if page >= self.pages as u32 {
            return Err(Refusal::Addressing);
        }
        if page < self.supervisor as u32 {
            return Err(Refusal::Protection);
        }
        self.partitions.key_of(page).ok_or(Refusal::Addressing)
    }

    /// The access key of the partition that a page is in.
    pub fn key_of(&self, page: u16) -> Option<u8>
        ensures key { result ≡ key_of self.now.partitions page }
        ensures low { IfSome result (λ key. key ≤ 15) }
        ensures bounds { IsBounded self.now }
    {
        self.partitions.key_of(page as u32)
    }

    /// The storage key of a frame that gets a page: the access key of the page's partition, reference and change bit off.
    /// It is 0 for a page of no partition.
    pub fn storage_key(&self, page: u16) -> u8
        ensures { result ≡ 16 * unwrap_or (key_of self.now.partitions page) 0 }
    {
        16 * self.key_of(page).unwrap_or(0)
    }

    // The entry of a segment.
    fn segment_word(&self, segment: u16) -> u32
        ensures { result ≡ segment_word self.now segment }
    {
        if segment < self.segments() {
            0xF000_0800 + 64 * segment as u32
        } else {
            1
        }
    }

    // The entry that a page has after IPL.
    fn first_entry(&self, page: u16) -> u16
        ensures { result ≡ first_entry self.now page }
    {
        if page < self.supervisor {
            return 8 * page + 1;
        }
        self.key_of(page)
            .map_or(0x8005, |key| 0x0005 + 16 * key as u16)
    }

    // Writes the segment table.
    #[tactic(auto, using(crate::proofs::Made::more), unfolding(model::specs::Ipl::with_segments))]
    fn write_segments(&self, storage: &mut [u8])
        ensures { storage.new ≡ with_segments self.now 0 (segment_entries self.now) storage.old }
    {
        let count = self.segment_entries();
        for segment in 0..count {
            self.segment_word(segment)
                .write(storage, segment_place(segment));
        }
    }

    // Writes the page tables.
    #[tactic(auto, using(crate::proofs::Made::more), unfolding(model::specs::Ipl::with_entries))]
    fn write_entries(&self, storage: &mut [u8])
        ensures { storage.new ≡ with_entries self.now 0 (32 * segments self.now) storage.old }
    {
        let count = 32 * self.segments();
        for page in 0..count {
            put_entry(storage, page, self.first_entry(page));
        }
    }

    /// Writes both tables.
    pub fn write_tables(&self, storage: &mut [u8])
        ensures { storage.new ≡ with_tables self.now storage.old }
    {
        self.write_segments(storage);
        self.write_entries(storage);
    }

    // Whether the entry of a segment is what IPL made it.
    fn segment_right(&self, storage: &[u8], segment: u16) -> bool
        ensures { result ≡ ((word storage.now (segment_at segment)) == segment_word self.now segment) }
    {
        u32::read(storage, segment_place(segment)) == self.segment_word(segment)
    }

    /// Whether the segment table is what IPL made it.
    pub fn segments_are(&self, storage: &[u8]) -> bool
        ensures { result ≡ segments_are self.now storage.now 0 (segment_entries self.now) }
    {
        (0..self.segment_entries()).all(|segment| self.segment_right(storage, segment))
    }

    /// Whether the segment entry of a page is what IPL made it, and its page entry is this one, bit 15 aside.
    pub fn page_is(&self, storage: &[u8], page: u16, value: u16) -> bool
        ensures { result ≡ page_is self.now storage.now page value }
    {
        self.segment_right(storage, page / 32) && entry_is(storage, page, value)
    }
}
