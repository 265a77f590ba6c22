//! The calls of the frame table.
ghost use Rattle.std.specs.Prelude.{◌≡◌, ℕ, ◌+◌, ◌-◌, ◌<◌, ◌≤◌, length, replicate, ◌≢◌, nat_lt, slice_set};
ghost use Rattle.std.specs.Borrow.{sem};
ghost use Rattle.model.specs.Ipl.{own_pages};
ghost use Rattle.model.specs.Layout.{fixed_in, fixes_in, found_in, vacant};
ghost use Rattle.table.specs.Table.{record_in, with_fixes, with_page, LendsRecord};

use super::{FrameTable, NO_PAGE};
use model::shape::FrameRecord;

// A table has 256 records by the invariant of its fields. Clauses see the records alone, so `at` and the calls that change
// records say so (`long`).
impl FrameTable {
    /// A table of vacant frames: no page, not fixed.
    pub fn new() -> FrameTable
        ensures { result ≡ replicate 256 vacant }
    {
        FrameTable {
            records: [FrameRecord {
                page: NO_PAGE,
                fixes: 0,
            }; 256],
        }
    }

    /// The record of a frame, lent. When the loan ends the table has it as it was last written, and the others as they
    /// were.
    pub fn record(&mut self, frame: u8) -> &mut FrameRecord
        ensures* follows { sem 𝓛 (LendsRecord self.entry frame result) }
        ensures value { result.now ≡ record_in self.old frame }
        ensures long { length self.old ≡ 256 }
    {
        &mut self.records[usize::from(frame)]
    }

    /// The record of a frame, copied.
    pub fn at(&self, frame: u8) -> FrameRecord
        ensures value { result ≡ record_in self.now frame }
        ensures long { length self.now ≡ 256 }
    {
        self.records[usize::from(frame)]
    }

    /// Another record for a frame.
    pub fn put(&mut self, frame: u8, content: FrameRecord)
        ensures one { self.new ≡ slice_set self.old frame content }
        ensures others { (k : ℕ) → (k ≢ frame) → record_in self.new k ≡ record_in self.old k }
        ensures long { length self.old ≡ 256 }
    {
        *self.record(frame) = content;
    }

    /// Another page for a frame; its fix count stays.
    pub fn set_page(&mut self, frame: u8, page: u16)
        ensures one { self.new ≡ with_page self.old frame page }
        ensures others { (k : ℕ) → (k ≢ frame) → record_in self.new k ≡ record_in self.old k }
        ensures long { length self.old ≡ 256 }
    {
        self.record(frame).page = page;
    }

    /// Another fix count for a frame; its page stays.
    pub fn set_fixes(&mut self, frame: u8, fixes: u8)
        ensures one { self.new ≡ with_fixes self.old frame fixes }
        ensures others { (k : ℕ) → (k ≢ frame) → record_in self.new k ≡ record_in self.old k }
        ensures long { length self.old ≡ 256 }
    {
        self.record(frame).fixes = fixes;
    }

    /// The first frame with this page of those from `first` up to and without `past`. The search does not go past the
    /// table: it ends at frame 255 where `past` is more than 256.
    pub fn find(&self, page: u16, first: u16, past: u16) -> Option<u8>
        ensures found { past ≤ 256 → result ≡ found_in self.now page first (past - first) }
        ensures end { 256 < past → result ≡ found_in self.now page first (256 - first) }
    {
        (first..past.min(256))
            .map(|f| f as u8)
            .find(|&f| self.at(f).page == page)
    }

    /// How many of the frames from `first` up to and without `past` have a fixed page. There is none past the table.
    pub fn count_fixed(&self, first: u16, past: u16) -> u16
        ensures { result ≡ fixed_in self.now first (past - first) }
    {
        (first..past).filter(|&f| self.is_fixed(f)).count() as u16
    }

    // A frame has a fixed page.
    fn is_fixed(&self, frame: u16) -> bool
        ensures { result ≡ nat_lt 0 (fixes_in self.now frame) }
    {
        self.records
            .get(usize::from(frame))
            .is_some_and(|r| r.fixes > 0)
    }

    /// The first `count` frames get pages of their own numbers, not fixed: all 256 of them where `count` is more.
    pub fn own_pages(&mut self, count: u16)
        ensures records { self.new ≡ own_pages 0 count self.old }
        ensures long { length self.old ≡ 256 }
    {
        let own = usize::from(count.min(256));
        for (f, record) in self.records[..own].iter_mut().enumerate() {
            *record = FrameRecord {
                page: f as u16,
                fixes: 0,
            };
        }
    }
}

#[cfg(test)]
mod tests {
    use super::FrameTable;

    #[test]
    fn lends_one(rt: HostRuntime) {
        let mut table = FrameTable::new();
        table.record(3).page = 7;
        table.set_fixes(3, 2);
        table.set_page(255, 9);
        assert_eq!(rt; table.at(3).page, 7);
        assert_eq!(rt; table.at(3).fixes, 2);
        assert_eq!(rt; table.at(255).page, 9);
        assert_eq!(rt; table.at(4).page, 0xFFFF);
    }

    #[test]
    fn finds_and_counts(rt: HostRuntime) {
        let mut table = FrameTable::new();
        table.own_pages(4);
        table.set_page(200, 2);
        table.set_fixes(200, 1);
        assert_eq!(rt; table.find(2, 0, 256), Some(2));
        assert_eq!(rt; table.find(2, 3, 256), Some(200));
        assert_eq!(rt; table.find(2, 3, 200), None);
        assert_eq!(rt; table.count_fixed(0, 256), 1);
    }
}
