//! What the calls change in the frame table.
ghost use Rattle.std.specs.Prelude.{◌≡◌, ℕ, ◌+◌, ◌-◌, ◌<◌, ◌≤◌, IsTrue, min, ◌&&◌, ltb, [], length, replicate, if◌then◌else◌, nat_le, nat_lt};
ghost use Rattle.model.specs.Ipl.{own_pages};
ghost use Rattle.model.specs.Layout.{fixes_in, vacant};
ghost use Rattle.table.specs.Table.{record_in, with_fixes, with_page};

use crate::State;
use layout::Layout;
use model::shape::FrameRecord;
use table::FrameTable;

// What a page with this fix count adds to the number of fixed pages.
fn counts(fixes: u8) -> u16
    ensures value { result ≡ (if ltb 0 fixes then 1 else 0) }
    ensures most { result ≤ 1 }
{
    u16::from(fixes > 0)
}

// Whether a frame is pageable.
pub(crate) fn is_pageable(layout: &Layout, frame: u16) -> bool
    ensures value { result ≡ (nat_le layout.now.supervisor frame && nat_lt frame layout.now.frames) }
    ensures within { IsTrue result → frame < 256 }
{
    (layout.supervisor()..layout.frames()).contains(&frame)
}

impl State {
    /// Before IPL: no frame, no page, no partition, every record vacant.
    #[tactic(auto, using(crate::proofs::Counting::most))]
    pub fn new() -> State
        ensures config { result.config ≡ record { frames = 0; supervisor = 0; pages = 0; partitions = [] } }
        ensures records { result.records ≡ replicate 256 vacant }
    {
        State {
            layout: Layout::none(),
            table: FrameTable::new(),
            fixed: 0,
        }
    }

    /// After IPL: the supervisor's frames have pages of their own numbers, and no page is fixed.
    pub fn started(layout: Layout) -> State
        ensures config { result.config ≡ layout }
        ensures records { result.records ≡ own_pages 0 layout.supervisor (replicate 256 vacant) }
    {
        let mut table = FrameTable::new();
        table.own_pages(layout.supervisor());
        let fixed = table.count_fixed(layout.supervisor(), layout.frames());
        State {
            layout,
            table,
            fixed,
        }
    }

    /// What IPL was given.
    pub fn layout(&self) -> &Layout
        ensures { result.now ≡ self.now.config }
    {
        &self.layout
    }

    /// The record of a frame.
    pub fn record(&self, frame: u8) -> FrameRecord
        ensures value { result ≡ record_in self.now.records frame }
        ensures long { length self.now.records ≡ 256 }
    {
        self.table.at(frame)
    }

    /// Another page for a frame, X'FFFF' for none; its fix count stays, and so do all other records.
    pub fn set_page(&mut self, frame: u8, page: u16)
        ensures config { self.new.config ≡ self.old.config }
        ensures records { self.new.records ≡ with_page self.old.records frame page }
    {
        self.table.set_page(frame, page);
    }

    // Another fix count for a frame, and the number of fixed pages with it.
    #[tactic(auto, using(crate::proofs::Counting::most))]
    fn set_fixes(&mut self, frame: u8, fixes: u8)
        ensures config { self.new.config ≡ self.old.config }
        ensures records { self.new.records ≡ with_fixes self.old.records frame fixes }
    {
        let before = self.table.at(frame).fixes;
        self.table.set_fixes(frame, fixes);
        if is_pageable(&self.layout, u16::from(frame)) {
            self.fixed = self.fixed + counts(fixes) - counts(before);
        }
    }

    /// The page of a frame is fixed once more, 255 times at the most.
    pub fn fix(&mut self, frame: u8)
        ensures config { self.new.config ≡ self.old.config }
        ensures records { self.new.records ≡ with_fixes self.old.records frame (min 255 (fixes_in self.old.records frame + 1)) }
    {
        let more = self.record(frame).fixes.saturating_add(1);
        self.set_fixes(frame, more);
    }

    /// The page of a frame is fixed once less; it stays unfixed where it was.
    pub fn free(&mut self, frame: u8)
        ensures config { self.new.config ≡ self.old.config }
        ensures records { self.new.records ≡ with_fixes self.old.records frame (fixes_in self.old.records frame - 1) }
    {
        let less = self.record(frame).fixes.saturating_sub(1);
        self.set_fixes(frame, less);
    }
}
