//! Where a page is, and whether the tables in main storage are what IPL, partitions and frame table give.
ghost use Rattle.std.specs.Prelude.{◌≡◌, ◌-◌, ◌*◌, ◌<◌, IsTrue, ◌&&◌, [], ◌==◌, nat_le, nat_lt};
ghost use Rattle.model.specs.Layout.{entries_are, entry_for, entry_should, frame_is, frame_of, frames_are, page_in, segments};
ghost use Rattle.model.specs.Refusals.{fixes_of, full, right_length, tables_right};
ghost use Rattle.state.specs.Bare.{bare};

use crate::State;
use crate::changes::is_pageable;
use layout::entries::{entry, entry_is};
use model::shape::Request;
use table::NO_PAGE;

// The entry of a partition page, bit 15 off: its frame, or invalid with its access key.
fn entry_for(key: u8, frame: Option<u8>) -> u16
    ensures { result ≡ entry_for key frame }
{
    frame.map_or(4 + 16 * u16::from(key), |f| 8 * u16::from(f))
}

impl State {
    // Whether main storage has the length that IPL was given.
    pub(crate) fn right_length(&self, storage: &[u8]) -> bool
        ensures { result ≡ right_length (bare self.now storage.now) }
    {
        storage.len() == 2048 * self.layout.frames() as usize
    }

    // Whether a frame is pageable and its record names this page.
    fn has(&self, frame: u16, page: u16) -> bool
        ensures within { IsTrue result → frame < 256 }
        ensures value { result ≡ (nat_le self.now.config.supervisor frame && (nat_lt frame self.now.config.frames && page_in self.now.records frame == page)) }
    {
        is_pageable(&self.layout, frame) && self.table.at(frame as u8).page == page
    }

    /// The frame that has a page: the one that its entry names, where the frame's record names the page back; else by a
    /// search.
    pub fn frame_of(&self, storage: &[u8], page: u16) -> Option<u8>
        ensures { result ≡ frame_of self.now.config storage.now self.now.records page }
    {
        let named = entry(storage, page) / 8;
        if self.has(named, page) {
            return Some(named as u8);
        }
        self.table
            .find(page, self.layout.supervisor(), self.layout.frames())
    }

    // The fix count of the page that a frame has; 0 of a page without one.
    pub(crate) fn fixes_of(&self, frame: Option<u8>) -> u8
        ensures { result ≡ fixes_of self.now.records frame }
    {
        frame.map_or(0, |f| self.table.at(f).fixes)
    }

    // Whether every pageable frame has a fixed page, and this page is none of them.
    pub(crate) fn is_full(&self, frame: Option<u8>) -> bool
        ensures { result ≡ full (bare self.now []) frame }
    {
        self.fixed == self.layout.frames() - self.layout.supervisor() && self.fixes_of(frame) == 0
    }

    // Whether the entries of the page that a frame has are right, if it has one.
    fn frame_is(&self, storage: &[u8], frame: u8) -> bool
        ensures { result ≡ frame_is self.now.config storage.now self.now.records frame }
    {
        let page = self.table.at(frame).page;
        page == NO_PAGE || self.layout.page_is(storage, page, 8 * frame as u16)
    }

    // The same for every pageable frame.
    pub(crate) fn frames_are(&self, storage: &[u8]) -> bool
        ensures { result ≡ frames_are self.now.config storage.now self.now.records self.now.config.supervisor (self.now.config.frames - self.now.config.supervisor) }
    {
        let mut frames = self.layout.supervisor()..self.layout.frames();
        frames.all(|frame| self.frame_is(storage, frame as u8))
    }

    // Whether the tables are what IPL, partitions and frame table give, as far as a call on this page looks: where the
    // page has no frame, at the entries of every page that has one too.
    pub(crate) fn tables_right(&self, storage: &[u8], request: Request) -> bool
        ensures { result ≡ tables_right (bare self.now storage.now) request.page request.key request.frame }
    {
        self.layout.page_is(storage, request.page, entry_for(request.key, request.frame))
            && (request.frame.is_some() || self.frames_are(storage))
    }

    // The entry that a page should have, bit 15 aside.
    fn entry_should(&self, storage: &[u8], page: u16) -> u16
        ensures { result ≡ entry_should self.now.config storage.now self.now.records page }
    {
        if page < self.layout.supervisor() {
            return 8 * page + 1;
        }
        self.layout
            .key_of(page)
            .map_or(0x8005, |key| entry_for(key, self.frame_of(storage, page)))
    }

    // Whether every entry of the page tables is what it should be.
    pub(crate) fn entries_are(&self, storage: &[u8]) -> bool
        ensures { result ≡ entries_are self.now.config storage.now self.now.records 0 (32 * segments self.now.config) }
    {
        let mut pages = 0..32 * self.layout.segments();
        pages.all(|page| entry_is(storage, page, self.entry_should(storage, page)))
    }
}
