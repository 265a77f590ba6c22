//! The worked machine, its main storage, and what is seen of both.
ghost use Rattle.std.specs.Prelude.{◌≡◌, ◌==◌, ◌&&◌, ◌↔◌, [], map, slice_index, IsTrue, IfOk};
ghost use Rattle.std.specs.List.{list_all};
ghost use Rattle.cases.specs.Cases.{held_by, held_of};
ghost use Rattle.cases.specs.Worked.{off};
ghost use Rattle.layout.specs.Config.{config_with};
ghost use Rattle.machine.specs.Machine.{Does, world};
ghost use Rattle.model.specs.Ipl.{ipl};
ghost use Rattle.model.specs.Layout.{entry_at, page_in};
ghost use Rattle.model.specs.Steps.{worked};
ghost use Rattle.storage.specs.Bytes.{half, word};
ghost use Rattle.tables.specs.Walk.{walk};

use cases::table::{Configuration, Held, Row};
use dataset::data_set::DataSet;
use frames::Policy;
use layout::entries::entry;
use machine::Machine;
use model::calls::{Answer, Call, IplRefusal};
use pages::store::PageStore;
use queues::{FiveQueues, Queue};
use runs::start::Start;
use runs::whole::make;
use std::alloc::{AllocError, Global};
use storage::{Number, PAGE};
use tables::{Controls, Refusal, walk};
use translation::{Tlb, Translator, Walker};

/// A machine of five queues, a TLB over the walker and a page data set, and its main storage.
#[derive(Drop)]
pub struct Board {
    pub machine: Machine<Tlb<Walker>, FiveQueues, DataSet>,
    pub storage: Vec<u8>,
}

// Whether two lists of frames that queues hold are the same.
fn same_held(left: &[Held], right: &[Held]) -> bool
    ensures { IsTrue result ↔ (left.now ≡ right.now) }
{
    left == right
}

impl Board {
    /// Before IPL, with blank slots and zeros in main storage.
    pub fn new(heap: Global, configuration: &Configuration) -> anyhow::Result<Board>
        ensures { IfOk result (λ b. world ⟦<Tlb<Walker> as Translator>⟧ ⟦<FiveQueues as Policy>⟧ ⟦<DataSet as PageStore>⟧ b.machine b.storage.items ≡ off configuration.now.frames configuration.now.slots) }
    {
        let slots = DataSet::blank(heap, configuration.slots)?;
        let storage = vec![in heap; 0u8; PAGE * configuration.frames as usize]?;
        Ok(Board {
            machine: Machine::new(Tlb::over(Walker::new()), FiveQueues::new(), slots),
            storage,
        })
    }

    /// IPL.
    pub fn ipl(&mut self, start: Start) -> Result<(), IplRefusal>
        ensures { Does ⟦<Tlb<Walker> as Translator>⟧ ⟦<FiveQueues as Policy>⟧ ⟦<DataSet as PageStore>⟧ (λ q w. ipl q (config_with start.entry.sizes start.entry.partitions.now) w) result (world ⟦<Tlb<Walker> as Translator>⟧ ⟦<FiveQueues as Policy>⟧ ⟦<DataSet as PageStore>⟧ self.old.machine self.old.storage.items) (world ⟦<Tlb<Walker> as Translator>⟧ ⟦<FiveQueues as Policy>⟧ ⟦<DataSet as PageStore>⟧ self.new.machine self.new.storage.items) }
    {
        self.machine
            .ipl(&mut self.storage, start.sizes, start.partitions)
    }

    /// Makes a call.
    pub fn make(&mut self, call: Call) -> Answer
        ensures { Does ⟦<Tlb<Walker> as Translator>⟧ ⟦<FiveQueues as Policy>⟧ ⟦<DataSet as PageStore>⟧ (λ q w. worked q call w) result (world ⟦<Tlb<Walker> as Translator>⟧ ⟦<FiveQueues as Policy>⟧ ⟦<DataSet as PageStore>⟧ self.old.machine self.old.storage.items) (world ⟦<Tlb<Walker> as Translator>⟧ ⟦<FiveQueues as Policy>⟧ ⟦<DataSet as PageStore>⟧ self.new.machine self.new.storage.items) }
    {
        make(&mut self.machine, &mut self.storage, call)
    }

    /// Whether the words at some places of main storage are these.
    pub fn has_words(&self, words: &[(usize, u32)]) -> bool
        ensures { result ≡ list_all (λ w. word self.now.storage.items w.0 == w.1) words.now }
    {
        words
            .iter()
            .all(|&(at, value)| u32::read(&self.storage, at) == value)
    }

    /// Whether the entries of some pages are these.
    pub fn has_entries(&self, entries: &[(u16, u16)]) -> bool
        ensures { result ≡ list_all (λ e. half self.now.storage.items (entry_at e.0) == e.1) entries.now }
    {
        entries
            .iter()
            .all(|&(page, value)| entry(&self.storage, page) == value)
    }

    /// The walk of an address with other control words than the machine's.
    pub fn walk_with(&self, controls: Controls, address: u32) -> Result<usize, Refusal>
        ensures { result ≡ walk self.now.storage.items controls address }
    {
        walk(&self.storage, controls, address)
    }

    // What a queue holds.
    fn held_by(&self, heap: Global, queue: Queue) -> Result<Vec<Held>, AllocError>
        ensures { IfOk result (λ v. v.items ≡ held_by (world ⟦<Tlb<Walker> as Translator>⟧ ⟦<FiveQueues as Policy>⟧ ⟦<DataSet as PageStore>⟧ self.now.machine []).policy queue) }
    {
        self.machine
            .policy()
            .frames(heap, queue)?
            .iter()
            .map(|&frame| Held { queue, frame })
            .collect(heap)
    }

    // What the queues hold, one queue after another.
    fn held(&self, heap: Global) -> Result<Vec<Held>, AllocError>
        ensures { IfOk result (λ v. v.items ≡ held_of (world ⟦<Tlb<Walker> as Translator>⟧ ⟦<FiveQueues as Policy>⟧ ⟦<DataSet as PageStore>⟧ self.now.machine []).policy) }
    {
        let mut held = self.held_by(heap, Queue::Q00)?;
        held.extend_from_slice(&self.held_by(heap, Queue::Q01)?)?;
        held.extend_from_slice(&self.held_by(heap, Queue::Q10)?)?;
        held.extend_from_slice(&self.held_by(heap, Queue::Q11)?)?;
        held.extend_from_slice(&self.held_by(heap, Queue::Hq)?)?;
        Ok(held)
    }

    // Whether a frame has this page, and this storage key.
    fn has_frame(&self, frame: u8, page: u16, key: u8) -> bool
        ensures { let seen = world ⟦<Tlb<Walker> as Translator>⟧ ⟦<FiveQueues as Policy>⟧ ⟦<DataSet as PageStore>⟧ self.now.machine [] in result ≡ (page_in seen.records frame == page && slice_index seen.keys frame == key) }
    {
        self.machine.record(frame).page == page
            && storage::byte(self.machine.keys(), frame as usize) == key
    }

    // Whether frames have these pages and storage keys.
    fn has_frames(&self, frames: &[u8; 3], pages: &[u16; 3], keys: &[u8; 3]) -> bool
        ensures { let seen = world ⟦<Tlb<Walker> as Translator>⟧ ⟦<FiveQueues as Policy>⟧ ⟦<DataSet as PageStore>⟧ self.now.machine [] in IsTrue result ↔ ((map (page_in seen.records) frames.now ≡ pages.now) × (map (λ f. slice_index seen.keys f) frames.now ≡ keys.now)) }
    {
        let [f, g, h] = *frames;
        let [p, q, r] = *pages;
        let [k, l, m] = *keys;
        let first = self.has_frame(f, p, k);
        let second = self.has_frame(g, q, l);
        let third = self.has_frame(h, r, m);
        first && second && third
    }

    /// Whether the pages in some frames, their storage keys and the queues are as in a row.
    pub fn is_at(&self, heap: Global, frames: &[u8; 3], row: &Row) -> Result<bool, AllocError>
        ensures { let seen = world ⟦<Tlb<Walker> as Translator>⟧ ⟦<FiveQueues as Policy>⟧ ⟦<DataSet as PageStore>⟧ self.now.machine [] in IfOk result (λ same. IsTrue same ↔ ((map (page_in seen.records) frames.now ≡ row.now.pages) × (map (λ f. slice_index seen.keys f) frames.now ≡ row.now.keys) × (held_of seen.policy ≡ row.now.held))) }
    {
        let held = self.held(heap)?;
        let holds = same_held(&held, &row.held);
        let has = self.has_frames(frames, &row.pages, &row.keys);
        Ok(has && holds)
    }

    /// Whether a slot holds a byte, and zeros behind it.
    pub fn has_slot(&self, slot: u32, first: u8) -> bool {
        let mut page = [0xFF; PAGE];
        self.machine.page_store().read(slot, &mut page).is_ok()
            && page[0] == first
            && page[1..].iter().all(|&byte| byte == 0)
    }
}
