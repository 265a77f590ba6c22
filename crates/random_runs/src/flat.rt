//! The flat machine: what a user of the six calls sees. It knows nothing of frames, tables, slots and queues.
use crate::run::Run;
use layout::Sizes;
use model::calls::{Answer, Call, Refusal, Reply};
use model::shape::Partition;
use std::alloc::{AllocError, Global};

/// Sizes and partitions from IPL, the bytes of all pages, and how often each page is fixed.
#[derive(Drop)]
pub struct Flat {
    sizes: Sizes,
    partitions: Vec<Partition>,
    bytes: Vec<u8>,
    fixes: Vec<u8>,
}

impl Flat {
    /// After IPL: all bytes and all fix counts are 0.
    pub fn new(heap: Global, run: &Run) -> Result<Flat, AllocError> {
        let pages = run.sizes.pages as usize;
        Ok(Flat {
            sizes: run.sizes,
            partitions: run.partitions(heap)?,
            bytes: vec![in heap; 0u8; 2048 * pages]?,
            fixes: vec![in heap; 0u8; pages]?,
        })
    }

    /// How many frames, supervisor frames and pages there are.
    pub fn sizes(&self) -> Sizes {
        self.sizes
    }

    /// The key of the partition that a page is in, if it is in one.
    pub fn key(&self, page: u32) -> Option<u8> {
        for partition in &self.partitions {
            let end = partition.first.saturating_add(partition.count);
            if (partition.first..end).contains(&page) {
                return Some(partition.key);
            }
        }
        None
    }

    /// The byte at an address; 0 past the last page.
    pub fn byte(&self, address: u32) -> u8 {
        self.bytes.get(address as usize).copied().unwrap_or(0)
    }

    /// The bytes of a page; none past the last page.
    pub fn page(&self, page: u32) -> &[u8] {
        let start = 2048 * page as usize;
        self.bytes.get(start..start + 2048).unwrap_or(&[])
    }

    /// How often a page is fixed.
    pub fn fixes(&self, page: u32) -> u8 {
        self.fixes.get(page as usize).copied().unwrap_or(0)
    }

    /// The first page that is fixed, if one is.
    pub fn first_fixed(&self) -> Option<u32> {
        (0..self.sizes.pages).find(|page| self.fixes(*page) > 0)
    }

    fn set_byte(&mut self, address: u32, byte: u8) {
        if let Some(there) = self.bytes.get_mut(address as usize) {
            *there = byte;
        }
    }

    fn set_fixes(&mut self, page: u32, fixes: u8) {
        if let Some(there) = self.fixes.get_mut(page as usize) {
            *there = fixes;
        }
    }

    // 5, 4: the key of a page.
    fn partition_page(&self, page: u32) -> Result<u8, Refusal> {
        if page < self.sizes.supervisor {
            return Err(Refusal::Protection);
        }
        self.key(page).ok_or(Refusal::Addressing)
    }

    // 36, 5, 4: the key of the page of an address.
    fn addressed(&self, address: u32, key: u8) -> Result<u8, Refusal> {
        if key > 15 {
            return Err(Refusal::Key);
        }
        self.partition_page(address / 2048)
    }

    // 35: as many pages are fixed as there are frames behind the supervisor's, and this page is not.
    fn room(&self, page: u32) -> Result<(), Refusal> {
        let fixed = self.fixes.iter().filter(|fixes| **fixes > 0).count();
        let frames = self.sizes.frames.saturating_sub(self.sizes.supervisor);
        if self.fixes(page) == 0 && fixed == frames as usize {
            return Err(Refusal::AllFixed);
        }
        Ok(())
    }

    fn load(&self, address: u32, key: u8) -> Result<u8, Refusal> {
        self.addressed(address, key)?;
        self.room(address / 2048)?;
        Ok(self.byte(address))
    }

    fn store(&mut self, address: u32, key: u8, byte: u8) -> Result<(), Refusal> {
        let own = self.addressed(address, key)?;
        if key != 0 && key != own {
            return Err(Refusal::Protection);
        }
        self.room(address / 2048)?;
        self.set_byte(address, byte);
        Ok(())
    }

    fn fix(&mut self, page: u32) -> Result<(), Refusal> {
        self.partition_page(page)?;
        let more = self.fixes(page).checked_add(1).ok_or(Refusal::FixLimit)?;
        self.room(page)?;
        self.set_fixes(page, more);
        Ok(())
    }

    fn free(&mut self, page: u32) -> Result<(), Refusal> {
        self.partition_page(page)?;
        let less = self.fixes(page).checked_sub(1).ok_or(Refusal::NotFixed)?;
        self.set_fixes(page, less);
        Ok(())
    }

    /// What a call answers.
    pub fn answer(&mut self, call: Call) -> Answer {
        match call {
            Call::Load { address, key } => self.load(address, key).map(Reply::Byte),
            Call::Store { address, key, byte } => {
                self.store(address, key, byte).map(|()| Reply::Done)
            }
            Call::Fix { page } => self.fix(page).map(|()| Reply::Done),
            Call::Free { page } => self.free(page).map(|()| Reply::Done),
            Call::Purge | Call::Settle => Ok(Reply::Done),
        }
    }
}
