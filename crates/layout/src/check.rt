//! The tests of IPL on what it is given.
ghost use Rattle.std.specs.Prelude.{◌≡◌, []};
ghost use Rattle.model.specs.Ipl.{sizes_fit};
ghost use Rattle.layout.specs.Config.{checked_as, config_with, frames_fit, pages_fit};

use crate::Layout;
use model::calls::IplRefusal;
use model::shape::Partition;
use partitions::Partitions;

/// The number of frames, of supervisor frames and of virtual pages that IPL is given.
#[derive(Clone, Copy, PartialEq, Eq, Debug)]
pub struct Sizes {
    pub frames: u32,
    pub supervisor: u32,
    pub pages: u32,
}

impl Sizes {
    // The numbers of frames fit each other.
    fn frames_fit(self) -> bool
        ensures { result ≡ frames_fit self.frames self.supervisor }
    {
        (3..=256).contains(&self.frames) && (2..self.frames).contains(&self.supervisor)
    }

    // The page tables end before the first pageable frame, and there are pages behind the supervisor's.
    fn pages_fit(self) -> bool
        ensures { result ≡ pages_fit self.supervisor self.pages }
    {
        1 + self.pages.div_ceil(32).div_ceil(32) <= self.supervisor
            && self.supervisor < self.pages
            && self.pages <= 8192
    }

    // The numbers fit each other and the length of main storage.
    fn fit(self, storage: &[u8]) -> bool
        ensures { result ≡ sizes_fit (config_with self []) storage.now }
    {
        self.frames_fit() && self.pages_fit() && storage.len() == 2048 * self.frames as usize
    }
}

impl Layout {
    /// Before IPL: no frame, no page, no partition.
    pub fn none() -> Layout
        ensures { result ≡ record { frames = 0; supervisor = 0; pages = 0; partitions = [] } }
    {
        Layout {
            frames: 0,
            supervisor: 0,
            pages: 0,
            partitions: Partitions::none(),
        }
    }

    /// What IPL is given, where it passes IPL's tests of the numbers and of the partitions; the first refusal otherwise.
    pub fn checked(sizes: Sizes, list: &[Partition], storage: &[u8]) -> Result<Layout, IplRefusal>
        ensures { result ≡ checked_as (config_with sizes list.now) storage.now }
    {
        if !sizes.fit(storage) {
            return Err(IplRefusal::Sizes);
        }
        let partitions = Partitions::checked(list, sizes.supervisor, sizes.pages).ok_or(
            IplRefusal::Partitions,
        )?;
        Ok(Layout {
            frames: sizes.frames as u16,
            supervisor: sizes.supervisor as u16,
            pages: sizes.pages as u16,
            partitions,
        })
    }
}
