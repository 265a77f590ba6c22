//! What IPL was given.
ghost use Rattle.std.specs.Prelude.{◌≡◌, ◌≤◌};

use partitions::Partitions;
use std::marker::Model;

/// The number of frames, of supervisor frames and of virtual pages, and the partitions. All are 0 and none before IPL.
/// Contracts see it as the `Config` of the rules.
#[derive(Clone, Copy, Debug, PartialEq, Eq)]
pub struct Layout {
    pub(crate) frames: u16,
    pub(crate) supervisor: u16,
    pub(crate) pages: u16,
    pub(crate) partitions: Partitions,
}

impl Model for Layout {
    ghost use Rattle.model.specs.World.{Config};
    ghost use Rattle.layout.specs.Config.{IsBounded};

    ghost Value = { Config };

    ghost view = { λ l. record { frames = l.frames; supervisor = l.supervisor; pages = l.pages; partitions = l.partitions } };

    ghost invariant = { λ l. IsBounded (record { frames = l.frames; supervisor = l.supervisor; pages = l.pages; partitions = l.partitions }) };

    ghost inverse = { λ c. record { frames = c.frames; supervisor = c.supervisor; pages = c.pages; partitions = c.partitions } };
}

impl Layout {
    /// How many frames there are.
    pub fn frames(&self) -> u16
        ensures value { result ≡ self.now.frames }
        ensures few { result ≤ 256 }
    {
        self.frames
    }

    /// How many of them are the supervisor's.
    pub fn supervisor(&self) -> u16
        ensures value { result ≡ self.now.supervisor }
        ensures within { result ≤ self.now.frames }
        ensures below { result ≤ 255 }
    {
        self.supervisor
    }

    /// How many virtual pages there are.
    pub fn pages(&self) -> u16
        ensures value { result ≡ self.now.pages }
        ensures most { result ≤ 8192 }
    {
        self.pages
    }
}
