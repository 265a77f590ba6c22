//! Sizes, partitions and the frame table.
use layout::Layout;
use std::marker::Model;
use table::FrameTable;

/// What IPL was given, the frame table, and how many pageable frames have a fixed page.
#[derive(Drop)]
pub struct State {
    pub(crate) layout: Layout,
    pub(crate) table: FrameTable,
    pub(crate) fixed: u16,
}

impl Model for State {
    ghost use Rattle.state.specs.Bare.{Contents, IsCounted};

    ghost Value = { Contents };

    ghost view = { λ s. record { config = s.layout; records = s.table } };

    ghost invariant = { λ s. IsCounted s.layout s.table s.fixed };
}
