//! The frame table: a record for each of 256 frames.
//!
//! `record` lends one record by `&mut`. Its contract says what the table is when the loan ends: the lent record as it
//! was last written, and the 255 others as they were. `put`, `set_page` and `set_fixes` write through it.
#![tactic(auto)]

pub mod records;

use model::shape::FrameRecord;
use std::marker::Model;

/// The page number in the record of a frame that has no page. No `Option` stands for it: a rule gives a record a page
/// number of 16 bits, of which X'FFFF' means none.
pub const NO_PAGE: u16 = 0xFFFF;

/// The frame table, by frame number. Contracts see it as the list of its records, frame 0 first.
#[derive(Drop)]
pub struct FrameTable {
    records: [FrameRecord; 256],
}

impl Model for FrameTable {
    ghost use Rattle.std.specs.Prelude.{◌≡◌, List, length};
    ghost use Rattle.model.specs.declared.shape.FrameRecord.{FrameRecord};

    ghost Value = { List FrameRecord };

    ghost view = { λ t. t.records };

    ghost invariant = { λ t. length t.records ≡ 256 };
}
