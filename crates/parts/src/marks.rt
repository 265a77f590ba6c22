//! The area and the marks of a page store.
ghost use Rattle.std.specs.Prelude.{◌≡◌};
ghost use Rattle.std.specs.Option.{option_map};
ghost use Rattle.dataset.specs.Marks.{number_of as number_of_mark};
ghost use Rattle.parts.specs.Marks.{Marks, plain_marks, set_marks};

use area::PlainArea;
use dataset::data_set::DataSet;
use dataset::mark::Mark;
use dataset::refusal::{MarkRefusal, OpenRefusal};
use pages::fault::Fault;
use pages::store::PageStore;

/// A page store whose area can be saved, and whose slots may have marks.
pub trait Marked: PageStore {
    // what its area and its marks are, and what changing a mark answers and leaves
    ghost marks: { Marks Self };

    /// The bytes of the store, as they are saved.
    fn area(&self) -> &[u8]
        ensures { result.now ≡ marks.area self.now };

    /// Why opening refused the area, if it did.
    fn refusal(&self) -> Option<OpenRefusal>
        ensures { result ≡ marks.refused self.now };

    /// The mark of a slot, where the slot has one.
    fn mark(&self, slot: u32) -> Option<Mark>
        ensures { option_map number_of_mark result ≡ marks.mark self.now slot };

    /// Marks a slot bad. None where the kind has no marks.
    fn mark_bad(&mut self, slot: u32) -> Option<Result<(), Fault>>
        ensures answer { result ≡ marks.bad self.old slot }
        ensures after { marks.area self.new ≡ marks.marked self.old slot 2 };

    /// Puts a mark of any value at a slot, and opens the area again. None where the kind has no marks.
    fn set_mark(&mut self, slot: u32, mark: u8) -> Option<Result<(), MarkRefusal>>
        ensures answer { result ≡ marks.reopened self.old slot mark }
        ensures after { marks.area self.new ≡ marks.marked self.old slot mark };
}

/// A plain area has no marks, and is never refused.
impl Marked for PlainArea {
    ghost marks = { plain_marks };

    fn area(&self) -> &[u8] {
        PlainArea::area(self)
    }

    fn refusal(&self) -> Option<OpenRefusal> {
        None
    }

    fn mark(&self, _slot: u32) -> Option<Mark> {
        None
    }

    fn mark_bad(&mut self, _slot: u32) -> Option<Result<(), Fault>> {
        None
    }

    fn set_mark(&mut self, _slot: u32, _mark: u8) -> Option<Result<(), MarkRefusal>> {
        None
    }
}

impl Marked for DataSet {
    ghost marks = { set_marks };

    fn area(&self) -> &[u8] {
        DataSet::area(self)
    }

    fn refusal(&self) -> Option<OpenRefusal> {
        DataSet::refusal(self)
    }

    fn mark(&self, slot: u32) -> Option<Mark> {
        DataSet::mark(self, slot)
    }

    fn mark_bad(&mut self, slot: u32) -> Option<Result<(), Fault>> {
        Some(DataSet::mark_bad(self, slot))
    }

    fn set_mark(&mut self, slot: u32, mark: u8) -> Option<Result<(), MarkRefusal>> {
        Some(DataSet::set_mark(self, slot, mark))
    }
}
