//! The area of a page data set, and what opening it found.
ghost use Rattle.std.specs.Prelude.{◌≡◌, ℕ, ◌+◌, ◌<◌, ◌≤◌, List, Vec, length, IfOk, IfSome, if◌then◌else◌, Some, None, MatchResult, nat_lt};
ghost use Rattle.std.specs.declared.alloc.Global.{Global};
ghost use Rattle.std.specs.Option.{option_map};
ghost use Rattle.std.specs.Result.{result_map_both};
ghost use Rattle.pages.specs.Store.{refusal_at};
ghost use Rattle.dataset.specs.Laws.{SetLaws};
ghost use Rattle.dataset.specs.Format.{Blank, bad_answer, blank_refused, blank_set, checked, mark_answer, mark_of, marked, marks_known, opened, place_of, set_rules, slots_in, why_not};
ghost use Rattle.dataset.specs.Marks.{number_of};
ghost use Rattle.dataset.specs.Slots.{set_lawful};
ghost use Rattle.std.proofs.Common.{rules};

use crate::mark::Mark;
use crate::refusal::{BlankRefusal, MarkRefusal, OpenRefusal};
use pages::fault::{Fault, StoreRefusal};
use pages::store::{MOST_SLOTS, PageStore};
use std::alloc::Global;
use std::marker::Model;
use storage::{Number, PAGE, read_number};

/// Bytes of the two numbers at the front.
const FRONT: usize = 8;

/// An area that was opened. Where opening refused it, it is kept as it is and the store has no slots.
#[derive(Drop)]
pub struct DataSet {
    area: Vec<u8>,
    slots: Result<u32, OpenRefusal>,
}

/// Contracts see the area itself, from which what opening found is known.
impl Model for DataSet {
    ghost Value = { Vec ℕ Global };

    ghost view = { λ s. s.area };

    ghost invariant = { λ s. s.slots ≡ opened s.area.items };
}

impl DataSet {
    /// Opens an area, and checks it first.
    pub fn open(area: Vec<u8>) -> DataSet
        ensures { result ≡ area }
    {
        let slots = inspect(&area);
        DataSet { area, slots }
    }

    /// A data set of so many blank slots.
    pub fn blank(heap: Global, slots: u32) -> Result<DataSet, BlankRefusal>
        ensures cases { MatchResult result (λ d. (slots ≤ 8192) × (d.items ≡ blank_set slots)) (blank_refused slots) }
        ensures slots { IfOk result (λ d. Blank slots d.items) }
    {
        if slots > MOST_SLOTS {
            return Err(BlankRefusal::TooManySlots);
        }
        let count = slots as usize;
        let mut area = vec![in heap; 0u8; FRONT + count + PAGE * count]?;
        slots.write(&mut area, 0);
        (PAGE as u32).write(&mut area, 4);
        Ok(DataSet {
            area,
            slots: Ok(slots),
        })
    }

    /// Why the area was refused, if it was.
    pub fn refusal(&self) -> Option<OpenRefusal>
        ensures { result ≡ why_not (opened self.now.items) }
    {
        self.slots.err()
    }

    /// The mark of a slot, or none where there is no such slot.
    pub fn mark(&self, slot: u32) -> Option<Mark>
        ensures { option_map number_of result ≡ (if nat_lt slot (slots_in self.now.items) then Some (mark_of self.now.items slot) else None) }
    {
        let at = self.mark_place(slot)?;
        // An area with slots was accepted, so the number tells a mark.
        Mark::try_from(self.area[at]).ok()
    }

    /// Puts a mark of any value at a slot and opens the area again.
    pub fn set_mark(&mut self, slot: u32, mark: u8) -> Result<(), MarkRefusal>
        ensures answer { result ≡ mark_answer self.old.items slot mark }
        ensures after { self.new.items ≡ marked self.old.items slot mark }
    {
        let at = self.mark_place(slot).ok_or(MarkRefusal::NoSuchSlot)?;
        self.area[at] = mark;
        self.slots = inspect(&self.area);
        self.slots?;
        Ok(())
    }

    /// Marks a slot bad.
    pub fn mark_bad(&mut self, slot: u32) -> Result<(), Fault>
        ensures answer { result ≡ bad_answer self.old.items slot }
        ensures after { self.new.items ≡ marked self.old.items slot 2 }
        ensures kept { opened self.new.items ≡ opened self.old.items }
    {
        let at = self
            .mark_place(slot)
            .ok_or(Fault::new(StoreRefusal::NoSuchSlot, Self::KIND, slot))?;
        self.area[at] = Mark::Bad.number();
        Ok(())
    }

    /// Where the mark of a slot stands, or none where there is no such slot.
    fn mark_place(&self, slot: u32) -> Option<usize>
        ensures place { result ≡ (if nat_lt slot (slots_in self.now.items) then Some (8 + slot) else None) }
        ensures within { IfSome result (λ at. at < length self.now.items) }
    {
        (slot < self.count()).then_some(FRONT + slot as usize)
    }

    /// The mark of a slot that can be read and written with a buffer of so many bytes, or the first refusal that holds.
    fn check(&self, slot: u32, length: usize) -> Result<Mark, Fault>
        ensures { result_map_both number_of (λ fault. fault) result ≡ checked self.now.items slot (refusal_at set_rules self.now.items slot length) }
    {
        // Not one test with the plain area's: the mark that is looked at here is the answer too.
        if length != PAGE {
            return Err(Fault::new(StoreRefusal::WrongLength, Self::KIND, slot));
        }
        let mark = self
            .mark(slot)
            .ok_or(Fault::new(StoreRefusal::NoSuchSlot, Self::KIND, slot))?;
        if mark == Mark::Bad {
            return Err(Fault::new(StoreRefusal::BadSlot, Self::KIND, slot));
        }
        Ok(mark)
    }

    /// Where the bytes of a slot begin.
    fn place(&self, slot: u32) -> usize
        ensures { result ≡ place_of self.now.items slot }
    {
        FRONT + self.count() as usize + PAGE * slot as usize
    }

    /// The bytes of the area, to be saved: byte for byte what the format says, or what was refused.
    pub fn area(&self) -> &[u8]
        ensures { result.now ≡ self.now.items }
    {
        &self.area
    }

    /// The area itself, taken out again.
    pub fn into_area(self) -> Vec<u8>
        ensures { result ≡ self }
    {
        self.area
    }
}

/// The number of slots of an area, or why it is no page data set.
#[tactic(auto, unfolding(crate::specs::Format::opened))]
fn inspect(area: &[u8]) -> Result<u32, OpenRefusal>
    ensures { result ≡ opened area.now }
{
    let size = read_number::<u32>(area, 4).ok_or(OpenRefusal::TooShort)?;
    let slots = read_number::<u32>(area, 0).ok_or(OpenRefusal::TooShort)?;
    if size as usize != PAGE {
        return Err(OpenRefusal::OtherPageSize);
    }
    if slots > MOST_SLOTS {
        return Err(OpenRefusal::TooManySlots);
    }
    let count = slots as usize;
    if area.len() != FRONT + count + PAGE * count {
        return Err(OpenRefusal::OtherLength);
    }
    if !marks_known(area, count) {
        return Err(OpenRefusal::UnknownMark);
    }
    Ok(slots)
}

/// Whether each of the first `count` marks is 0, 1 or 2.
fn marks_known(area: &[u8], count: usize) -> bool
    requires { 8 + count ≤ length area.now }
    ensures { result ≡ marks_known area.now count }
{
    area[FRONT..FRONT + count]
        .iter()
        .all(|mark| Mark::try_from(*mark).is_ok())
}

impl PageStore for DataSet {
    const KIND: u8 = 2;

    ghost KIND = { 2 };

    ghost Model = { List ℕ };

    ghost model = { λ s. s.items };

    ghost rules = { set_rules };

    ghost lawful = { set_lawful };

    ghost valid = { Prim.search rules };

    fn count(&self) -> u32 {
        self.slots.unwrap_or(0)
    }

    fn good(&self, slot: u32) -> Result<(), Fault> {
        self.check(slot, PAGE)?;
        Ok(())
    }

    fn read(&self, slot: u32, page: &mut [u8]) -> Result<(), Fault> {
        let mark = self.check(slot, page.len())?;
        if mark != Mark::Written {
            page.fill(0);
            return Ok(());
        }
        let at = self.place(slot);
        page.copy_from_slice(&self.area[at..at + PAGE]);
        Ok(())
    }

    fn write(&mut self, slot: u32, page: &[u8]) -> Result<(), Fault> {
        self.check(slot, page.len())?;
        let at = self.place(slot);
        self.area[FRONT + slot as usize] = Mark::Written.number();
        self.area[at..at + PAGE].copy_from_slice(page);
        Ok(())
    }
}

/// The number of this kind of store. What opening accepts and what a write touches are stated here as theorems: they hold
/// of the definitions that the contracts above cite.
pub fn laws() -> u8
    ensures number { result ≡ 2 }
    ensures laws { SetLaws }
{
    <DataSet as PageStore>::KIND
}

#[cfg(test)]
mod tests {
    use super::*;
    use std::process::Abort;
    use std::test::Fail;

    // A blank data set with one byte of its area altered.
    fn altered(
        rt: &impl Abort,
        heap: Global,
        slots: u32,
        at: usize,
        value: u8,
    ) -> Result<DataSet, Fail> {
        let mut area = DataSet::blank(heap, slots)?.into_area();
        assert!(rt; at < area.len());
        area[at] = value;
        Ok(DataSet::open(area))
    }

    #[test]
    fn opens_its_format_alone(rt: HostRuntime) -> Result<(), Fail> {
        let heap = rt.alloc();
        assert_eq!(rt;
            DataSet::open(vec![in heap; 0u8; 7]?).refusal(),
            Some(OpenRefusal::TooShort)
        );
        assert_eq!(rt;
            altered(&rt, heap, 1, 7, 1)?.refusal(),
            Some(OpenRefusal::OtherPageSize)
        );
        assert_eq!(rt;
            altered(&rt, heap, 8192, 3, 1)?.refusal(),
            Some(OpenRefusal::TooManySlots)
        );
        assert_eq!(rt; altered(&rt, heap, 1, 8, 2)?.refusal(), None);
        assert_eq!(rt;
            altered(&rt, heap, 1, 8, 3)?.refusal(),
            Some(OpenRefusal::UnknownMark)
        );
        let mut area = DataSet::blank(heap, 1)?.into_area();
        area.push(0)?;
        assert_eq!(rt;
            DataSet::open(area).refusal(),
            Some(OpenRefusal::OtherLength)
        );
        Ok(())
    }

    #[test]
    fn makes_blank_sets(rt: HostRuntime) -> Result<(), Fail> {
        assert_eq!(rt; DataSet::blank(rt.alloc(), 0)?.into_area().len(), 8);
        assert_eq!(rt; DataSet::blank(rt.alloc(), 8192)?.count(), 8192);
        assert_eq!(rt;
            DataSet::blank(rt.alloc(), 8193).err(),
            Some(BlankRefusal::TooManySlots)
        );
        Ok(())
    }

    #[test]
    fn reads_blank_slots_as_zeros(rt: HostRuntime) -> Result<(), Fail> {
        let mut store = altered(&rt, rt.alloc(), 2, 10, 5)?;
        let mut page = [1u8; 2048];
        assert_eq!(rt; store.read(0, &mut page), Ok(()));
        assert_eq!(rt; page[0], 0);
        assert_eq!(rt; store.set_mark(0, 1), Ok(()));
        assert_eq!(rt; store.read(0, &mut page), Ok(()));
        assert_eq!(rt; page[0], 5);
        Ok(())
    }

    #[test]
    fn refuses_in_order(rt: HostRuntime) -> Result<(), Fail> {
        let mut store = DataSet::blank(rt.alloc(), 2)?;
        let page = [1u8; 2049];
        assert_eq!(rt; store.mark_bad(1), Ok(()));
        assert_eq!(rt;
            store.mark_bad(2),
            Err(Fault::new(StoreRefusal::NoSuchSlot, DataSet::KIND, 2))
        );
        assert_eq!(rt;
            store.write(1, &page[0..2047]),
            Err(Fault::new(StoreRefusal::WrongLength, DataSet::KIND, 1))
        );
        assert_eq!(rt;
            store.write(2, &page),
            Err(Fault::new(StoreRefusal::WrongLength, DataSet::KIND, 2))
        );
        assert_eq!(rt;
            store.write(1, &page[0..2048]),
            Err(Fault::new(StoreRefusal::BadSlot, DataSet::KIND, 1))
        );
        assert_eq!(rt; store.write(0, &page[0..2048]), Ok(()));
        assert_eq!(rt; store.mark(0).map(Mark::number), Some(1));
        Ok(())
    }

    #[test]
    fn has_no_slots_once_refused(rt: HostRuntime) -> Result<(), Fail> {
        let mut store = DataSet::blank(rt.alloc(), 2)?;
        assert_eq!(rt; store.set_mark(2, 0), Err(MarkRefusal::NoSuchSlot));
        assert_eq!(rt;
            store.set_mark(1, 3),
            Err(MarkRefusal::NotDataSet(OpenRefusal::UnknownMark))
        );
        assert_eq!(rt;
            store.good(0),
            Err(Fault::new(StoreRefusal::NoSuchSlot, DataSet::KIND, 0))
        );
        assert_eq!(rt; store.into_area().get(9).copied(), Some(3));
        Ok(())
    }
}
