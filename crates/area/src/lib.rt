//! A page store of kind 1: a plain byte area, slot `s` at 2,048 × `s`. No slot is bad. Bytes in a last part slot, or past
//! slot 8,191, belong to no slot and are never altered.
#![tactic(auto)]

ghost use Rattle.std.specs.Prelude.{◌≡◌, ℕ, ◌*◌, List, Vec};
ghost use Rattle.std.specs.declared.alloc.Global.{Global};
ghost use Rattle.pages.specs.Store.{refusal_at, told};
ghost use Rattle.area.specs.Plain.{PlainLaws, plain_rules};
ghost use Rattle.area.specs.Slots.{plain_lawful};
ghost use Rattle.std.proofs.Common.{rules};

use pages::fault::{Fault, StoreRefusal};
use pages::store::{MOST_SLOTS, PageStore};
use std::marker::Model;
use storage::PAGE;

/// The area, as it was handed in and then written to.
#[derive(Drop)]
pub struct PlainArea {
    area: Vec<u8>,
}

/// Contracts see the area itself.
impl Model for PlainArea {
    ghost Value = { Vec ℕ Global };

    ghost view = { λ s. s.area };
}

impl PlainArea {
    /// A store over these bytes.
    pub fn new(area: Vec<u8>) -> PlainArea
        ensures { result ≡ area }
    {
        PlainArea { area }
    }

    /// The bytes, to be saved.
    pub fn area(&self) -> &[u8]
        ensures { result.now ≡ self.now.items }
    {
        &self.area
    }

    /// The area itself, taken out again.
    pub fn into_area(self) -> Vec<u8>
        ensures { result ≡ self }
    {
        self.area
    }

    /// The first refusal that holds for a slot and a buffer of so many bytes.
    fn check(&self, slot: u32, length: usize) -> Result<(), Fault>
        ensures { result ≡ told plain_rules self.now.items slot (refusal_at plain_rules self.now.items slot length) }
    {
        if length != PAGE {
            return Err(Fault::new(StoreRefusal::WrongLength, Self::KIND, slot));
        }
        if slot >= self.count() {
            return Err(Fault::new(StoreRefusal::NoSuchSlot, Self::KIND, slot));
        }
        Ok(())
    }
}

/// Where the bytes of a slot begin.
fn place(slot: u32) -> usize
    ensures { result ≡ 2048 * slot }
{
    PAGE * slot as usize
}

impl PageStore for PlainArea {
    const KIND: u8 = 1;

    ghost KIND = { 1 };

    ghost Model = { List ℕ };

    ghost model = { λ s. s.items };

    ghost rules = { plain_rules };

    ghost lawful = { plain_lawful };

    ghost valid = { Prim.search rules };

    fn count(&self) -> u32 {
        (self.area.len() / PAGE).min(MOST_SLOTS as usize) as u32
    }

    fn good(&self, slot: u32) -> Result<(), Fault> {
        self.check(slot, PAGE)
    }

    fn read(&self, slot: u32, page: &mut [u8]) -> Result<(), Fault> {
        self.check(slot, page.len())?;
        let at = place(slot);
        page.copy_from_slice(&self.area[at..at + PAGE]);
        Ok(())
    }

    fn write(&mut self, slot: u32, page: &[u8]) -> Result<(), Fault> {
        self.check(slot, page.len())?;
        let at = place(slot);
        self.area[at..at + PAGE].copy_from_slice(page);
        Ok(())
    }
}

/// The number of this kind of store. What a write touches is stated here as a theorem: it holds of the definitions that
/// the contracts above cite.
pub fn laws() -> u8
    ensures number { result ≡ 1 }
    ensures laws { PlainLaws }
{
    <PlainArea as PageStore>::KIND
}

#[cfg(test)]
mod tests {
    use super::*;
    use pages::call::Call;
    use pages::runs::read_after;
    use std::test::Fail;

    #[test]
    fn counts_whole_slots(rt: HostRuntime) -> Result<(), Fail> {
        assert_eq!(rt; PlainArea::new(vec![in rt.alloc(); 0u8; 2047]?).count(), 0);
        assert_eq!(rt; PlainArea::new(vec![in rt.alloc(); 0u8; 2048]?).count(), 1);
        assert_eq!(rt; PlainArea::new(vec![in rt.alloc(); 0u8; 4095]?).count(), 1);
        assert_eq!(rt;
            PlainArea::new(vec![in rt.alloc(); 0u8; 2048 * 8191]?).count(),
            8191
        );
        assert_eq!(rt;
            PlainArea::new(vec![in rt.alloc(); 0u8; 2048 * 8193]?).count(),
            8192
        );
        Ok(())
    }

    #[test]
    fn refuses_in_order(rt: HostRuntime) -> Result<(), Fail> {
        let mut store = PlainArea::new(vec![in rt.alloc(); 7u8; 4100]?);
        let mut long = [1u8; 2049];
        assert_eq!(rt; store.good(1), Ok(()));
        assert_eq!(rt;
            store.good(2),
            Err(Fault::new(StoreRefusal::NoSuchSlot, PlainArea::KIND, 2))
        );
        assert_eq!(rt;
            store.read(2, &mut long),
            Err(Fault::new(StoreRefusal::WrongLength, PlainArea::KIND, 2))
        );
        assert_eq!(rt;
            store.read(2, &mut long[0..2048]),
            Err(Fault::new(StoreRefusal::NoSuchSlot, PlainArea::KIND, 2))
        );
        assert_eq!(rt;
            store.write(1, &long[0..2047]),
            Err(Fault::new(StoreRefusal::WrongLength, PlainArea::KIND, 1))
        );
        assert_eq!(rt; long[0], 1);
        Ok(())
    }

    #[test]
    fn writes_its_slot_alone(rt: HostRuntime) -> Result<(), Fail> {
        let mut store = PlainArea::new(vec![in rt.alloc(); 7u8; 4100]?);
        let mut page = [9u8; 2048];
        assert_eq!(rt; store.write(1, &page), Ok(()));
        assert_eq!(rt; store.read(0, &mut page), Ok(()));
        assert_eq!(rt; page[2047], 7);
        let area = store.into_area();
        assert_eq!(rt; area.get(2047).copied(), Some(7));
        assert_eq!(rt; area.get(2048).copied(), Some(9));
        assert_eq!(rt; area.get(4095).copied(), Some(9));
        assert_eq!(rt; area.get(4096).copied(), Some(7));
        Ok(())
    }

    #[test]
    fn reads_the_last_page_written(rt: HostRuntime) -> Result<(), Fail> {
        let heap = rt.alloc();
        let mut store = PlainArea::new(vec![in heap; 0u8; 4096]?);
        let first = Call::Write {
            slot: 1,
            page: vec![in heap; 1u8; 2048]?,
        };
        let last = Call::Write {
            slot: 1,
            page: vec![in heap; 2u8; 2048]?,
        };
        let short = Call::Write {
            slot: 1,
            page: vec![in heap; 3u8; 2047]?,
        };
        let mut page = [0u8; 2048];
        assert_eq!(rt;
            read_after(
                &mut store,
                &[first, last, short, Call::Read { slot: 9 }],
                1,
                &mut page,
            ),
            Ok(())
        );
        assert_eq!(rt; page[0], 2);
        Ok(())
    }
}
