//! What else has to hold beside the answers, as far as it is seen from outside.
use crate::flat::Flat;
use frames::Policy;
use machine::Machine;
use model::calls::{Answer, Call};
use pages::store::PageStore;
use std::process::Abort;
use storage::Number;
use tables::walk;
use translation::Translator;

// The page number of a record that names none.
const NONE: u16 = 0xFFFF;

// A frame behind the supervisor's: it has no page and is not fixed, or a page of a partition with that partition's key,
// and no later frame has it.
fn frame_consistent<T: Translator, P: Policy, S: PageStore>(
    rt: &impl Abort,
    machine: &Machine<T, P, S>,
    flat: &Flat,
    frame: u8,
) {
    let record = machine.record(frame);
    if record.page == NONE {
        assert_eq!(rt; record.fixes, 0, "frame {frame}");
        return;
    }
    let key = machine.keys().get(usize::from(frame)).map(|key| key / 16);
    assert_eq!(rt; flat.key(u32::from(record.page)), key, "frame {frame}");
    for later in frame.saturating_add(1)..machine.frames().min(255) as u8 {
        assert_ne!(rt;
            machine.record(later).page,
            record.page,
            "frames {frame}, {later}"
        );
    }
}

/// Every frame is as it should be, whatever main storage is.
pub fn consistent<T: Translator, P: Policy, S: PageStore>(
    rt: &impl Abort,
    machine: &Machine<T, P, S>,
    flat: &Flat,
) {
    for frame in machine.supervisor()..machine.frames() {
        if let Ok(frame) = u8::try_from(frame) {
            frame_consistent(rt, machine, flat, frame);
        }
    }
}

// The byte of an answered Load or Store stands where the walk finds its address.
fn byte_stands<T: Translator, P: Policy, S: PageStore>(
    rt: &impl Abort,
    machine: &Machine<T, P, S>,
    storage: &[u8],
    flat: &Flat,
    address: u32,
) {
    let byte = walk(storage, machine.controls(), address).map(|real| storage.get(real).copied());
    assert_eq!(rt; byte, Ok(Some(flat.byte(address))), "address {address}");
}

// A page is in its slot after a Settle, or it was never written out and has no byte but 0.
fn page_settled<S: PageStore>(rt: &impl Abort, store: &S, storage: &[u8], flat: &Flat, page: u32) {
    let never_written = u16::read(storage, 2048 + 2 * page as usize) % 2 == 1;
    let mut slot = [0u8; 2048];
    if !never_written {
        let number = page.saturating_sub(flat.sizes().supervisor);
        assert_eq!(rt; store.read(number, &mut slot), Ok(()), "page {page}");
    }
    assert!(rt; slot.as_slice() == flat.page(page), "page {page}");
}

/// What holds after a call.
pub fn stands<T: Translator, P: Policy, S: PageStore>(
    rt: &impl Abort,
    machine: &Machine<T, P, S>,
    storage: &[u8],
    flat: &Flat,
    call: Call,
    answer: Answer,
) {
    consistent(rt, machine, flat);
    if answer.is_err() {
        return;
    }
    match call {
        Call::Load { address, .. } | Call::Store { address, .. } => {
            byte_stands(rt, machine, storage, flat, address);
        }
        Call::Settle => {
            for page in (0..flat.sizes().pages).filter(|page| flat.key(*page).is_some()) {
                page_settled(rt, machine.page_store(), storage, flat, page);
            }
        }
        _ => {}
    }
}
