//! Calls drawn at random: mostly ones that are answered, and some with a bad key, page or address.
use crate::flat::Flat;
use crate::random::Random;
use crate::run::Run;
use model::calls::Call;

// A page: seldom any number, seldom one of a few past the last, mostly one that there is.
fn page(random: &mut Random, flat: &Flat) -> u32 {
    let pages = flat.sizes().pages;
    match random.below(32) {
        0 => random.number(),
        1 => random.below(pages.saturating_add(4)),
        _ => random.below(pages),
    }
}

// A page for Fix or Free: as often as not one that is fixed.
fn page_to_fix(random: &mut Random, flat: &Flat) -> u32 {
    let other = page(random, flat);
    if random.once_in(2) {
        return flat.first_fixed().unwrap_or(other);
    }
    other
}

// A byte in a page: few of them, so that they are met again.
fn place(random: &mut Random) -> u32 {
    match random.below(4) {
        0 => 2047,
        1 => random.below(2048),
        _ => random.below(3),
    }
}

// An address.
fn address(random: &mut Random, flat: &Flat) -> u32 {
    let start = page(random, flat).wrapping_mul(2048);
    start.wrapping_add(place(random))
}

// A key for an address: mostly that of its page.
fn key(random: &mut Random, flat: &Flat, address: u32) -> u8 {
    match random.below(12) {
        0 => random.byte() % 20,
        1 => 0,
        _ => flat.key(address / 2048).unwrap_or(1),
    }
}

// A Load or a Store.
fn load_or_store(random: &mut Random, flat: &Flat) -> Call {
    let address = address(random, flat);
    let key = key(random, flat, address);
    if random.once_in(2) {
        return Call::Load { address, key };
    }
    let byte = random.byte();
    Call::Store { address, key, byte }
}

/// A call.
pub fn draw(random: &mut Random, flat: &Flat, run: &Run) -> Call {
    let number = random.below(100);
    if number < 4 {
        return Call::Purge;
    }
    if number < 8 {
        return Call::Settle;
    }
    if number.saturating_sub(8) < run.fix {
        let page = page_to_fix(random, flat);
        return Call::Fix { page };
    }
    if number.saturating_sub(8) < run.fix.saturating_add(run.free) {
        let page = page_to_fix(random, flat);
        return Call::Free { page };
    }
    load_or_store(random, flat)
}
