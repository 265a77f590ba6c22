//! The TLB: which pairs it holds after each call, seen by what it still answers when every page entry is invalid; and two
//! layers beside the walker on one list of calls.
use std::process::Abort;
use std::test::Fail;
use storage::Number;
use tables::{Controls, Refusal};
use translation::{Ask, Start, Tlb, Told, Translator, Walker, answer_all};

// Twelve frames of main storage.
const BYTES: usize = 24_576;

// Pages of 2,048 bytes, segments of 65,536, and a segment table at 1,024.
const WORDS: Controls = Controls {
    cr0: 0x0040_0000,
    cr1: 0x0000_0400,
};

// Page p is in frame p + 3, for the pages 0 to 8.
fn tables_in(bytes: &mut [u8]) {
    0xF000_0800u32.write(bytes, 1024);
    for page in 0u8..9 {
        let entry = 8 * (u16::from(page) + 3);
        entry.write(bytes, 2048 + 2 * usize::from(page));
    }
}

// The same tables with every page entry invalid.
fn spoil(bytes: &mut [u8]) {
    for page in 0u8..9 {
        4u16.write(bytes, 2048 + 2 * usize::from(page));
    }
}

// Main storage with the tables.
fn with_tables() -> [u8; BYTES] {
    let mut bytes = [0u8; BYTES];
    tables_in(&mut bytes);
    bytes
}

// The same with every page entry invalid.
fn with_none_valid() -> [u8; BYTES] {
    let mut bytes = with_tables();
    spoil(&mut bytes);
    bytes
}

// Byte 1 of a page.
fn ask<T: Translator>(translator: &mut T, bytes: &[u8], page: u8) -> Result<usize, Refusal> {
    translator.translate(bytes, 2048 * u32::from(page) + 1)
}

// The same, where main storage is the first `length` bytes alone.
fn ask_in_front<T: Translator>(
    translator: &mut T,
    bytes: &[u8],
    length: usize,
    page: u8,
) -> Result<usize, Refusal> {
    ask(translator, &bytes[..length.min(bytes.len())], page)
}

// Asks for a page, and sees that it is answered.
fn answered<T: Translator>(rt: &impl Abort, translator: &mut T, bytes: &[u8], page: u8) {
    assert_eq!(rt;
        ask(translator, bytes, page),
        Ok(2048 * (usize::from(page) + 3) + 1)
    );
}

// Asks for the pages from `first` to before `end`, and sees that each is answered.
fn fill<T: Translator>(rt: &impl Abort, translator: &mut T, bytes: &[u8], first: u8, end: u8) {
    for page in first..end {
        answered(rt, translator, bytes, page);
    }
}

// Sees that with every page entry invalid one page alone is refused.
fn all_but<T: Translator>(rt: &impl Abort, translator: &mut T, bytes: &[u8], missing: u8) {
    assert_eq!(rt;
        ask(translator, bytes, missing),
        Err(Refusal::PageTranslation)
    );
    for page in (0u8..9).filter(|&page| page != missing) {
        answered(rt, translator, bytes, page);
    }
}

// The ninth page takes the place of the first.
#[test]
fn ninth_page(rt: HostRuntime) {
    let bytes = with_tables();
    let spoiled = with_none_valid();
    let mut tlb = Tlb::over(Walker::new());
    tlb.load_controls(&bytes, WORDS);
    fill(&rt, &mut tlb, &bytes, 0, 9);
    all_but(&rt, &mut tlb, &spoiled, 0);
}

// A hit puts page 0 behind page 1; one whose byte is not in storage does not.
#[test]
fn hits(rt: HostRuntime) {
    let bytes = with_tables();
    let spoiled = with_none_valid();
    let mut tlb = Tlb::over(Walker::new());
    tlb.load_controls(&bytes, WORDS);
    fill(&rt, &mut tlb, &bytes, 0, 8);
    assert!(rt; bytes.len() >= 6146);
    assert_eq!(rt; ask_in_front(&mut tlb, &bytes, 6146, 0), Ok(6145));
    assert_eq!(rt;
        ask_in_front(&mut tlb, &bytes, 6145, 1),
        Err(Refusal::Addressing)
    );
    fill(&rt, &mut tlb, &bytes, 8, 9);
    all_but(&rt, &mut tlb, &spoiled, 1);
}

// Forget ends a page in both layers.
#[test]
fn forgets(rt: HostRuntime) {
    let bytes = with_tables();
    let spoiled = with_none_valid();
    let mut tlb = Tlb::over(Tlb::over(Walker::new()));
    tlb.load_controls(&bytes, WORDS);
    fill(&rt, &mut tlb, &bytes, 1, 9);
    tlb.forget(3);
    fill(&rt, &mut tlb, &bytes, 0, 1);
    all_but(&rt, &mut tlb, &spoiled, 3);
}

// Purge and LoadControls empty both layers.
#[test]
fn empties(rt: HostRuntime) {
    let bytes = with_tables();
    let spoiled = with_none_valid();
    let mut tlb = Tlb::over(Tlb::over(Walker::new()));
    tlb.load_controls(&bytes, WORDS);
    fill(&rt, &mut tlb, &bytes, 8, 9);
    tlb.purge(&spoiled);
    assert_eq!(rt; ask(&mut tlb, &spoiled, 8), Err(Refusal::PageTranslation));
    fill(&rt, &mut tlb, &bytes, 8, 9);
    tlb.load_controls(&spoiled, WORDS);
    assert_eq!(rt; ask(&mut tlb, &spoiled, 8), Err(Refusal::PageTranslation));
    assert_eq!(rt; tlb.controls(), WORDS);
}

const ASKS: [Ask; 14] = [
    Ask::Translate(1),
    Ask::Translate(2049),
    Ask::Translate(1),
    Ask::Controls,
    Ask::Translate(16_777_216),
    Ask::Forget(0),
    Ask::Translate(2),
    Ask::Translate(18_432),
    Ask::Translate(65_536),
    Ask::Translate(4_097),
    Ask::Translate(6_145),
    Ask::Forget(2),
    Ask::Translate(16_385),
    Ask::Translate(4_098),
];

const TOLD: [Told; 14] = [
    Told::Real(Ok(6_145)),
    Told::Real(Ok(8_193)),
    Told::Real(Ok(6_145)),
    Told::Held(WORDS),
    Told::Real(Err(Refusal::Addressing)),
    Told::Forgotten,
    Told::Real(Ok(6_146)),
    Told::Real(Ok(0)),
    Told::Real(Ok(0)),
    Told::Real(Ok(10_241)),
    Told::Real(Ok(12_289)),
    Told::Forgotten,
    Told::Real(Ok(22_529)),
    Told::Real(Ok(10_242)),
];

#[test]
fn layers_answer_as_the_walker(rt: HostRuntime) -> Result<(), Fail> {
    let bytes = with_tables();
    let mut walker = Walker::new();
    let told = answer_all(rt.alloc(), &mut walker, &bytes, Start::Load(WORDS), &ASKS)?;
    assert_eq!(rt; told.as_slice(), TOLD.as_slice());
    let mut layers = Tlb::over(Tlb::over(Walker::new()));
    let told = answer_all(rt.alloc(), &mut layers, &bytes, Start::Load(WORDS), &ASKS)?;
    assert_eq!(rt; told.as_slice(), TOLD.as_slice());
    Ok(())
}
