//! The walk of the translation tables: from a virtual address to the real address that segment and page tables in main
//! storage give it, or to the exception that the architecture gives it.
//!
//! `walk` is the whole of it. Its ten steps are stated in `specs/Walk.antt`; what a real address is in the architecture's
//! own words, in `specs/Leads.antt`.
#![tactic(auto)]

ghost use Rattle.std.specs.Prelude.{◌≡◌, ◌≢◌, ◌↔◌, ℕ, ◌+◌, ◌-◌, ◌*◌, ◌/◌, ◌%◌, ◌^◌, ◌<◌, ◌≤◌, IsTrue, Ok, OnOk, All, ◌==◌};
ghost use Rattle.std.specs.List.{list_all};
ghost use Rattle.tables.specs.Bits.{half_bits, word_bits};
ghost use Rattle.tables.specs.Leads.{Exact};
ghost use Rattle.tables.specs.Walk.{and_then, byte_index, checked, frame_field, invalid, located, number_of, page_bytes, page_entry, page_index, page_number, page_size_of, segment_bytes, segment_entry, segment_index, segment_size_of, sizes_of, sound_page, sound_segment, valid_page, walk};

use std::marker::Model;

/// Both control words of a translator.
#[derive(Clone, Copy, Debug, Default, PartialEq, Eq)]
pub struct Controls {
    pub cr0: u32,
    pub cr1: u32,
}

/// Why an address has no real address: the exception that the architecture gives it.
#[derive(Clone, Copy, Debug, PartialEq, Eq)]
pub enum Refusal {
    Addressing = 5,
    SegmentTranslation = 16,
    PageTranslation = 17,
    TranslationSpecification = 18,
}

impl Refusal {
    /// The interruption code.
    pub fn number(self) -> u8
        ensures { result ≡ number_of self }
    {
        self as u8
    }
}

/// The size of a page.
#[derive(Clone, Copy, Debug, PartialEq, Eq)]
pub enum PageSize {
    Bytes2048 = 2048,
    Bytes4096 = 4096,
}

impl PageSize {
    /// How many bytes a page has.
    pub fn bytes(self) -> u32
        ensures { result ≡ page_bytes self }
    {
        self as u32
    }

    // The size that bits 8 and 9 of control word 0 name. No `TryFrom`: a size as a number is its count of bytes.
    fn named(bits: u32) -> Option<PageSize>
        ensures { result ≡ page_size_of bits }
    {
        match bits {
            1 => Some(PageSize::Bytes2048),
            2 => Some(PageSize::Bytes4096),
            _ => None,
        }
    }
}

/// The size of a segment.
#[derive(Clone, Copy, Debug, PartialEq, Eq)]
pub enum SegmentSize {
    Bytes65536 = 65_536,
    Bytes1048576 = 1_048_576,
}

impl SegmentSize {
    /// How many bytes a segment has.
    pub fn bytes(self) -> u32
        ensures { result ≡ segment_bytes self }
    {
        self as u32
    }

    // The size that bits 11 and 12 of control word 0 name. No `TryFrom`: a size as a number is its count of bytes.
    fn named(bits: u32) -> Option<SegmentSize>
        ensures { result ≡ segment_size_of bits }
    {
        match bits {
            0 => Some(SegmentSize::Bytes65536),
            2 => Some(SegmentSize::Bytes1048576),
            _ => None,
        }
    }
}

/// The sizes that control word 0 names.
#[derive(Clone, Copy, Debug, PartialEq, Eq)]
pub struct Sizes {
    pub page: PageSize,
    pub segment: SegmentSize,
}

impl Sizes {
    /// The page that an address is in, counted from address 0.
    pub fn page_number(self, address: u32) -> u32
        ensures { result ≡ page_number self address }
    {
        address / self.page.bytes()
    }

    /// The segment that an address is in.
    pub fn segment_index(self, address: u32) -> u32
        ensures value { result ≡ segment_index self address }
        ensures small { address < 16777216 → result < 256 }
    {
        address / self.segment.bytes()
    }

    /// The page of its segment that an address is in.
    pub fn page_index(self, address: u32) -> u32
        ensures value { result ≡ page_index self address }
        ensures small { result < 512 }
    {
        address % self.segment.bytes() / self.page.bytes()
    }

    /// The byte of its page that an address names.
    pub fn byte_index(self, address: u32) -> u32
        ensures { result ≡ byte_index self address }
    {
        address % self.segment.bytes() % self.page.bytes()
    }
}

/// Addresses stop here: an address has 24 bits.
pub const ADDRESSES: u32 = 16_777_216;

// Bits `first` to `last` of a word as a number, bit 0 leftmost.
fn word_bits(word: u32, first: u32, last: u32) -> u32
    requires { (first ≤ last) × (last < 32) × (last < first + 31) }
    ensures { result ≡ word_bits first last word }
{
    (word >> (31 - last)) % (1 << (last + 1 - first))
}

// Whether each of these bits of a word is off.
fn all_off(word: u32, bits: &[u32]) -> bool
    requires { All (λ b. b < 32) bits.now }
    ensures { result ≡ list_all (λ b. word_bits b b word == 0) bits.now }
{
    bits.iter().all(|&bit| word_bits(word, bit, bit) == 0)
}

// Bits `first` to `last` of a halfword as a number, bit 0 leftmost: those of the word with 16 zero bits left of it.
fn half_bits(half: u16, first: u32, last: u32) -> u32
    requires { (first ≤ last) × (last < 16) }
    ensures { result ≡ half_bits first last half }
{
    word_bits(u32::from(half), first + 16, last + 16)
}

/// The page and segment size that control word 0 names, or none where it names no pair of them.
pub fn named_sizes(cr0: u32) -> Option<Sizes>
    ensures { result ≡ sizes_of cr0 }
{
    if word_bits(cr0, 10, 10) != 0 {
        return None;
    }
    let page = PageSize::named(word_bits(cr0, 8, 9))?;
    let segment = SegmentSize::named(word_bits(cr0, 11, 12))?;
    Some(Sizes { page, segment })
}

/// The first two steps: the address has 24 bits, and control word 0 names the sizes.
#[tactic(auto, unfolding(crate::specs::Walk::checked))]
pub fn checked(controls: Controls, address: u32) -> Result<Sizes, Refusal>
    ensures answer { result ≡ checked controls address }
    ensures short { OnOk result (address < 16777216) }
{
    if address >= ADDRESSES {
        return Err(Refusal::Addressing);
    }
    named_sizes(controls.cr0).ok_or(Refusal::TranslationSpecification)
}

impl Controls {
    // The segment entry of a segment, in the table that control word 1 names.
    fn segment_entry(self, storage: &[u8], segment: u32) -> Result<SegmentEntry, Refusal>
        requires { segment < 256 }
        ensures { result ≡ segment_entry storage.now self segment }
    {
        if segment / 16 > word_bits(self.cr1, 0, 7) {
            return Err(Refusal::SegmentTranslation);
        }
        let place = 64 * word_bits(self.cr1, 8, 25) + 4 * segment;
        let entry = storage::read_number::<u32>(storage, place as usize).ok_or(
            Refusal::Addressing,
        )?;
        SegmentEntry::try_from(entry)
    }
}

// A segment entry whose reserved bits are off and that is valid.
#[derive(Clone, Copy)]
struct SegmentEntry {
    bits: u32,
}

impl Model for SegmentEntry {
    ghost Value = { ℕ };

    ghost view = { λ e. e.bits };

    ghost inverse = { λ n. record { bits = n } };
}

// A segment entry that was read: bits 4 to 7, 29 and 30 are off, and it is valid.
impl TryFrom<u32> for SegmentEntry {
    type Error = Refusal;

    ghost try_from_gives = { λ bits r. r ≡ sound_segment bits };

    fn try_from(bits: u32) -> Result<SegmentEntry, Refusal> {
        if !all_off(bits, &[4, 5, 6, 7, 29, 30]) {
            return Err(Refusal::TranslationSpecification);
        }
        if word_bits(bits, 31, 31) != 0 {
            return Err(Refusal::SegmentTranslation);
        }
        Ok(SegmentEntry { bits })
    }
}

impl SegmentEntry {
    // The page entry of a page, in the table that this segment entry names.
    fn page_entry(self, storage: &[u8], sizes: Sizes, page: u32) -> Result<PageEntry, Refusal>
        requires { page < 512 }
        ensures { result ≡ and_then (page_entry storage.now sizes self page) (λ h. Ok (record { size = sizes.page; bits = h })) }
    {
        let pages = sizes.segment.bytes() / sizes.page.bytes();
        if page * 16 / pages > word_bits(self.bits, 0, 3) {
            return Err(Refusal::PageTranslation);
        }
        let place = 8 * word_bits(self.bits, 8, 28) + 2 * page;
        let entry = storage::read_number::<u16>(storage, place as usize).ok_or(
            Refusal::Addressing,
        )?;
        PageEntry::new(sizes.page, entry)
    }
}

// A page entry as it stands in storage, and the size of its page.
#[derive(Clone, Copy)]
struct PageEntry {
    size: PageSize,
    bits: u16,
}

impl PageEntry {
    // A page entry that was read: its reserved bits are off, and it is valid.
    fn new(size: PageSize, bits: u16) -> Result<PageEntry, Refusal>
        ensures { result ≡ and_then (valid_page size bits) (λ h. Ok (record { size = size; bits = h })) }
    {
        let entry = PageEntry { size, bits };
        if !entry.is_sound() {
            return Err(Refusal::TranslationSpecification);
        }
        if entry.is_invalid() {
            return Err(Refusal::PageTranslation);
        }
        Ok(entry)
    }

    // Whether the reserved bits are off: bit 14, and with pages of 4,096 bytes bit 13 too.
    fn is_sound(self) -> bool
        ensures { result ≡ sound_page self.size self.bits }
    {
        match self.size {
            PageSize::Bytes2048 => half_bits(self.bits, 14, 14) == 0,
            PageSize::Bytes4096 => half_bits(self.bits, 14, 14) == 0
                && half_bits(self.bits, 13, 13) == 0,
        }
    }

    // Whether the invalid bit is on.
    fn is_invalid(self) -> bool
        ensures { IsTrue result ↔ (invalid self.size self.bits ≢ 0) }
    {
        match self.size {
            PageSize::Bytes2048 => half_bits(self.bits, 13, 13) != 0,
            PageSize::Bytes4096 => half_bits(self.bits, 12, 12) != 0,
        }
    }

    // The frame field: the bits left of the invalid bit.
    fn frame_field(self) -> u32
        ensures value { result ≡ frame_field self.size self.bits }
        ensures small { result < 8192 }
    {
        match self.size {
            PageSize::Bytes2048 => half_bits(self.bits, 0, 12),
            PageSize::Bytes4096 => half_bits(self.bits, 0, 11),
        }
    }

    // Where the frame of the page starts.
    fn frame_start(self) -> usize
        ensures { result ≡ frame_field self.size self.bits * page_bytes self.size }
    {
        self.frame_field() as usize * self.size.bytes() as usize
    }
}

/// The last step: the byte of a frame has a real address where it is in main storage.
pub fn located(storage: &[u8], start: usize, byte: u32) -> Result<usize, Refusal>
    ensures { result ≡ located storage.now start byte }
{
    if start >= storage.len() || byte as usize >= storage.len() - start {
        return Err(Refusal::Addressing);
    }
    Ok(start + byte as usize)
}

/// The walk: the real address of a virtual one, or the exception that the architecture gives it.
#[tactic(auto, using(crate::proofs::Led::exact), unfolding(crate::specs::Walk::walk))]
pub fn walk(storage: &[u8], controls: Controls, address: u32) -> Result<usize, Refusal>
    ensures answer { result ≡ walk storage.now controls address }
    ensures exact { Exact storage.now controls address }
{
    let sizes = checked(controls, address)?;
    let segment = controls.segment_entry(storage, sizes.segment_index(address))?;
    let page = segment.page_entry(storage, sizes, sizes.page_index(address))?;
    located(storage, page.frame_start(), sizes.byte_index(address))
}
