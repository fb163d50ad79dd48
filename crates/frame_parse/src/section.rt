//! A section: its records, one after another.

ghost use Rattle.std.specs.Prelude.{◌≡◌, ◌<◌, ◌⊎◌, length, map, IfOk, IfErr, IfSome};
ghost use Rattle.std.specs.Prelude.{slice_get, option_and_then, Some, ℕ, List};
ghost use Rattle.std.specs.List.{All};
ghost use Rattle.std.specs.Option.{option_map};
ghost use Rattle.frame_parse.specs.Entries.{fde_among, HasCie};
ghost use Rattle.frame_parse.specs.Sections.{is_end, HasFdes, IsRefused, first_cover, HasOneAnswer};
ghost use Rattle.frame_parse.specs.Sections.{fde_starts, IsAscending};
ghost use Rattle.frame_parse.specs.Keeping.{KeepsFdes, EndsLow};
ghost use Rattle.frame_parse.specs.Programs.{HasPrograms};
ghost use Rattle.frame_parse.specs.Reading.{IsAnswered};

use crate::fault::FrameFault;
use crate::fde::Fde;
use crate::fde_lookup::FdeList;
use crate::record_reading::whole_record;
use crate::records::{CieRecord, Entry, FdeEntry};
use byteorder::{ByteOrder, LittleEndian};
use eh_bytes::Cursor;
use std::alloc::{AllocError, Global};
use std::marker::Model;

/// Whether a section's records end here.
pub fn is_end(rest: &[u8]) -> bool
    ensures { result ≡ is_end rest.now }
{
    rest.is_empty() || (4 <= rest.len() && LittleEndian::read_u32(rest) == 0)
}

/// The CIEs and the FDEs of a section's records.
fn entries_of(
    alloc: Global,
    section: u64,
    bytes: &[u8],
) -> Result<(Vec<CieRecord>, Vec<FdeEntry>), FrameFault>
    ensures found { IfOk result
        (λ r. HasFdes section bytes.now (map (fde_among r.0.items) r.1.items)) }
    ensures cies { IfOk result (λ r. All (HasCie (length r.0.items)) r.1.items) }
    ensures refused { IfErr result (λ f. (f ≡ FrameFault.NoMemory)
        ⊎ IsRefused section bytes.now f) }
{
    let mut cursor = Cursor::new(bytes, 0, bytes.len());
    let mut cies = Vec::new(alloc);
    // An FDE of a compiler's has 40 bytes and more; room that nothing is put into costs nothing.
    let mut fdes = Vec::with_capacity(alloc, bytes.len() / 32)?;
    while !is_end(cursor.rest()) {
        match whole_record(&mut cursor, section, &cies)? {
            Entry::Cie(cie) => cies.push(cie)?,
            Entry::Fde(fde) => fdes.push(fde)?,
        }
    }
    Ok((cies, fdes))
}

/// The same FDEs. Room for twice as many and more isn't kept.
fn without_spare_room(fdes: Vec<FdeEntry>) -> Vec<FdeEntry>
    ensures { result.items ≡ fdes.items }
{
    let mut fdes = fdes;
    if fdes.len() < fdes.capacity() / 2 {
        fdes.shrink_to_fit();
    }
    fdes
}

/// A section of `.eh_frame`: its bytes, and FDEs that were read in them.
#[derive(Drop)]
pub struct Section {
    address: u64,
    bytes: Vec<u8>,
    fdes: FdeList,
}

impl Model for Section {
    ghost use Rattle.frame_parse.specs.Keeping.{KeepsFdes};
    ghost use Rattle.frame_parse.specs.Sections.{SectionData};

    ghost Value = { SectionData };

    ghost view = { λ s. record { address = s.address; bytes = s.bytes.items; fdes = s.fdes } };

    ghost invariant = { λ s. KeepsFdes s.address s.bytes.items s.fdes };
}

impl Section {
    /// The section whose bytes stand at an address.
    pub fn read(alloc: Global, address: u64, bytes: &[u8]) -> Result<Section, FrameFault>
        ensures address { IfOk result (λ s. s.address ≡ address) }
        ensures bytes { IfOk result (λ s. s.bytes ≡ bytes.now) }
        ensures found { IfOk result (λ s. HasFdes address bytes.now s.fdes) }
        // Any other refusal than for want of memory is the first one.
        ensures refused { IfErr result (λ f. (f ≡ FrameFault.NoMemory)
            ⊎ IsRefused address bytes.now f) }
    {
        let (cies, fdes) = entries_of(alloc, address, bytes)?;
        Ok(Section::of_records(alloc, address, bytes, cies, fdes)?)
    }

    /// The section that keeps these bytes, and not a copy of them, at an address.
    pub fn keep(alloc: Global, address: u64, bytes: Vec<u8>) -> Result<Section, FrameFault>
        ensures kept { IfOk result (λ s. (s.address ≡ address) × (s.bytes ≡ bytes.items)) }
        ensures found { IfOk result (λ s. HasFdes address bytes.items s.fdes) }
        // Any other refusal than for want of memory is the first one.
        ensures refused { IfErr result
            (λ f. (f ≡ FrameFault.NoMemory) ⊎ IsRefused address bytes.items f) }
    {
        let (cies, fdes) = entries_of(alloc, address, &bytes)?;
        Ok(Section::keep_records(alloc, address, bytes, cies, fdes)?)
    }

    /// The section of FDEs that stand in its bytes in this order, each with the number of its CIE.
    pub fn of_records(
        alloc: Global,
        address: u64,
        bytes: &[u8],
        cies: Vec<CieRecord>,
        fdes: Vec<FdeEntry>,
    ) -> Result<Section, AllocError>
        requires cies { All (HasCie (length cies.items)) fdes.items }
        requires kept { KeepsFdes address bytes.now (map (fde_among cies.items) fdes.items) }
        ensures address { IfOk result (λ s. s.address ≡ address) }
        ensures bytes { IfOk result (λ s. s.bytes ≡ bytes.now) }
        ensures fdes { IfOk result (λ s. s.fdes ≡ map (fde_among cies.items) fdes.items) }
    {
        let bytes = Vec::from_slice(alloc, bytes)?;
        Section::keep_records(alloc, address, bytes, cies, fdes)
    }

    fn keep_records(
        alloc: Global,
        address: u64,
        bytes: Vec<u8>,
        cies: Vec<CieRecord>,
        fdes: Vec<FdeEntry>,
    ) -> Result<Section, AllocError>
        requires cies { All (HasCie (length cies.items)) fdes.items }
        requires kept { KeepsFdes address bytes.items (map (fde_among cies.items) fdes.items) }
        ensures { IfOk result (λ s. s ≡ record {
          address = address;
          bytes = bytes.items;
          fdes = map (fde_among cies.items) fdes.items;
        }) }
    {
        let fdes = FdeList::new(alloc, cies, without_spare_room(fdes))?;
        Ok(Section {
            address,
            bytes,
            fdes,
        })
    }

    pub fn address(&self) -> u64
        ensures { result ≡ self.now.address }
    {
        self.address
    }

    pub fn bytes(&self) -> &[u8]
        ensures { result.now ≡ self.now.bytes }
    {
        &self.bytes
    }

    /// How many FDEs there are.
    pub fn count(&self) -> usize
        ensures { result ≡ length self.now.fdes }
    {
        self.fdes.len()
    }

    /// Of every section: its FDEs' programs stand in its bytes, their places ascend among them, and
    /// their addresses end below 2^64.
    pub fn known(&self)
        ensures programs { All (HasPrograms self.now.address self.now.bytes) self.now.fdes }
        ensures ascending { IsAscending (fde_starts self.now.fdes) }
        ensures within { All (λ f. f.start < length self.now.bytes) self.now.fdes }
        ensures ends { All EndsLow self.now.fdes }
    {
        let _ = &self.bytes;
    }

    /// An FDE by its number, in order of bytes.
    pub fn fde(&self, index: usize) -> Fde<'_>
        requires { index < length self.now.fdes }
        ensures entry { slice_get self.now.fdes index ≡ Some result.entry }
        ensures section { result.section ≡ self.now.address }
        ensures bytes { result.bytes ≡ self.now.bytes }
    {
        let (cie, entry) = self.fdes.get(index);
        Fde::new(self.address, &self.bytes, cie, entry)
    }

    /// The place of an FDE's first byte, that of its length, among the section's bytes.
    pub fn fde_place(&self, index: usize) -> usize
        requires { index < length self.now.fdes }
        ensures { option_map (λ f. f.start) (slice_get self.now.fdes index) ≡ Some result }
    {
        self.fdes.get(index).1.start
    }

    /// The first FDE in order of bytes that covers an address.
    pub fn fde_at(&self, pc: u64) -> Option<Fde<'_>>
        ensures entry { option_map (λ f. f.entry) result ≡ first_cover pc self.now.fdes }
        ensures section { IfSome result
            (λ f. (f.section ≡ self.now.address) × (f.bytes ≡ self.now.bytes)) }
    {
        match self.number_at(pc) {
            None => None,
            Some(index) => Some(self.fde(index)),
        }
    }

    /// The number of the first FDE in order of bytes that covers an address.
    pub fn number_at(&self, pc: u64) -> Option<usize>
        ensures value { option_and_then (slice_get self.now.fdes) result
            ≡ first_cover pc self.now.fdes }
        ensures within { IfSome result (λ i. i < length self.now.fdes) }
    {
        self.fdes.cover(pc)
    }
}

/// Each list of bytes has one list of records or one first refusal, never both.
pub fn one_answer()
    ensures { (address : ℕ) (bytes : List ℕ) → HasOneAnswer address bytes }
{}

/// `section_of` is that answer: of a section its contents, of any other bytes their first refusal.
pub fn section_is_answered()
    ensures { (address : ℕ) (bytes : List ℕ) → IsAnswered address bytes }
{}
