//! A section with its header is read in one call.

ghost use Rattle.std.specs.Prelude.{◌≡◌, ◌⊎◌, ◌<◌, ◌^◌, [], length, true, false, IfOk, IfErr};
ghost use Rattle.c_handle.specs.Handles.{LeadsNowhere};
ghost use Rattle.c_sections.specs.Refusals.{IsToldRefusal};
ghost use Rattle.eh_hdr.specs.Headers.{IsHeader, IsRefusedHeader};
ghost use Rattle.eh_hdr.specs.Tables.{IsSortedTable};
ghost use Rattle.eh_hdr.specs.declared.fault.HeaderFault.TheVariants.{NoMemory};
ghost use Rattle.frame_parse.specs.Sections.{HasFdes};
ghost use Rattle.frames_c.specs.Loads.{LeadsToLoaded, HasNothingRefused};
ghost use Rattle.frames_c.specs.HeaderAnswers.{header_refused, IsHeaderTold, LeadsWithHeader};

use crate::handles::SectionHandle;
use crate::reading::{refuse, shared};
use crate::share::LoadedSection;
use c_sections::{FramesRefusal, read_section};
use eh_hdr::{Header, HeaderFault, SearchTable};
use frame_parse::Section;
use std::alloc::Global;

/// What came of a header: whether it is accepted, else the kind of its refusal and the place that
/// is refused.
#[repr(C)]
#[derive(Clone, Copy)]
pub struct FramesHeader {
    pub accepted: u64,
    pub kind: u64,
    pub at: u64,
}

impl FramesHeader {
    fn refused(fault: HeaderFault) -> FramesHeader
        ensures { result ≡ header_refused fault }
    {
        let (kind, at) = match fault {
            HeaderFault::NoMemory => (0, 0),
            HeaderFault::Short { at } => (1, at),
            HeaderFault::Version { at } => (2, at),
            HeaderFault::Encoding { at } => (3, at),
            HeaderFault::Section { at } => (4, at),
            HeaderFault::Count { at } => (5, at),
            HeaderFault::Fde { at } => (6, at),
            HeaderFault::Order { at } => (7, at),
            HeaderFault::Overlap { at } => (8, at),
        };
        FramesHeader {
            accepted: 0,
            kind,
            at: at as u64,
        }
    }
}

/// The table of a section's header.
fn read_table(
    alloc: Global,
    address: u64,
    bytes: &[u8],
    section: &Section,
) -> Result<SearchTable, HeaderFault>
    ensures found { IfOk result (IsHeader address section.now bytes.now) }
    ensures sorted { IfOk result (IsSortedTable section.now.fdes) }
    ensures refused { IfErr result (λ f. (f ≡ NoMemory)
        ⊎ IsRefusedHeader address section.now bytes.now f) }
{
    match Header::read(alloc, address, bytes, section) {
        Ok(header) => Ok(header.into_table()),
        Err(fault) => Err(fault),
    }
}

/// A section with the table of its header, where the header is accepted, and what came of that.
fn with_table(
    alloc: Global,
    section: Section,
    address: u64,
    bytes: &[u8],
) -> (LoadedSection, FramesHeader)
    requires read { HasFdes section.address section.bytes section.fdes }
    requires short { length section.bytes < 2 ^ 32 }
    ensures section { result.0.section ≡ section }
    ensures sound { result.0.refused ≡ [] }
    ensures told { IsHeaderTold address result.0 bytes.now result.1 }
{
    match read_table(alloc, address, bytes, &section) {
        Ok(table) => {
            let told = FramesHeader {
                accepted: 1,
                kind: 0,
                at: 0,
            };
            (LoadedSection::strict(alloc, section, Some(table)), told)
        }
        Err(fault) => {
            let told = FramesHeader::refused(fault);
            (LoadedSection::strict(alloc, section, None), told)
        }
    }
}

/// Reads the section whose bytes stand at an address, and then the header at another, whose table
/// is kept and serves the lookups. What came of the header is told where there is a section. Where
/// the header is refused, the section's own order serves.
#[unsafe(no_mangle)]
pub extern "C" fn frames_c_read_with_header(
    alloc: Global,
    address: u64,
    bytes: &[u8],
    header_address: u64,
    header: &[u8],
    refusal: &mut FramesRefusal,
    told: &mut FramesHeader,
    out: &mut SectionHandle,
) -> bool
    requires out { LeadsNowhere out.old.held }
    ensures section { result ≡ true → LeadsToLoaded address bytes.now out.new.held }
    ensures sound { result ≡ true → HasNothingRefused out.new.held }
    ensures header { result ≡ true
        → LeadsWithHeader header_address header.now out.new.held told.new }
    ensures unrefused { result ≡ true → refusal.new ≡ refusal.old }
    ensures refusal { result ≡ false → IsToldRefusal address bytes.now refusal.new }
    ensures untold { result ≡ false → told.new ≡ told.old }
    ensures nothing { result ≡ false → LeadsNowhere out.new.held }
{
    let section = match read_section(alloc, address, bytes) {
        Ok(section) => section,
        Err(fault) => return refuse(fault, refusal),
    };
    let (loaded, came) = with_table(alloc, section, header_address, header);
    match shared(alloc, loaded) {
        Ok(share) => {
            *told = came;
            *out = SectionHandle::of(share);
            true
        }
        Err(fault) => refuse(fault, refusal),
    }
}
