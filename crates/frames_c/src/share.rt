//! A section, as its shares have it.

ghost use Rattle.std.specs.Prelude.{◌≡◌, ◌<◌, ◌^◌, [], IfSome, length};
ghost use Rattle.std.specs.Option.{option_map};
ghost use Rattle.eh_hdr.specs.Tables.{IsSortedTable};
ghost use Rattle.frame_parse.specs.Sections.{first_cover, HasFdes};
ghost use Rattle.frames_c.specs.Held.{claim_in, loaded_with};

use eh_hdr::SearchTable;
use frame_parse::{Fde, Section};
use frame_rows::row_at;
use sound_records::{RefusedRecord, SoundSection};
use std::alloc::Global;
use std::marker::Model;
use unwind_step::{FdeRow, RowSource};

/// A section whose places are numbers of four bytes, the records that are refused in it, and the
/// table of its header, where it was read with one.
#[derive(Drop)]
pub struct LoadedSection {
    sound: SoundSection,
    table: Option<SearchTable>,
}

impl Model for LoadedSection {
    ghost use Rattle.std.specs.Prelude.{◌<◌, ◌^◌, length, IfSome};
    ghost use Rattle.eh_hdr.specs.Tables.{IsSortedTable};
    ghost use Rattle.frames_c.specs.Held.{LoadedData, loaded_with};

    ghost Value = { LoadedData };

    ghost view = { λ l. loaded_with l.sound l.table };

    ghost invariant = { λ l. (length l.sound.section.bytes < 2 ^ 32)
        × IfSome l.table (IsSortedTable l.sound.section.fdes) };
}

impl LoadedSection {
    pub(crate) fn new(sound: SoundSection, table: Option<SearchTable>) -> LoadedSection
        requires short { length sound.section.bytes < 2 ^ 32 }
        requires table { IfSome table (IsSortedTable sound.section.fdes) }
        ensures { result ≡ loaded_with sound table }
    {
        LoadedSection { sound, table }
    }

    /// A section in which nothing is refused.
    pub(crate) fn strict(
        alloc: Global,
        section: Section,
        table: Option<SearchTable>,
    ) -> LoadedSection
        requires read { HasFdes section.address section.bytes section.fdes }
        requires short { length section.bytes < 2 ^ 32 }
        requires table { IfSome table (IsSortedTable section.fdes) }
        ensures { result ≡ record { section = section; refused = []; table = table } }
    {
        LoadedSection::new(SoundSection::of_section(alloc, section), table)
    }

    pub(crate) fn section(&self) -> &Section
        ensures { result.now ≡ self.now.section }
    {
        self.sound.section()
    }

    /// The records that are refused, in order of bytes.
    pub(crate) fn refused(&self) -> &[RefusedRecord]
        ensures { result.now ≡ self.now.refused }
    {
        self.sound.refused()
    }

    /// The refused record that answers at an address. Where there is none the FDEs do.
    #[inline(always)]
    pub(crate) fn claim_at(&self, pc: u64) -> Option<RefusedRecord>
        ensures { result ≡ claim_in pc self.now }
    {
        self.sound.claim_at(pc)
    }

    /// The first FDE in order of bytes that covers an address, by the table where there is one.
    pub(crate) fn fde_at(&self, pc: u64) -> Option<Fde<'_>>
        ensures entry { option_map (λ f. f.entry) result ≡ first_cover pc self.now.section.fdes }
        ensures section { IfSome result
            (λ f. (f.section ≡ self.now.section.address) × (f.bytes ≡ self.now.section.bytes)) }
        ensures place { IfSome result (λ f. f.entry.start < 2 ^ 32) }
    {
        let section = self.sound.section();
        section.known();
        match &self.table {
            None => section.fde_at(pc),
            Some(table) => table.fde_at(section, pc),
        }
    }
}

impl RowSource for LoadedSection {
    ghost section = { λ l. l.section };

    #[inline(always)]
    fn row_of(&self, pc: u64) -> Option<FdeRow<'_>> {
        let fde = self.fde_at(pc)?;
        let row = row_at(&fde, pc);
        Some(FdeRow { fde, row })
    }
}
