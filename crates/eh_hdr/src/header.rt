//! A header, and its lookups.

ghost use Rattle.std.specs.Prelude.{◌≡◌, ◌<◌, ◌⊎◌, length, slice_get, Some, IfOk, IfErr, IfSome};
ghost use Rattle.std.specs.Prelude.{IfNone};
ghost use Rattle.std.specs.List.{All};
ghost use Rattle.std.specs.Option.{option_map};
ghost use Rattle.frame_parse.specs.Sections.{first_cover, IsAscending};
ghost use Rattle.eh_hdr.specs.Headers.{IsHeader, IsRefusedHeader};
ghost use Rattle.eh_hdr.specs.Tables.{entries_of_header, IsLastUpTo, IsSortedTable, locations};

use crate::fault::HeaderFault;
use crate::lookup::{last_up_to, table_cover};
use crate::search_table::SearchTable;
use crate::table::{TableEntry, header_table};
use eh_bytes::Cursor;
use frame_parse::{Fde, Section};
use std::alloc::Global;
use std::marker::Model;

/// A header of a section whose entries were all read.
#[derive(Drop)]
pub struct Header<'s> {
    section: &'s Section,
    table: Option<Vec<TableEntry>>,
}

impl<'s> Model for Header<'s> {
    ghost use Rattle.std.specs.Option.{option_map};
    ghost use Rattle.eh_hdr.specs.Tables.{HeaderData, IsSortedTable};

    ghost Value = { HeaderData };

    ghost view = { λ h. record {
      section = h.section.now;
      table = option_map (λ es. es.items) h.table;
    } };

    ghost invariant = { λ h.
        IsSortedTable h.section.now.fdes (option_map (λ es. es.items) h.table) };
}

impl<'s> Header<'s> {
    /// The header whose bytes stand at an address, beside its section.
    pub fn read(
        alloc: Global,
        address: u64,
        bytes: &[u8],
        section: &'s Section,
    ) -> Result<Header<'s>, HeaderFault>
        ensures section { IfOk result (λ h. h.section ≡ section.now) }
        ensures found { IfOk result (λ h. IsHeader address section.now bytes.now h.table) }
        // Any other refusal than for want of memory is the first one.
        ensures refused { IfErr result (λ f. (f ≡ HeaderFault.NoMemory)
            ⊎ IsRefusedHeader address section.now bytes.now f) }
    {
        let mut cursor = Cursor::new(bytes, 0, bytes.len());
        let table = header_table(alloc, &mut cursor, address, section)?;
        Ok(Header { section, table })
    }

    /// How many entries there are; none where there is no table.
    pub fn count(&self) -> usize
        ensures { result ≡ length (entries_of_header self.now) }
    {
        self.entries().len()
    }

    /// The location of an entry, and the address of its FDE's first byte.
    pub fn entry(&self, index: usize) -> (u64, u64)
        requires { index < length (entries_of_header self.now) }
        ensures { option_map (λ e. (e.location, e.address))
            (slice_get (entries_of_header self.now) index) ≡ Some result }
    {
        let entry = &self.entries()[index];
        (entry.location, entry.address)
    }

    /// The last entry whose location is not above an address.
    pub fn entry_at(&self, pc: u64) -> Option<usize>
        ensures some { IfSome result (λ i. IsLastUpTo pc (entries_of_header self.now) i) }
        ensures none { IfNone result (All (λ e. pc < e.location) (entries_of_header self.now)) }
    {
        last_up_to(self.entries(), pc)
    }

    /// The FDE that the section's own lookup finds.
    pub fn fde_at(&self, pc: u64) -> Option<Fde<'s>>
        ensures entry { option_map (λ f. f.entry) result ≡ first_cover pc self.now.section.fdes }
        ensures section { IfSome result (λ f. (f.section ≡ self.now.section.address)
            × (f.bytes ≡ self.now.section.bytes)) }
    {
        let section = self.section;
        match &self.table {
            None => section.fde_at(pc),
            Some(entries) => table_cover(section, entries, pc),
        }
    }

    /// Its table, for lookups in the section that it was read beside.
    pub fn into_table(self) -> SearchTable
        ensures table { result ≡ self.entry.table }
        ensures sorted { IsSortedTable self.entry.section.fdes result }
    {
        SearchTable::new(self.table)
    }

    fn entries(&self) -> &[TableEntry]
        ensures entries { result.now ≡ entries_of_header self.now }
        ensures ascending { IsAscending (locations result.now) }
    {
        match &self.table {
            None => &[],
            Some(entries) => entries,
        }
    }
}
