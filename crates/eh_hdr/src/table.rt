//! The table and its entries, as they are read.

ghost use Rattle.std.specs.Prelude.{◌≡◌, ◌<◌, length, slice_get, None, IfSome, IfOk};
ghost use Rattle.std.specs.Option.{option_and_then, option_map};
ghost use Rattle.eh_bytes.specs.CursorData.{Gives};
ghost use Rattle.eh_hdr.specs.Headers.{table_entry, table_entries, sorted_table};
ghost use Rattle.eh_hdr.specs.Headers.{header, GivesOrLacks};
ghost use Rattle.eh_hdr.specs.Places.{follows};

use crate::fault::HeaderFault;
use crate::fde_place::named_fde;
use crate::fields::{TableKind, entry_count, header_head, relative};
use eh_bytes::Cursor;
use frame_parse::Section;
use std::alloc::Global;

/// An entry of the table.
#[derive(Clone, Copy, Debug, PartialEq, Eq)]
pub struct TableEntry {
    /// The first address that its FDE covers.
    pub location: u64,
    /// The address of its FDE's first byte.
    pub address: u64,
    /// The number of its FDE in the section, in order of bytes.
    pub fde: usize,
}

/// Whether a location may follow the entry before, which has the FDE of this number; else the
/// refusal at a place.
fn follows(
    section: &Section,
    before: Option<usize>,
    at: usize,
    location: u64,
) -> Result<(), HeaderFault>
    requires { IfSome before (λ i. i < length section.now.fdes) }
    ensures { result ≡ follows (option_and_then (slice_get section.now.fdes) before) at location }
{
    match before {
        None => Ok(()),
        Some(index) => {
            let fde = section.fde(index);
            if location <= fde.first() {
                Err(HeaderFault::Order { at })
            } else if location - fde.first() < fde.range() {
                Err(HeaderFault::Overlap { at })
            } else {
                Ok(())
            }
        }
    }
}

/// An entry, after that which has the FDE of this number.
#[tactic(auto, unfolding(crate::specs::Headers::table_entry))]
fn table_entry(
    cursor: &mut Cursor,
    address: u64,
    section: &Section,
    before: Option<usize>,
) -> Result<TableEntry, HeaderFault>
    requires { IfSome before (λ i. i < length section.now.fdes) }
    ensures read { Gives (λ e. e) (table_entry address section.now
        (option_and_then (slice_get section.now.fdes) before)).read cursor.old result cursor.new }
    ensures fde { IfOk result (λ e. e.fde < length section.now.fdes) }
{
    let at = cursor.at();
    let location = relative(cursor, address, Ok(()))?;
    let follows = follows(section, before, at, location);
    let fde_address = relative(cursor, address, follows)?;
    match named_fde(section, fde_address, location) {
        None => Err(HeaderFault::Fde { at }),
        Some(fde) => {
            follows?;
            Ok(TableEntry {
                location,
                address: fde_address,
                fde,
            })
        }
    }
}

/// So many entries.
fn table_entries(
    alloc: Global,
    cursor: &mut Cursor,
    address: u64,
    section: &Section,
    count: usize,
) -> Result<Vec<TableEntry>, HeaderFault>
    ensures { GivesOrLacks (λ es. es.items) (table_entries address section.now count None).read
        cursor.old result cursor.new }
{
    let mut entries = Vec::with_capacity(alloc, count)?;
    let mut before = None;
    for _ in 0..count {
        let entry = table_entry(cursor, address, section, before)?;
        before = Some(entry.fde);
        entries.push(entry)?;
    }
    Ok(entries)
}

/// The table, where there is one.
#[tactic(auto, unfolding(crate::specs::Headers::sorted_table))]
fn sorted_table(
    alloc: Global,
    cursor: &mut Cursor,
    address: u64,
    section: &Section,
    kind: TableKind,
) -> Result<Option<Vec<TableEntry>>, HeaderFault>
    ensures { GivesOrLacks (option_map (λ es. es.items))
        (sorted_table address section.now kind).read cursor.old result cursor.new }
{
    match kind {
        TableKind::Absent => Ok(None),
        TableKind::Sorted => {
            let count = entry_count(cursor, section)?;
            let entries = table_entries(alloc, cursor, address, section, count)?;
            Ok(Some(entries))
        }
    }
}

/// The table of a whole header at this address.
#[tactic(auto, unfolding(crate::specs::Headers::header))]
pub(crate) fn header_table(
    alloc: Global,
    cursor: &mut Cursor,
    address: u64,
    section: &Section,
) -> Result<Option<Vec<TableEntry>>, HeaderFault>
    ensures { GivesOrLacks (option_map (λ es. es.items)) (header address section.now).read
        cursor.old result cursor.new }
{
    let kind = header_head(cursor, address, section)?;
    sorted_table(alloc, cursor, address, section, kind)
}
