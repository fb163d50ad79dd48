//! The fields before the table: the version, the encodings and the pointer to the section.

ghost use Rattle.std.specs.Prelude.{◌≡◌};
ghost use Rattle.eh_bytes.specs.CursorData.{Gives};
ghost use Rattle.eh_hdr.specs.Headers.{octet, relative, header_version};
ghost use Rattle.eh_hdr.specs.Headers.{table_encoding, pointer_encoding, count_encoding};
ghost use Rattle.eh_hdr.specs.Headers.{entry_encoding, section_pointer, entry_count, header_head};

use crate::fault::HeaderFault;
use eh_bytes::{Cursor, DW_EH_PE_omit, DW_EH_PE_udata4};
use frame_parse::Section;

/// Four signed bytes, to which the address of the first one is added.
pub const PCREL_SDATA4: u8 = 0x1b;
/// Four signed bytes, to which the header's address is added.
pub const DATAREL_SDATA4: u8 = 0x3b;

/// Whether a header has a table.
#[derive(Clone, Copy, Debug, PartialEq, Eq)]
pub enum TableKind {
    Sorted,
    Absent,
}

/// A byte.
#[tactic(auto, unfolding(crate::specs::Headers::octet))]
fn octet(cursor: &mut Cursor) -> Result<u8, HeaderFault>
    ensures { Gives (λ x. x) octet.read cursor.old result cursor.new }
{
    let at = cursor.at();
    match cursor.u8() {
        Ok(byte) => Ok(byte),
        Err(_) => Err(HeaderFault::Short { at }),
    }
}

/// An address, told by its distance from another. Where the number isn't whole, what was wrong
/// before it counts first.
#[tactic(auto, unfolding(crate::specs::Headers::relative))]
pub(crate) fn relative(
    cursor: &mut Cursor,
    base: u64,
    before: Result<(), HeaderFault>,
) -> Result<u64, HeaderFault>
    ensures { Gives (λ x. x) (relative base before).read cursor.old result cursor.new }
{
    let at = cursor.at();
    match cursor.i32() {
        Ok(distance) => Ok(i64::from(distance).cast_unsigned().wrapping_add(base)),
        Err(_) => match before {
            Ok(()) => Err(HeaderFault::Short { at }),
            Err(fault) => Err(fault),
        },
    }
}

#[tactic(auto, unfolding(crate::specs::Headers::header_version))]
fn version(cursor: &mut Cursor) -> Result<(), HeaderFault>
    ensures { Gives (λ u. u) header_version.read cursor.old result cursor.new }
{
    let at = cursor.at();
    let version = octet(cursor)?;
    if version == 1 {
        Ok(())
    } else {
        Err(HeaderFault::Version { at })
    }
}

/// The encoding of the pointer to the section.
#[tactic(auto, unfolding(crate::specs::Headers::pointer_encoding))]
fn pointer_encoding(cursor: &mut Cursor) -> Result<(), HeaderFault>
    ensures { Gives (λ u. u) pointer_encoding.read cursor.old result cursor.new }
{
    let at = cursor.at();
    let encoding = octet(cursor)?;
    if encoding == PCREL_SDATA4 {
        Ok(())
    } else {
        Err(HeaderFault::Encoding { at })
    }
}

/// The encoding of the count, which tells whether there is a table.
#[tactic(auto, unfolding(crate::specs::Headers::count_encoding))]
fn count_encoding(cursor: &mut Cursor) -> Result<TableKind, HeaderFault>
    ensures { Gives (λ kind. kind) count_encoding.read cursor.old result cursor.new }
{
    let at = cursor.at();
    let encoding = octet(cursor)?;
    if encoding == DW_EH_PE_udata4 {
        Ok(TableKind::Sorted)
    } else if encoding == DW_EH_PE_omit {
        Ok(TableKind::Absent)
    } else {
        Err(HeaderFault::Encoding { at })
    }
}

fn table_encoding(kind: TableKind) -> u8
    ensures { result ≡ table_encoding kind }
{
    match kind {
        TableKind::Sorted => DATAREL_SDATA4,
        TableKind::Absent => DW_EH_PE_omit,
    }
}

/// The encoding of the table's entries.
#[tactic(auto, unfolding(crate::specs::Headers::entry_encoding))]
fn entry_encoding(cursor: &mut Cursor, kind: TableKind) -> Result<(), HeaderFault>
    ensures { Gives (λ u. u) (entry_encoding kind).read cursor.old result cursor.new }
{
    let at = cursor.at();
    let encoding = octet(cursor)?;
    if encoding == table_encoding(kind) {
        Ok(())
    } else {
        Err(HeaderFault::Encoding { at })
    }
}

/// The pointer, in a header at this address.
#[tactic(auto, unfolding(crate::specs::Headers::section_pointer))]
fn section_pointer(cursor: &mut Cursor, address: u64, section: &Section) -> Result<(), HeaderFault>
    ensures { Gives (λ u. u) (section_pointer address section.now).read
        cursor.old result cursor.new }
{
    let at = cursor.at();
    let pointer = relative(cursor, address.wrapping_add(at as u64), Ok(()))?;
    if pointer == section.address() {
        Ok(())
    } else {
        Err(HeaderFault::Section { at })
    }
}

/// How many entries the table has.
#[tactic(auto, unfolding(crate::specs::Headers::entry_count))]
pub(crate) fn entry_count(cursor: &mut Cursor, section: &Section) -> Result<usize, HeaderFault>
    ensures { Gives (λ n. n) (entry_count section.now).read cursor.old result cursor.new }
{
    let at = cursor.at();
    match cursor.u32() {
        Ok(count) => {
            if count as usize == section.count() {
                Ok(count as usize)
            } else {
                Err(HeaderFault::Count { at })
            }
        }
        Err(_) => Err(HeaderFault::Short { at }),
    }
}

/// All fields before the table, in a header at this address.
#[tactic(auto, unfolding(crate::specs::Headers::header_head))]
pub(crate) fn header_head(
    cursor: &mut Cursor,
    address: u64,
    section: &Section,
) -> Result<TableKind, HeaderFault>
    ensures { Gives (λ kind. kind) (header_head address section.now).read
        cursor.old result cursor.new }
{
    version(cursor)?;
    pointer_encoding(cursor)?;
    let kind = count_encoding(cursor)?;
    entry_encoding(cursor, kind)?;
    section_pointer(cursor, address, section)?;
    Ok(kind)
}
