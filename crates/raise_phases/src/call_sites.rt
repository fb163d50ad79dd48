//! The header of a table and its call sites, as they are read.

ghost use Rattle.std.specs.Prelude.{◌≡◌, ℕ, Bool};
ghost use Rattle.eh_bytes.specs.CursorData.{Gives};
ghost use Rattle.eh_bytes.specs.Fields.{fixed, uleb, sleb};
ghost use Rattle.eh_bytes.specs.Pointer.{encoded_number, encoded_pointer};
ghost use Rattle.eh_bytes.specs.Results.{with_fault};
ghost use Rattle.raise_phases.specs.CallSites.{lsda_fault, lsda_field, is_encoding_of};
ghost use Rattle.raise_phases.specs.CallSites.{accepted_encoding, pad_start, type_table};
ghost use Rattle.raise_phases.specs.CallSites.{types_told, table_header, call_site, site_covers};
ghost use Rattle.raise_phases.specs.CallSites.{covering_read, sized_sites};

use crate::fault::LsdaFault;
use eh_bytes::{
    ByteFault, Cursor, DW_EH_PE_indirect, DW_EH_PE_omit, DW_EH_PE_sleb128, DW_EH_PE_udata8,
    DW_EH_PE_uleb128, is_pointer,
};

/// The types of a table: each stands so many entries before their end.
#[derive(Clone, Copy, Debug, PartialEq, Eq)]
pub(crate) struct TypeTable {
    pub encoding: u8,
    /// The place of the end, which may lie outside the bytes.
    pub end: u128,
}

/// What stands before the call sites.
#[derive(Clone, Copy, Debug, PartialEq, Eq)]
pub(crate) struct TableHeader {
    /// What pads count from.
    pub pad_start: u64,
    pub types: Option<TypeTable>,
    /// The encoding of the call sites' numbers.
    pub encoding: u8,
    /// How many bytes the call sites have.
    pub length: u64,
}

/// Addresses of the function, and where to go from them.
#[derive(Clone, Copy, Debug, PartialEq, Eq)]
pub(crate) struct CallSite {
    /// How far its first address is from the function's.
    pub start: u64,
    /// How many addresses it has.
    pub length: u64,
    /// How far its pad is from where pads count from; 0 where it has none.
    pub pad: u64,
    /// Its first action record, counted in bytes from 1; 0 where there is cleanup alone.
    pub action: u64,
    /// The place of that number.
    pub action_at: usize,
}

impl CallSite {
    /// Whether the address that lies so far from the function's first one is its.
    #[inline(always)]
    fn covers(&self, distance: u64) -> bool
        ensures { result ≡ site_covers distance self.now }
    {
        self.start <= distance && distance - self.start < self.length
    }
}

/// What a field gave, with its fault as the table's.
#[inline(always)]
pub(crate) fn lsda_field<T: Drop>(read: Result<T, ByteFault>) -> Result<T, LsdaFault>
    ensures { result ≡ with_fault lsda_fault read }
{
    match read {
        Ok(x) => Ok(x),
        Err(ByteFault::Short { at }) => Err(LsdaFault::Short { at }),
        Err(ByteFault::TooWide { at }) => Err(LsdaFault::TooWide { at }),
        Err(ByteFault::Encoding { at, byte }) => Err(LsdaFault::Encoding { at, byte }),
    }
}

#[inline(always)]
fn uleb(cursor: &mut Cursor) -> Result<u64, LsdaFault>
    ensures { Gives (λ x. x) (lsda_field uleb).read cursor.old result cursor.new }
{
    lsda_field(cursor.uleb())
}

#[inline(always)]
pub(crate) fn sleb(cursor: &mut Cursor) -> Result<i64, LsdaFault>
    ensures { Gives (λ x. x) (lsda_field sleb).read cursor.old result cursor.new }
{
    lsda_field(cursor.sleb())
}

#[inline(always)]
fn number(cursor: &mut Cursor, encoding: u8) -> Result<u64, LsdaFault>
    ensures { Gives (λ x. x) (lsda_field (encoded_number encoding)).read
        cursor.old result cursor.new }
{
    lsda_field(cursor.number(encoding))
}

fn pointer(cursor: &mut Cursor, encoding: u8, address: u64) -> Result<u64, LsdaFault>
    ensures { Gives (λ x. x) (lsda_field (encoded_pointer encoding address)).read
        cursor.old result cursor.new }
{
    lsda_field(cursor.pointer(encoding, address))
}

/// A byte of an encoding.
fn byte(cursor: &mut Cursor) -> Result<u8, LsdaFault>
    ensures { Gives (λ x. x) (lsda_field (fixed 1)).read cursor.old result cursor.new }
{
    lsda_field(cursor.u8())
}

/// What a byte of an encoding is of.
#[derive(Clone, Copy)]
pub(crate) enum Encoded {
    /// Where pads count from.
    Pads,
    Types,
    /// The numbers of call sites.
    Sites,
}

fn is_encoding_of(encoded: Encoded, encoding: u8) -> bool
    ensures { result ≡ is_encoding_of encoded encoding }
{
    let format = encoding % 16;
    match encoded {
        Encoded::Pads => {
            is_pointer(encoding) && encoding < DW_EH_PE_indirect || encoding == DW_EH_PE_omit
        }
        Encoded::Types => {
            is_pointer(encoding) && format != DW_EH_PE_uleb128 && format != DW_EH_PE_sleb128
                || encoding == DW_EH_PE_omit
        }
        Encoded::Sites => DW_EH_PE_uleb128 <= encoding && encoding <= DW_EH_PE_udata8,
    }
}

/// An encoding that is accepted.
#[tactic(auto, unfolding(crate::specs::CallSites::accepted_encoding))]
fn accepted_encoding(cursor: &mut Cursor, encoded: Encoded) -> Result<u8, LsdaFault>
    ensures { Gives (λ x. x) (accepted_encoding encoded).read cursor.old result cursor.new }
{
    let at = cursor.at();
    let encoding = byte(cursor)?;
    if is_encoding_of(encoded, encoding) {
        Ok(encoding)
    } else {
        Err(LsdaFault::Encoding { at, byte: encoding })
    }
}

/// What pads count from.
#[tactic(auto, unfolding(crate::specs::CallSites::pad_start))]
fn pad_start(cursor: &mut Cursor, first: u64, address: u64) -> Result<u64, LsdaFault>
    ensures { Gives (λ x. x) (pad_start first address).read cursor.old result cursor.new }
{
    let encoding = accepted_encoding(cursor, Encoded::Pads)?;
    if encoding == DW_EH_PE_omit {
        Ok(first)
    } else {
        pointer(cursor, encoding, address)
    }
}

/// The end of the types, behind the byte of their encoding.
#[tactic(auto, unfolding(crate::specs::CallSites::type_table))]
fn type_table(cursor: &mut Cursor, encoding: u8) -> Result<Option<TypeTable>, LsdaFault>
    ensures { Gives (λ x. x) (type_table encoding).read cursor.old result cursor.new }
{
    let distance = uleb(cursor)?;
    let end = cursor.at() as u128 + distance as u128;
    Ok(Some(TypeTable { encoding, end }))
}

#[tactic(auto, unfolding(crate::specs::CallSites::types_told))]
fn types(cursor: &mut Cursor) -> Result<Option<TypeTable>, LsdaFault>
    ensures { Gives (λ x. x) types_told.read cursor.old result cursor.new }
{
    let encoding = accepted_encoding(cursor, Encoded::Types)?;
    if encoding == DW_EH_PE_omit {
        Ok(None)
    } else {
        type_table(cursor, encoding)
    }
}

/// The header of a table at an address, for a function that starts at `first`.
#[tactic(auto, unfolding(crate::specs::CallSites::table_header))]
pub(crate) fn table_header(
    cursor: &mut Cursor,
    first: u64,
    address: u64,
) -> Result<TableHeader, LsdaFault>
    ensures { Gives (λ h. h) (table_header first address).read cursor.old result cursor.new }
{
    let pad_start = pad_start(cursor, first, address)?;
    let types = types(cursor)?;
    let encoding = accepted_encoding(cursor, Encoded::Sites)?;
    let length = uleb(cursor)?;
    Ok(TableHeader {
        pad_start,
        types,
        encoding,
        length,
    })
}

#[inline(always)]
#[tactic(auto, unfolding(crate::specs::CallSites::call_site))]
fn call_site(cursor: &mut Cursor, encoding: u8) -> Result<CallSite, LsdaFault>
    ensures { Gives (λ s. s) (call_site encoding).read cursor.old result cursor.new }
{
    let start = number(cursor, encoding)?;
    let length = number(cursor, encoding)?;
    let pad = number(cursor, encoding)?;
    let action_at = cursor.at();
    let action = uleb(cursor)?;
    Ok(CallSite {
        start,
        length,
        pad,
        action,
        action_at,
    })
}

/// The first of the call sites that are left which covers the address so far from the function's
/// first one. Each is read whole before it is tested.
fn covering_site(
    sites: &mut Cursor,
    encoding: u8,
    distance: u64,
) -> Result<Option<CallSite>, LsdaFault>
    ensures { result ≡ covering_read encoding distance sites.old }
{
    while sites.left() > 0 {
        let site = call_site(sites, encoding)?;
        if site.covers(distance) {
            return Ok(Some(site));
        }
    }
    Ok(None)
}

/// The call site that counts, behind the header.
#[tactic(auto, unfolding(crate::specs::CallSites::sized_sites, crate::specs::CallSites::covering_site))]
pub(crate) fn sized_sites(
    cursor: &mut Cursor,
    distance: u64,
    header: &TableHeader,
) -> Result<Option<CallSite>, LsdaFault>
    ensures { Gives (λ s. s) (sized_sites distance header.now).read cursor.old result cursor.new }
{
    match cursor.part(header.length as usize) {
        Ok(mut sites) => covering_site(&mut sites, header.encoding, distance),
        Err(_) => Err(LsdaFault::Short { at: cursor.at() }),
    }
}
