//! The fields of records, each read where the cursor stands.

ghost use Rattle.std.specs.Prelude.{◌≡◌, ◌%◌, ◌^◌};
ghost use Rattle.eh_bytes.specs.CursorData.{Gives, data_at};
ghost use Rattle.eh_bytes.specs.Results.{with_fault};
ghost use Rattle.eh_bytes.specs.Pointer.{encoded_number, base_of};
ghost use Rattle.frame_parse.specs.Fields.{field_fault, field, pointer, optional_pointer};
ghost use Rattle.frame_parse.specs.Fields.{is_negative, is_code_encoding, is_data_encoding};
ghost use Rattle.frame_parse.specs.Fields.{encoding};
ghost use Rattle.eh_bytes.specs.Fields.{fixed, uleb, sleb, text};

use crate::fault::RecordFault;
use eh_bytes::{
    ByteFault, Cursor, DW_EH_PE_indirect, DW_EH_PE_omit, DW_EH_PE_pcrel, DW_EH_PE_sleb128,
    application_of, is_pointer,
};

/// What a field gave, with its fault as the record's.
#[inline(always)]
fn field<T: Drop>(read: Result<T, ByteFault>) -> Result<T, RecordFault>
    ensures { result ≡ with_fault field_fault read }
{
    match read {
        Ok(x) => Ok(x),
        Err(ByteFault::Short { at }) => Err(RecordFault::Short { at }),
        Err(ByteFault::TooWide { at }) => Err(RecordFault::TooWide { at }),
        Err(ByteFault::Encoding { at, byte }) => Err(RecordFault::Encoding { at, byte }),
    }
}

/// What was read at the front of a record, where the record's start is refused if it isn't whole.
pub(crate) fn at_front<T: Drop>(read: Result<T, ByteFault>, start: usize) -> Result<T, RecordFault>
    ensures { result ≡ with_fault (λ _. RecordFault.Short start) read }
{
    match read {
        Ok(length) => Ok(length),
        Err(_) => Err(RecordFault::Short { at: start }),
    }
}

#[inline(always)]
pub(crate) fn byte(cursor: &mut Cursor) -> Result<u8, RecordFault>
    ensures { Gives (λ x. x) (field (fixed 1)).read cursor.old result cursor.new }
{
    field(cursor.u8())
}

/// A number of four bytes, the lowest first.
#[inline(always)]
pub fn four_bytes(cursor: &mut Cursor) -> Result<u32, RecordFault>
    ensures { Gives (λ x. x) (field (fixed 4)).read cursor.old result cursor.new }
{
    field(cursor.u32())
}

#[inline(always)]
pub(crate) fn uleb(cursor: &mut Cursor) -> Result<u64, RecordFault>
    ensures { Gives (λ x. x) (field uleb).read cursor.old result cursor.new }
{
    field(cursor.uleb())
}

pub(crate) fn sleb(cursor: &mut Cursor) -> Result<i64, RecordFault>
    ensures { Gives (λ x. x) (field sleb).read cursor.old result cursor.new }
{
    field(cursor.sleb())
}

pub(crate) fn text<'a>(cursor: &mut Cursor<'a>) -> Result<&'a [u8], RecordFault>
    ensures { Gives (λ t. t.now) (field text).read cursor.old result cursor.new }
{
    match cursor.text() {
        Ok(text) => Ok(text),
        Err(fault) => field(Err(fault)),
    }
}

/// The next bytes, as a cursor of their own. `short` is the fault where they aren't there.
pub(crate) fn data<'a>(
    short: RecordFault,
    cursor: &mut Cursor<'a>,
    length: u64,
) -> Result<Cursor<'a>, RecordFault>
    ensures { Gives (λ d. d) (data_at short length) cursor.old result cursor.new }
{
    match cursor.part(length as usize) {
        Ok(data) => Ok(data),
        Err(_) => Err(short),
    }
}

/// The number of a pointer in an encoding, before anything is added to it.
pub(crate) fn number(cursor: &mut Cursor, encoding: u8) -> Result<u64, RecordFault>
    ensures { Gives (λ x. x) (field (encoded_number encoding)).read cursor.old result cursor.new }
{
    field(cursor.number(encoding))
}

/// What an encoding adds to a number at a place.
fn base(section: u64, encoding: u8, at: usize) -> u64
    ensures { result ≡ base_of encoding section at % 2 ^ 64 }
{
    if application_of(encoding) == DW_EH_PE_pcrel {
        section.wrapping_add(at as u64)
    } else {
        0
    }
}

/// An address in an encoding, in a section at this address. Nothing is read through it.
#[tactic(auto, unfolding(crate::specs::Fields::pointer))]
pub fn pointer(cursor: &mut Cursor, section: u64, encoding: u8) -> Result<u64, RecordFault>
    ensures { Gives (λ x. x) (pointer section encoding).read cursor.old result cursor.new }
{
    let at = cursor.at();
    let number = number(cursor, encoding)?;
    Ok(number.wrapping_add(base(section, encoding, at)))
}

#[tactic(auto, unfolding(crate::specs::Fields::optional_pointer))]
pub(crate) fn optional_pointer(
    cursor: &mut Cursor,
    section: u64,
    encoding: u8,
) -> Result<Option<u64>, RecordFault>
    ensures { Gives (λ x. x) (optional_pointer section encoding).read
        cursor.old result cursor.new }
{
    let at = cursor.at();
    let number = number(cursor, encoding)?;
    if number == 0 {
        return Ok(None);
    }
    Ok(Some(number.wrapping_add(base(section, encoding, at))))
}

/// Whether the number has the sign of its encoding's format.
pub(crate) fn is_negative(encoding: u8, number: u64) -> bool
    ensures { result ≡ is_negative encoding number }
{
    DW_EH_PE_sleb128 <= encoding % 16 && 1 << 63 <= number
}

/// An encoding of addresses of code.
#[tactic(auto, unfolding(crate::specs::Fields::encoding))]
pub(crate) fn code_encoding(cursor: &mut Cursor) -> Result<u8, RecordFault>
    ensures { Gives (λ x. x) (encoding is_code_encoding).read cursor.old result cursor.new }
{
    let at = cursor.at();
    let encoding = byte(cursor)?;
    if !(is_pointer(encoding) && encoding < DW_EH_PE_indirect) {
        return Err(RecordFault::Encoding { at, byte: encoding });
    }
    Ok(encoding)
}

/// An encoding of addresses of data, or `DW_EH_PE_omit`.
#[tactic(auto, unfolding(crate::specs::Fields::encoding))]
pub(crate) fn data_encoding(cursor: &mut Cursor) -> Result<u8, RecordFault>
    ensures { Gives (λ x. x) (encoding is_data_encoding).read cursor.old result cursor.new }
{
    let at = cursor.at();
    let encoding = byte(cursor)?;
    if !(is_pointer(encoding) || encoding == DW_EH_PE_omit) {
        return Err(RecordFault::Encoding { at, byte: encoding });
    }
    Ok(encoding)
}

/// Two bytes, the lowest first.
#[inline(always)]
pub(crate) fn two_bytes(cursor: &mut Cursor) -> Result<u16, RecordFault>
    ensures { Gives (λ x. x) (field (fixed 2)).read cursor.old result cursor.new }
{
    field(cursor.u16())
}
