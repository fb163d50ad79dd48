//! The fields of a CIE.

ghost use Rattle.std.specs.Prelude.{◌≡◌, IfOk};
ghost use Rattle.eh_bytes.specs.CursorData.{Gives};
ghost use Rattle.frame_parse.specs.Records.{has_data, version, augmentation, return_column, cie};

use super::augmentation::{augmentation_data, is_augmentation};
use super::fields::{byte, sleb, text, uleb};
use super::{CieRecord, Extent};
use crate::fault::RecordFault;
use eh_bytes::Cursor;

#[tactic(auto, unfolding(crate::specs::Records::version))]
fn version(cursor: &mut Cursor) -> Result<u8, RecordFault>
    ensures { Gives (λ v. v) version.read cursor.old result cursor.new }
{
    let at = cursor.at();
    let version = byte(cursor)?;
    if version == 1 || version == 3 {
        Ok(version)
    } else {
        Err(RecordFault::Version { at, byte: version })
    }
}

#[tactic(auto, unfolding(crate::specs::Records::augmentation))]
fn augmentation<'a>(cursor: &mut Cursor<'a>) -> Result<&'a [u8], RecordFault>
    ensures { Gives (λ t. t.now) augmentation.read cursor.old result cursor.new }
{
    let at = cursor.at();
    let text = text(cursor)?;
    if is_augmentation(text) {
        Ok(text)
    } else {
        Err(RecordFault::Augmentation { at })
    }
}

/// The return address is in column 16.
#[tactic(auto, unfolding(crate::specs::Records::return_column))]
fn return_column(cursor: &mut Cursor, version: u8) -> Result<(), RecordFault>
    ensures { Gives (λ u. u) (return_column version).read cursor.old result cursor.new }
{
    let at = cursor.at();
    let column = if version == 1 {
        byte(cursor)? as u64
    } else {
        uleb(cursor)?
    };
    if column == 16 {
        Ok(())
    } else {
        Err(RecordFault::Column { at, column })
    }
}

/// The fields after the id of a record from `start` to `end`. What is left of it are the initial
/// instructions.
#[tactic(auto, unfolding(crate::specs::Records::cie))]
pub(crate) fn cie(
    cursor: &mut Cursor,
    section: u64,
    start: usize,
    end: usize,
) -> Result<CieRecord, RecordFault>
    ensures read { Gives (λ c. c) (cie section start end).read cursor.old result cursor.new }
    ensures start { IfOk result (λ c. c.start ≡ start) }
{
    let version = version(cursor)?;
    let text = augmentation(cursor)?;
    let code_alignment = uleb(cursor)?;
    let data_alignment = sleb(cursor)?;
    return_column(cursor, version)?;
    let augmentation = augmentation_data(cursor, section, text)?;
    Ok(CieRecord {
        start,
        code_alignment,
        data_alignment,
        has_data: !text.is_empty(),
        augmentation,
        offset: false,
        initial: Extent {
            at: cursor.at(),
            end,
        },
    })
}
