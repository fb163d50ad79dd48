//! The fields of an FDE.

ghost use Rattle.std.specs.Prelude.{◌≡◌, IfOk};
ghost use Rattle.eh_bytes.specs.CursorData.{Gives};
ghost use Rattle.frame_parse.specs.Entries.{with_cie};
ghost use Rattle.frame_parse.specs.Records.{range, lsda, fde};

use super::fields::{data, is_negative, number, optional_pointer, pointer, uleb};
use super::{CieRecord, Extent, FdeEntry};
use crate::fault::RecordFault;
use eh_bytes::{Cursor, DW_EH_PE_omit};

/// How many addresses an FDE covers from a first one on, in its CIE's encoding. A number with a
/// sign, or one with which the addresses end past 2^64, is refused.
#[tactic(auto, unfolding(crate::specs::Records::range))]
pub fn range(cursor: &mut Cursor, encoding: u8, first: u64) -> Result<u64, RecordFault>
    ensures { Gives (λ x. x) (range encoding first).read cursor.old result cursor.new }
{
    let at = cursor.at();
    let size = number(cursor, encoding)?;
    if !is_negative(encoding, size) && size <= u64::MAX - first {
        Ok(size)
    } else {
        Err(RecordFault::Range { at })
    }
}

#[tactic(auto, unfolding(crate::specs::Records::lsda))]
fn lsda(cursor: &mut Cursor, section: u64, cie: &CieRecord) -> Result<Option<u64>, RecordFault>
    ensures { Gives (λ x. x) (lsda section cie.now).read cursor.old result cursor.new }
{
    if !cie.has_data {
        return Ok(None);
    }
    let length = uleb(cursor)?;
    let at = cursor.at();
    let mut inside = data(RecordFault::Short { at }, cursor, length)?;
    if cie.augmentation.lsda == DW_EH_PE_omit || length == 0 {
        return Ok(None);
    }
    optional_pointer(&mut inside, section, cie.augmentation.lsda)
}

/// The fields after the id of a record, where the CIE has this number. What is left of the record
/// are the instructions.
#[tactic(auto, unfolding(crate::specs::Records::fde))]
pub(crate) fn fde(
    cursor: &mut Cursor,
    section: u64,
    whole: Extent,
    cie: &CieRecord,
    number: usize,
) -> Result<FdeEntry, RecordFault>
    ensures read { Gives (with_cie cie.now) (fde section whole.at whole.end cie.now).read
        cursor.old result cursor.new }
    ensures start { IfOk result (λ f. f.start ≡ whole.at) }
    ensures cie { IfOk result (λ f. f.cie ≡ number) }
{
    let pointers = cie.augmentation.pointers;
    let first = pointer(cursor, section, pointers)?;
    let range = range(cursor, pointers, first)?;
    let lsda = lsda(cursor, section, cie)?;
    Ok(FdeEntry {
        start: whole.at,
        cie: number,
        first,
        range,
        lsda,
        program: Extent {
            at: cursor.at(),
            end: whole.end,
        },
    })
}
