//! How a record is read: its length, its fields, and its instructions.

ghost use Rattle.std.specs.Prelude.{◌≡◌, ◌<◌, length, IfOk, OnOk};
ghost use Rattle.eh_bytes.specs.CursorData.{Gives};
ghost use Rattle.eh_bytes.specs.Grammar.{lift};
ghost use Rattle.eh_bytes.specs.Fields.{fixed};
ghost use Rattle.frame_parse.specs.Entries.{record_among, HasItsCie};
ghost use Rattle.frame_parse.specs.Records.{content, record_length, record_at, whole_record};
ghost use Rattle.frame_parse.specs.Sections.{starts, IsAscending, BeginsAt};

use crate::cie_lookup::cie_after;
use crate::fault::{FrameFault, RecordFault};
use crate::instructions::{Context, ProgramKind, first_state, initial_state, steps};
use crate::records::fields::{at_front, data};
use crate::records::{CieRecord, Entry, Extent, cie, cie_at, fde, four_bytes};
use eh_bytes::Cursor;

/// What stands after the length of a record from `start` to `end`.
#[tactic(auto, unfolding(crate::specs::Records::content))]
fn content(
    cursor: &mut Cursor,
    section: u64,
    earlier: &[CieRecord],
    start: usize,
    end: usize,
) -> Result<Entry, RecordFault>
    requires { IsAscending (starts earlier.now) }
    ensures read { Gives (record_among earlier.now) (content section earlier.now start end).read
        cursor.old result cursor.new }
    ensures start { IfOk result (BeginsAt start) }
    ensures cie { IfOk result (HasItsCie (length earlier.now)) }
{
    let at = cursor.at();
    let id = four_bytes(cursor)?;
    if id == 0 {
        let mut cie = cie(cursor, section, start, end)?;
        let context = Context::new(section, &cie, ProgramKind::Initial);
        let state = steps(&context, cursor, initial_state())?;
        cie.offset = state.offset;
        return Ok(Entry::Cie(cie));
    }
    match cie_after(earlier, at, id as usize) {
        None => Err(RecordFault::NoCie { at }),
        Some(index) => {
            let cie = cie_at(earlier, index);
            let whole = Extent { at: start, end };
            let fde = fde(cursor, section, whole, cie, index)?;
            let context = Context::new(section, cie, ProgramKind::Own);
            let _state = steps(&context, cursor, first_state(cie, fde.first))?;
            Ok(Entry::Fde(fde))
        }
    }
}

/// A number of four bytes at the front of a record.
fn length4(cursor: &mut Cursor, start: usize) -> Result<u32, RecordFault>
    ensures { Gives (λ x. x) (lift (λ f. RecordFault.Short start) (fixed 4)).read
        cursor.old result cursor.new }
{
    at_front(cursor.u32(), start)
}

/// A number of eight bytes at the front of a record.
fn length8(cursor: &mut Cursor, start: usize) -> Result<u64, RecordFault>
    ensures { Gives (λ x. x) (lift (λ f. RecordFault.Short start) (fixed 8)).read
        cursor.old result cursor.new }
{
    at_front(cursor.u64(), start)
}

/// How many bytes follow in a record that begins at `start`.
#[tactic(auto, unfolding(crate::specs::Records::record_length))]
pub fn record_length(cursor: &mut Cursor, start: usize) -> Result<u64, RecordFault>
    ensures read { Gives (λ n. n) (record_length start).read cursor.old result cursor.new }
    ensures moves { OnOk result (length cursor.new.bytes < length cursor.old.bytes) }
{
    let length = length4(cursor, start)?;
    if length == 0xffff_ffff {
        length8(cursor, start)
    } else {
        Ok(length as u64)
    }
}

/// The record that begins at `start`, where the cursor stands.
#[tactic(auto, unfolding(crate::specs::Records::record_at))]
fn record_at(
    cursor: &mut Cursor,
    section: u64,
    earlier: &[CieRecord],
    start: usize,
) -> Result<Entry, RecordFault>
    requires { IsAscending (starts earlier.now) }
    ensures read { Gives (record_among earlier.now) (record_at section earlier.now start).read
        cursor.old result cursor.new }
    ensures moves { OnOk result (length cursor.new.bytes < length cursor.old.bytes) }
    ensures start { IfOk result (BeginsAt start) }
    ensures cie { IfOk result (HasItsCie (length earlier.now)) }
{
    let length = record_length(cursor, start)?;
    let mut inside = data(RecordFault::Short { at: start }, cursor, length)?;
    content(&mut inside, section, earlier, start, cursor.at())
}

/// The record at the cursor. A refusal names its first byte.
#[tactic(auto, unfolding(crate::specs::Records::whole_record))]
pub fn whole_record(
    cursor: &mut Cursor,
    section: u64,
    earlier: &[CieRecord],
) -> Result<Entry, FrameFault>
    requires { IsAscending (starts earlier.now) }
    ensures read { Gives (record_among earlier.now) (whole_record section earlier.now).read
        cursor.old result cursor.new }
    ensures moves { OnOk result (length cursor.new.bytes < length cursor.old.bytes) }
    ensures start { IfOk result (BeginsAt cursor.old.at) }
    ensures cie { IfOk result (HasItsCie (length earlier.now)) }
{
    let start = cursor.at();
    match record_at(cursor, section, earlier, start) {
        Ok(record) => Ok(record),
        Err(fault) => Err(fault.in_record(start)),
    }
}
