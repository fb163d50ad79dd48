//! The row of an address.

ghost use Rattle.std.specs.Prelude.{◌≡◌, true, false};
ghost use Rattle.c_handle.specs.Handles.{LeadsNowhere, LeadsSomewhere};
ghost use Rattle.frames_c.specs.Held.{held_loaded, unclaimed_fde};
ghost use Rattle.frames_c.specs.Rows.{AnswersRow};

use crate::handles::{RowTableHandle, SectionHandle};
use crate::row::{FramesRow, row_in};
use std::alloc::Global;

/// The row of an address by the first FDE in order of bytes that covers it; false where none does,
/// or a refused record answers, and then nothing is written.
#[unsafe(no_mangle)]
pub extern "C" fn frames_c_row(
    alloc: Global,
    section: SectionHandle,
    pc: u64,
    out: &mut FramesRow,
    back: &mut SectionHandle,
) -> bool
    requires held { LeadsSomewhere section.held }
    requires back { LeadsNowhere back.old.held }
    ensures back { back.new.held ≡ section.held }
    ensures row { AnswersRow (unclaimed_fde pc (held_loaded section.held))
        pc result out.old out.new }
{
    let share = section.open(alloc);
    let found = row_in(share.get(), pc, out);
    *back = SectionHandle::of(share);
    found
}

/// The row of an address, as `frames_c_row` of the section tells it.
#[unsafe(no_mangle)]
pub extern "C" fn frames_c_row_table_row(
    alloc: Global,
    table: RowTableHandle,
    pc: u64,
    out: &mut FramesRow,
    back: &mut RowTableHandle,
) -> bool
    requires held { LeadsSomewhere table.held }
    requires back { LeadsNowhere back.old.held }
    ensures back { back.new.held ≡ table.held }
    ensures row { AnswersRow (unclaimed_fde pc (held_loaded table.held)) pc result out.old out.new }
{
    let share = table.open(alloc);
    let found = share.get().row_in(pc, out);
    *back = RowTableHandle::of(share);
    found
}
