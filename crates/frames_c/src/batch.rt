//! The rows of many addresses at once.

ghost use Rattle.std.specs.Prelude.{◌≡◌, length};
ghost use Rattle.c_handle.specs.Handles.{LeadsNowhere, LeadsSomewhere};
ghost use Rattle.frames_c.specs.Held.{held_loaded};
ghost use Rattle.frames_c.specs.Batches.{IsBatchRow, AreRowsBelow, AnswersRows};

use crate::handles::SectionHandle;
use crate::row::{FramesRow, row_by_fde};
use crate::share::LoadedSection;
use std::alloc::Global;

/// The row of an address that no FDE covers, in a batch.
const NO_ROW: FramesRow = FramesRow {
    cfa: 3,
    cfa_column: 0,
    cfa_offset: 0,
    rules: [0; 17],
    numbers: [0; 17],
};

/// The row of an address at which a refused record answers, in a batch.
const REFUSED_ROW: FramesRow = FramesRow { cfa: 4, ..NO_ROW };

/// Writes the row of an address, or why there is none.
fn write_row(section: &LoadedSection, pc: u64, out: &mut FramesRow)
    ensures { IsBatchRow section.now pc out.new }
{
    match section.claim_at(pc) {
        Some(_) => *out = REFUSED_ROW,
        None => {
            if !row_by_fde(section, pc, out) {
                *out = NO_ROW;
            }
        }
    }
}

/// Writes the row of each address in its place.
fn write_rows(section: &LoadedSection, pcs: &[u64], rows: &mut [FramesRow])
    requires { length rows.old ≡ length pcs.now }
    ensures rows { AreRowsBelow (length pcs.now) section.now pcs.now rows.new }
    ensures length { length rows.new ≡ length pcs.now }
{
    for index in 0..pcs.len() {
        write_row(section, pcs[index], &mut rows[index]);
    }
}

/// The rows of many addresses, each in the place of its address. One that no FDE covers has a CFA
/// rule of kind 3, and one at which a refused record answers of kind 4. False where there aren't as
/// many rows as addresses, and then nothing is written.
#[unsafe(no_mangle)]
pub extern "C" fn frames_c_rows(
    alloc: Global,
    section: SectionHandle,
    pcs: &[u64],
    rows: &mut [FramesRow],
    back: &mut SectionHandle,
) -> bool
    requires held { LeadsSomewhere section.held }
    requires back { LeadsNowhere back.old.held }
    ensures back { back.new.held ≡ section.held }
    ensures rows { AnswersRows (held_loaded section.held) pcs.now rows.old result rows.new }
{
    let fits = rows.len() == pcs.len();
    let share = section.open(alloc);
    if fits {
        write_rows(share.get(), pcs, rows);
    }
    *back = SectionHandle::of(share);
    fits
}
