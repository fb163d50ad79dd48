//! Row tables are made.

ghost use Rattle.std.specs.Prelude.{◌≡◌, ◌⊎◌, IfOk, IfErr};
ghost use Rattle.c_handle.specs.Handles.{LeadsNowhere, LeadsSomewhere};
ghost use Rattle.row_table.specs.Tables.{HasTooManyRows};
ghost use Rattle.frames_c.specs.RowTables.{table_fault_told, AnswersRowTable};

use crate::handles::{RowTableHandle, SectionHandle};
use crate::row_share::RowsOfSection;
use crate::share::LoadedSection;
use c_handle::Shared;
use row_table::TableFault;
use std::alloc::Global;

/// The first share of a section's row table, in a box of its own.
fn made(
    alloc: Global,
    share: &Shared<LoadedSection>,
) -> Result<Box<Shared<RowsOfSection>, Global>, TableFault>
    ensures share { IfOk result (λ table. table.value ≡ share.now) }
    ensures refused { IfErr result (λ fault. (fault ≡ TableFault.NoMemory)
        ⊎ HasTooManyRows share.now.section) }
{
    let own = share.another()?;
    let rows = RowsOfSection::of(alloc, own)?;
    let table = Shared::new(alloc, rows)?;
    match Box::new(alloc, table) {
        Ok(boxed) => Ok(boxed),
        Err(_) => Err(TableFault::NoMemory),
    }
}

/// Why there is no table, as C is told.
fn told(fault: TableFault) -> u64
    ensures { result ≡ table_fault_told fault }
{
    match fault {
        TableFault::NoMemory => 1,
        TableFault::TooManyRows => 2,
    }
}

/// Works out all rows of a section, and keeps those that differ. What came of it: 0 the table,
/// which has a share of the section, 1 memory ran out, 2 more than 65,536 rows differ.
#[unsafe(no_mangle)]
pub extern "C" fn frames_c_row_table(
    alloc: Global,
    section: SectionHandle,
    out: &mut RowTableHandle,
    back: &mut SectionHandle,
) -> u64
    requires held { LeadsSomewhere section.held }
    requires back { LeadsNowhere back.old.held }
    requires out { LeadsNowhere out.old.held }
    ensures back { back.new.held ≡ section.held }
    ensures table { AnswersRowTable section.held result out.new.held }
{
    let share = section.open(alloc);
    let result = match made(alloc, &share) {
        Ok(table) => {
            *out = RowTableHandle::of(table);
            0
        }
        Err(fault) => told(fault),
    };
    *back = SectionHandle::of(share);
    result
}
