//! A row table, as its shares have it.

ghost use Rattle.std.specs.Prelude.{◌≡◌, ◌⊎◌, IfOk, IfErr};
ghost use Rattle.std.specs.List.{AllZip};
ghost use Rattle.row_table.specs.Tables.{IsRowTableOf, HasTooManyRows};
ghost use Rattle.unwind_step.specs.Backtrace.{fde_in};
ghost use Rattle.frames_c.specs.Held.{unclaimed_fde};
ghost use Rattle.frames_c.specs.Rows.{IsToldPlaced, AnswersRow};

use crate::row::FramesRow;
use crate::share::LoadedSection;
use crate::told_rows::told_rows;
use c_handle::Shared;
use frame_parse::Section;
use row_table::{RowTable, SectionRows, TableFault};
use std::alloc::Global;
use std::marker::Model;

/// A share of a section, the table of its rows, and those of them that differ as C is told.
#[derive(Drop)]
pub struct RowsOfSection {
    share: Shared<LoadedSection>,
    table: RowTable,
    told: Vec<FramesRow>,
}

impl Model for RowsOfSection {
    ghost use Rattle.std.specs.List.{AllZip};
    ghost use Rattle.row_table.specs.Tables.{IsRowTableOf};
    ghost use Rattle.frames_c.specs.Held.{LoadedData};
    ghost use Rattle.frames_c.specs.Rows.{IsToldPlaced};

    ghost Value = { LoadedData };

    ghost view = { λ r. r.share };

    ghost invariant = { λ r. IsRowTableOf r.share.section r.table
        × AllZip IsToldPlaced r.table.rows.distinct r.told.items };
}

impl RowsOfSection {
    /// Makes the table.
    pub(crate) fn of(
        alloc: Global,
        share: Shared<LoadedSection>,
    ) -> Result<RowsOfSection, TableFault>
        ensures rows { IfOk result (λ rows. rows ≡ share) }
        ensures refused { IfErr result (λ fault. (fault ≡ TableFault.NoMemory)
            ⊎ HasTooManyRows share.section) }
    {
        let table = RowTable::of(alloc, share.get().section())?;
        let told = told_rows(alloc, table.distinct())?;
        Ok(RowsOfSection { share, table, told })
    }

    /// The section by its table.
    pub(crate) fn rows(&self) -> SectionRows<'_>
        ensures { result ≡ self.now.section }
    {
        SectionRows::new(self.share.get().section(), &self.table)
    }

    /// Writes the row of an address, where an FDE answers.
    pub(crate) fn row_in(&self, pc: u64, out: &mut FramesRow) -> bool
        ensures { AnswersRow (unclaimed_fde pc self.now) pc result out.old out.new }
    {
        let loaded = self.share.get();
        match loaded.claim_at(pc) {
            Some(_) => false,
            None => copy_row(loaded.section(), &self.table, &self.told, pc, out),
        }
    }

    pub(crate) fn loaded(&self) -> &LoadedSection
        ensures { result.now ≡ self.now }
    {
        self.share.get()
    }
}

/// Writes the row of an address of a section, out of those that its table has.
fn copy_row(
    section: &Section,
    table: &RowTable,
    told: &[FramesRow],
    pc: u64,
    out: &mut FramesRow,
) -> bool
    requires table { IsRowTableOf section.now table.now }
    requires told { AllZip IsToldPlaced table.now.rows.distinct told.now }
    ensures { AnswersRow (fde_in pc section.now) pc result out.old out.new }
{
    match table.number_at(section, pc) {
        None => false,
        Some(number) => {
            *out = told[number];
            true
        }
    }
}
