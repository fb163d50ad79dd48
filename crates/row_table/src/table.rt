//! Tables, and their lookup.

ghost use Rattle.std.specs.Prelude.{◌≡◌, ◌⊎◌, None, IfOk, IfErr, MatchOption};
ghost use Rattle.frame_parse.specs.Sections.{first_cover};
ghost use Rattle.unwind_step.specs.Sources.{IsFound};
ghost use Rattle.row_table.specs.Tables.{IsRowTableOf, HasTooManyRows};
ghost use Rattle.row_table.specs.Tables.{HasRowsFrom, HasNumber, IsNumberAt};

use crate::cie_rows::CieRows;
use crate::fault::TableFault;
use crate::lent_row::LentRow;
use crate::made_rows::Rows;
use crate::search::last_start;
use frame_parse::{Fde, Section};
use frame_rows::{PlacedRow, placed_rows_are_rows};
use std::alloc::Global;
use std::marker::Model;

/// Of so many bytes of a section there is a row, by an estimate that most sections stay below.
const BYTES_OF_A_ROW: usize = 5;

/// The FDE of an address, and its row there.
#[derive(Drop)]
pub struct FoundRow<'t> {
    pub fde: Fde<'t>,
    pub row: LentRow<'t>,
}

/// The rows of a section, which is kept elsewhere.
#[derive(Drop)]
pub struct RowTable {
    begins: Vec<usize>,
    starts: Vec<u64>,
    numbers: Vec<u16>,
    distinct: Vec<PlacedRow>,
}

impl Model for RowTable {
    ghost use Rattle.row_table.specs.Tables.{TableData};

    ghost Value = { TableData };

    ghost view = { λ t. record {
      begins = t.begins.items;
      rows = record {
        starts = t.starts.items;
        numbers = t.numbers.items;
        distinct = t.distinct.items;
      };
    } };
}

impl RowTable {
    /// The rows of a section. It takes some ten bytes for each, and a row for each that differs.
    pub fn of(alloc: Global, section: &Section) -> Result<RowTable, TableFault>
        ensures rows { IfOk result (IsRowTableOf section.now) }
        // Any other refusal than for want of memory is for this cause.
        ensures refused { IfErr result (λ fault. (fault ≡ TableFault.NoMemory)
            ⊎ HasTooManyRows section.now) }
    {
        let mut initials = CieRows::new(alloc);
        let mut rows = Rows::with_room(alloc, section.bytes().len() / BYTES_OF_A_ROW)?;
        let mut begins = Vec::with_capacity(alloc, section.count())?;
        begins.push(0)?;
        for index in 0..section.count() {
            let fde = section.fde(index);
            let number = initials.number_of(&fde)?;
            rows.add(&fde, initials.row(number))?;
            begins.push(rows.len())?;
        }
        let Rows {
            starts,
            numbers,
            course,
        } = rows;
        Ok(RowTable {
            begins,
            starts,
            numbers,
            distinct: course.into_rows(),
        })
    }

    /// The first FDE in order of bytes that covers an address, and its row there: what the
    /// section's `fde_at` finds, and `row_at` makes of it. None where no FDE covers the address. It
    /// takes no memory.
    #[inline(always)]
    pub fn row_at<'t>(&'t self, section: &'t Section, pc: u64) -> Option<FoundRow<'t>>
        requires { IsRowTableOf section.now self.now }
        ensures { MatchOption result (first_cover pc section.now.fdes ≡ None)
            (λ found. IsFound section.now pc found.fde found.row) }
    {
        let number = section.number_at(pc)?;
        let fde = section.fde(number);
        let row = self.row_number(&fde, number, pc);
        let placed = &self.distinct[row];
        Some(FoundRow {
            row: LentRow::new(section.bytes(), placed),
            fde,
        })
    }

    /// The rows that differ, by their numbers.
    pub fn distinct(&self) -> &[PlacedRow]
        ensures { result.now ≡ self.now.rows.distinct }
    {
        &self.distinct
    }

    /// The number of the row of an address: for those who keep something of their own for each row
    /// that differs. None where no FDE covers the address. It takes no memory.
    pub fn number_at(&self, section: &Section, pc: u64) -> Option<usize>
        requires { IsRowTableOf section.now self.now }
        ensures { MatchOption result (first_cover pc section.now.fdes ≡ None)
            (λ number. IsNumberAt section.now pc self.now.rows.distinct number) }
    {
        match section.number_at(pc) {
            None => None,
            Some(number) => {
                let fde = section.fde(number);
                Some(self.row_number(&fde, number, pc))
            }
        }
    }

    /// The number of an FDE's row at an address from its first one on, by the FDE's own number.
    #[inline(always)]
    fn row_number(&self, fde: &Fde<'_>, number: usize, pc: u64) -> usize
        requires { HasRowsFrom self.now number fde.now pc }
        ensures { HasNumber fde.now pc self.now.rows.distinct result }
    {
        placed_rows_are_rows(fde);
        let from = self.begins[number];
        let end = self.begins[number + 1];
        let place = last_start(&self.starts, from, end, pc);
        self.numbers[place] as usize
    }
}
