//! Rows in the order in which the instructions of FDEs leave them.

ghost use Rattle.std.specs.Prelude.{◌≡◌, ◌⊎◌, [], IfOk, IfErr, length};
ghost use Rattle.frame_rows.specs.Rows.{IsInitialRow};
ghost use Rattle.row_table.specs.Courses.{standing};
ghost use Rattle.row_table.specs.Making.{rows_in};
ghost use Rattle.row_table.specs.Tables.{IsPushed, IsOneTooMany, IsAdded, HasRowsTooMany};

use crate::course::Course;
use crate::fault::TableFault;
use frame_parse::{Fde, PlacedInstruction, steps_are_ordered};
use frame_rows::PlacedRow;
use std::alloc::{AllocError, Global};

/// Rows one after another: where each begins, and its number among those that differ, which are in
/// the course of the program that makes them.
#[derive(Drop)]
pub(crate) struct Rows {
    pub(crate) starts: Vec<u64>,
    pub(crate) numbers: Vec<u16>,
    pub(crate) course: Course,
}

impl Rows {
    /// None yet, with room for so many.
    pub(crate) fn with_room(alloc: Global, room: usize) -> Result<Rows, AllocError>
        ensures { IfOk result (λ r. rows_in r
            ≡ record { starts = []; numbers = []; distinct = [] }) }
    {
        Ok(Rows {
            starts: Vec::with_capacity(alloc, room)?,
            numbers: Vec::with_capacity(alloc, room)?,
            course: Course::new(alloc)?,
        })
    }

    /// How many there are.
    pub(crate) fn len(&self) -> usize
        ensures { result ≡ length self.now.starts.items }
    {
        self.starts.len()
    }

    /// Adds the row here, from an address on.
    #[inline(always)]
    fn push(&mut self, start: u64) -> Result<(), TableFault>
        ensures pushed { IfOk result (λ _. IsPushed (rows_in self.old) start
            (standing self.old.course).row (rows_in self.new)) }
        ensures standing { standing self.new.course ≡ standing self.old.course }
        ensures refused { IfErr result (λ fault. (fault ≡ TableFault.NoMemory)
            ⊎ IsOneTooMany self.old.course.distinct (standing self.old.course).row) }
    {
        let number = self.course.number()?;
        self.starts.push(start)?;
        self.numbers.push(number)?;
        Ok(())
    }

    /// Adds the rows of an FDE: each begins where the location moves, and the last one holds from
    /// there on. `base` is the row that its initial instructions leave.
    pub(crate) fn add(&mut self, fde: &Fde<'_>, base: &PlacedRow) -> Result<(), TableFault>
        requires even { length self.old.numbers.items ≡ length self.old.starts.items }
        requires base { IsInitialRow fde.now base.now }
        ensures added { IfOk result (λ _. IsAdded (rows_in self.old) fde.now (rows_in self.new)) }
        ensures refused { IfErr result (λ fault. (fault ≡ TableFault.NoMemory)
            ⊎ HasRowsTooMany self.old.course.distinct fde.now) }
    {
        steps_are_ordered();
        self.course.begin(base)?;
        let mut location = fde.first();
        let mut program = fde.placed_program();
        while let Some(step) = program.next() {
            match step.instruction {
                PlacedInstruction::Advance => {
                    if step.location > location {
                        self.push(location)?;
                        location = step.location;
                    }
                }
                PlacedInstruction::Remember => self.course.remember(),
                PlacedInstruction::RestoreState => self.course.restore(),
                instruction => self.course.apply(instruction)?,
            }
        }
        self.push(location)?;
        Ok(())
    }
}
