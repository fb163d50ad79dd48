//! The course of a program through states, and the numbers of the rows that begin on it.

ghost use Rattle.std.specs.Prelude.{◌≡◌, ◌⊎◌, ◌<◌, ◌≤◌, ◌+◌, ◌∷◌, [], List, IfOk, IfErr, IfSome};
ghost use Rattle.std.specs.Prelude.{All, length, map};
ghost use Rattle.frame_rows.specs.declared.placed_row.PlacedRow.{PlacedRow};
ghost use Rattle.frame_rows.specs.Rows.{applied};
ghost use Rattle.row_table.specs.Courses.{HaveRowNumbers, standing, state_in};
ghost use Rattle.row_table.specs.Tables.{IsNumbered, IsOneTooMany};
ghost use Rattle.row_table.specs.Transitions.{IsLonger, IsNumberOf};

use crate::distinct_rows::DistinctRows;
use crate::fault::TableFault;
use crate::instructions::is_nop;
use crate::kept_states::KeptStates;
use crate::same_rows::are_equal;
use crate::states::States;
use crate::transitions::{Transition, Transitions};
use frame_parse::PlacedInstruction;
use frame_rows::{PlacedCfaRule, PlacedRow, PlacedRule};
use std::alloc::{AllocError, Global};
use std::marker::Model;

/// Where a program stands among states, and the rows that have their numbers. A state gets the
/// number of its row when a row first begins in it.
#[derive(Drop)]
pub(crate) struct Course {
    alloc: Global,
    distinct: DistinctRows,
    states: States,
    /// The number of each state's row, where it is known.
    numbers: Vec<Option<u16>>,
    transitions: Transitions,
    /// The state that the initial instructions leave.
    base: u16,
    here: u16,
    kept: KeptStates,
}

impl Model for Course {
    ghost use Rattle.row_table.specs.Courses.{CourseData, IsCourse, course};

    ghost Value = { CourseData };

    ghost view = { λ c. course c.distinct c.states c.base c.here c.kept };

    ghost invariant = { λ c. IsCourse (course c.distinct c.states c.base c.here c.kept)
        c.numbers.items c.transitions };
}

/// Copies the rows of remembered states behind others: their states among these.
fn copy_kept(
    rows: &mut Vec<PlacedRow>,
    states: &States,
    kept: &KeptStates,
) -> Result<KeptStates, AllocError>
    requires few { length rows.old.items ≤ 2 }
    requires states { All (λ number. number < length states.now) kept.now }
    ensures few { IfOk result (λ _. length rows.new.items ≤ 10) }
    ensures longer { IsLonger rows.old.items rows.new.items }
    ensures within { IfOk result (All (λ number. number < length rows.new.items)) }
    ensures told { IfOk result (λ copied. map (state_in rows.new.items) copied
        ≡ map (state_in states.now) kept.now) }
{
    let mut copied = KeptStates::new();
    let mut left = kept.len();
    'copies: while left > 0 {
        left -= 1;
        let number = rows.len();
        rows.push(*states.row(kept.number(left)))?;
        copied.keep(number as u16);
    }
    Ok(copied)
}

/// Notes the number of a state's row.
fn note(numbers: &mut Vec<Option<u16>>, state: u16, number: u16) -> Result<(), AllocError>
    ensures { (distinct states : List PlacedRow) → HaveRowNumbers distinct states numbers.old.items
        → state < length states → IsNumberOf distinct number (state_in states state)
        → HaveRowNumbers distinct states numbers.new.items }
{
    let index = state as usize;
    'unknown: while numbers.len() <= index {
        numbers.push(None)?;
    }
    numbers[index] = Some(number);
    Ok(())
}

impl Course {
    pub(crate) fn new(alloc: Global) -> Result<Course, AllocError>
        ensures { IfOk result (λ c. c.distinct ≡ []) }
    {
        let mut states = States::new(alloc)?;
        let base = states.number_of(&PlacedRow {
            cfa: PlacedCfaRule::Missing,
            columns: [PlacedRule::Unset; 17],
        })?;
        Ok(Course {
            alloc,
            distinct: DistinctRows::new(alloc)?,
            states,
            numbers: Vec::new(alloc),
            transitions: Transitions::new(alloc)?,
            base,
            here: base,
            kept: KeptStates::new(),
        })
    }

    /// Lets go of all states but those that the program may come back to.
    #[cold]
    #[inline(never)]
    fn renew(&mut self) -> Result<(), AllocError>
        ensures room { IfOk result (λ _. length self.new.states < 65536) }
        ensures standing { standing self.new ≡ standing self.old }
        ensures distinct { self.new.distinct ≡ self.old.distinct }
    {
        let mut rows = Vec::new(self.alloc);
        rows.push(*self.states.row(self.base))?;
        rows.push(*self.states.row(self.here))?;
        let kept = copy_kept(&mut rows, &self.states, &self.kept)?;
        self.transitions.clear();
        self.numbers.clear();
        self.states.restart(rows);
        self.base = 0;
        self.here = 1;
        self.kept = kept;
        Ok(())
    }

    /// Makes room for one state more.
    #[inline(always)]
    fn make_room(&mut self) -> Result<(), AllocError>
        ensures room { IfOk result (λ _. length self.new.states < 65536) }
        ensures standing { standing self.new ≡ standing self.old }
        ensures distinct { self.new.distinct ≡ self.old.distinct }
    {
        if self.states.is_full() {
            self.renew()?;
        }
        Ok(())
    }

    /// Begins a program with the row that its initial instructions leave.
    pub(crate) fn begin(&mut self, base: &PlacedRow) -> Result<(), AllocError>
        ensures standing { IfOk result (λ _. standing self.new
            ≡ record { base = base.now; row = base.now; kept = [] }) }
        ensures distinct { self.new.distinct ≡ self.old.distinct }
    {
        self.kept.clear();
        // Most FDEs have the initial row of the one before.
        if are_equal(self.states.row(self.base), base) {
            self.here = self.base;
            return Ok(());
        }
        self.make_room()?;
        let state = self.states.number_of(base)?;
        self.base = state;
        self.here = state;
        Ok(())
    }

    /// Remembers the row here.
    #[inline(always)]
    pub(crate) fn remember(&mut self)
        requires { length (standing self.old).kept < 8 }
        ensures standing { standing self.new ≡ record (standing self.old) {
          kept = (standing self.old).row ∷ (standing self.old).kept;
        } }
        ensures distinct { self.new.distinct ≡ self.old.distinct }
    {
        self.kept.keep(self.here);
    }

    /// Goes back to the row that was remembered last.
    #[inline(always)]
    pub(crate) fn restore(&mut self)
        requires { 0 < length (standing self.old).kept }
        ensures kept { (standing self.old).kept
            ≡ (standing self.new).row ∷ (standing self.new).kept }
        ensures base { (standing self.new).base ≡ (standing self.old).base }
        ensures distinct { self.new.distinct ≡ self.old.distinct }
    {
        self.here = self.kept.take_back();
    }

    /// Goes on to the state that an instruction leaves, and keeps that it does.
    #[cold]
    #[inline(never)]
    fn work_out(&mut self, instruction: PlacedInstruction) -> Result<(), AllocError>
        ensures standing { IfOk result (λ _. standing self.new ≡ record (standing self.old) {
          row = applied (standing self.old).base (standing self.old).row instruction;
        }) }
        ensures distinct { self.new.distinct ≡ self.old.distinct }
    {
        self.make_room()?;
        let mut row = *self.states.row(self.here);
        row.apply(self.states.row(self.base), instruction);
        let to = self.states.number_of(&row)?;
        self.transitions.keep(Transition {
            base: self.base,
            from: self.here,
            instruction,
            to,
        })?;
        self.here = to;
        Ok(())
    }

    /// Goes on to the state that an instruction leaves, which changes a row alone.
    #[inline(always)]
    pub(crate) fn apply(&mut self, instruction: PlacedInstruction) -> Result<(), AllocError>
        ensures standing { IfOk result (λ _. standing self.new ≡ record (standing self.old) {
          row = applied (standing self.old).base (standing self.old).row instruction;
        }) }
        ensures distinct { self.new.distinct ≡ self.old.distinct }
    {
        if is_nop(&instruction) {
            return Ok(());
        }
        match self.transitions.after(self.base, self.here, &instruction) {
            Some(to) => {
                self.here = to;
                Ok(())
            }
            None => self.work_out(instruction),
        }
    }

    /// The number of the row here, where its state has it.
    #[inline(always)]
    fn known_number(&self) -> Option<u16>
        ensures { IfSome result (λ number.
            IsNumberOf self.now.distinct number (standing self.now).row) }
    {
        *self.numbers.get(self.here as usize)?
    }

    /// Numbers the row here, and keeps its number with its state.
    #[cold]
    #[inline(never)]
    fn number_anew(&mut self) -> Result<u16, TableFault>
        ensures numbered { IfOk result (λ number. IsNumbered self.old.distinct
            (standing self.old).row number self.new.distinct) }
        ensures standing { standing self.new ≡ standing self.old }
        ensures refused { IfErr result (λ fault. (fault ≡ TableFault.NoMemory)
            ⊎ IsOneTooMany self.old.distinct (standing self.old).row) }
    {
        let number = self.distinct.number_of(self.states.row(self.here))?;
        note(&mut self.numbers, self.here, number)?;
        Ok(number)
    }

    /// The number of the row here. One that equals none of those before it gets the next number.
    #[inline(always)]
    pub(crate) fn number(&mut self) -> Result<u16, TableFault>
        ensures numbered { IfOk result (λ number. IsNumbered self.old.distinct
            (standing self.old).row number self.new.distinct) }
        ensures standing { standing self.new ≡ standing self.old }
        ensures refused { IfErr result (λ fault. (fault ≡ TableFault.NoMemory)
            ⊎ IsOneTooMany self.old.distinct (standing self.old).row) }
    {
        match self.known_number() {
            Some(number) => Ok(number),
            None => self.number_anew(),
        }
    }

    /// The rows that have numbers, where no more are to be numbered.
    pub(crate) fn into_rows(self) -> Vec<PlacedRow>
        ensures { result.items ≡ self.distinct }
    {
        let Course { distinct, .. } = self;
        distinct.into_rows()
    }
}
