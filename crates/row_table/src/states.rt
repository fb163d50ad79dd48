//! States: rows that instructions have left, also between two advances.

ghost use Rattle.std.specs.Prelude.{◌≡◌, ◌<◌, [], IfOk, length, get_or, false};
ghost use Rattle.frame_rows.specs.Rows.{unset};
ghost use Rattle.row_table.specs.Transitions.{IsNumberOf, IsLonger};

use crate::same_rows::{PLACES, place_of, recent_number};
use frame_rows::PlacedRow;
use std::alloc::{AllocError, Global};
use std::marker::Model;

/// So many have room from the start, 130,240 bytes of it: most sections have no more, and rows that
/// a growing vector leaves behind cost more than those that are never filled.
const FIRST_STATES: usize = 440;

/// So many states are kept at most, as many as there are places for what comes of them. Rows that
/// come to more than that are rare, and each is 296 bytes of memory that was never touched before.
const MOST_STATES: usize = 8192;

/// At most 8,192 states by their numbers. Two of them may have the same row: a state is found only
/// where it is the one that came last at its place, so that none is ever looked for.
#[derive(Drop)]
pub(crate) struct States {
    rows: Vec<PlacedRow>,
    /// A number for each of the places that `place_of` tells, which need not be the row's.
    recent: Vec<u16>,
}

impl Model for States {
    ghost use Rattle.std.specs.Prelude.{List};
    ghost use Rattle.frame_rows.specs.declared.placed_row.PlacedRow.{PlacedRow};

    ghost Value = { List PlacedRow };

    ghost view = { λ s. s.rows.items };
}

impl States {
    pub(crate) fn new(alloc: Global) -> Result<States, AllocError>
        ensures { IfOk result (λ s. s ≡ []) }
    {
        Ok(States {
            rows: Vec::with_capacity(alloc, FIRST_STATES)?,
            recent: vec![in alloc; 0u16; PLACES]?,
        })
    }

    /// Whether there are as many as are kept.
    pub(crate) fn is_full(&self) -> bool
        ensures { result ≡ false → length self.now < 65536 }
    {
        self.rows.len() >= MOST_STATES
    }

    /// The row of a state.
    pub(crate) fn row(&self, number: u16) -> &PlacedRow
        requires { number < length self.now }
        ensures { result.now ≡ get_or self.now number unset }
    {
        &self.rows[number as usize]
    }

    /// A state that has a row: a new one where none came last at its place.
    pub(crate) fn number_of(&mut self, row: &PlacedRow) -> Result<u16, AllocError>
        requires { length self.old < 65536 }
        ensures number { IfOk result (λ number. IsNumberOf self.new number row.now) }
        ensures longer { IsLonger self.old self.new }
    {
        let place = place_of(row);
        if let Some(number) = recent_number(&self.recent, place, &self.rows, row) {
            return Ok(number);
        }
        let number = self.rows.len();
        self.rows.push(*row)?;
        if place < self.recent.len() {
            self.recent[place] = number as u16;
        }
        Ok(number as u16)
    }

    /// Lets go of all states, and begins anew with those of some rows.
    pub(crate) fn restart(&mut self, rows: Vec<PlacedRow>)
        ensures { self.new ≡ rows.items }
    {
        self.rows = rows;
    }
}
