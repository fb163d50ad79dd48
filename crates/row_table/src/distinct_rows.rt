//! Rows that differ, each with its number. A section has few of them.

ghost use Rattle.std.specs.Prelude.{◌≡◌, ◌⊎◌, ◌<◌, ◌≤◌, ◌++◌, ◌∷◌, length, get_or, [], None};
ghost use Rattle.std.specs.Prelude.{IfOk, IfErr, IfSome, vec_len, vec_capacity};
ghost use Rattle.frame_rows.specs.Rows.{unset};
ghost use Rattle.row_table.specs.Numbering.{first_rows, IsNoneOfTheFirst};
ghost use Rattle.row_table.specs.Tables.{IsNumbered, IsOneTooMany};

use crate::fault::TableFault;
use crate::row_words::row_words;
use crate::same_rows::{PLACES, are_equal, place_of, recent_number, same_cfa};
use frame_rows::PlacedRow;
use std::alloc::{AllocError, Global};
use std::collections::BTreeMap;
use std::marker::Model;

/// So many rows are compared one after another. Small sections have no more.
const FIRST_ROWS: usize = 64;

/// Rows with their numbers, and how a row's number is found: among the first ones by a look at
/// each, among those after them by its words in an ordered map, which no choice of rows makes slow.
/// The numbers that were given last are found faster.
#[derive(Drop)]
pub(crate) struct DistinctRows {
    alloc: Global,
    rows: Vec<PlacedRow>,
    index: BTreeMap<Vec<u64>, u16>,
    /// A number for each of the places that `place_of` tells, which need not be the row's.
    recent: Vec<u16>,
}

impl Model for DistinctRows {
    ghost use Rattle.std.specs.Prelude.{List, ◌≤◌, length};
    ghost use Rattle.frame_rows.specs.declared.placed_row.PlacedRow.{PlacedRow};
    ghost use Rattle.row_table.specs.Numbering.{IsIndexOf};

    ghost Value = { List PlacedRow };

    ghost view = { λ d. d.rows.items };

    ghost invariant = { λ d. IsIndexOf _ (λ key. key.items) d.index d.rows.items
        × (length d.rows.items ≤ 65536) };
}

/// Adds a row, where there is room.
fn add(rows: &mut Vec<PlacedRow>, row: &PlacedRow)
    requires { vec_len rows.old < vec_capacity rows.old }
    ensures { rows.new.items ≡ rows.old.items ++ row.now ∷ [] }
{
    let _ = rows.push(*row);
}

impl DistinctRows {
    pub(crate) fn new(alloc: Global) -> Result<DistinctRows, AllocError>
        ensures { IfOk result (λ d. d ≡ []) }
    {
        Ok(DistinctRows {
            alloc,
            rows: Vec::new(alloc),
            index: BTreeMap::new(alloc),
            recent: vec![in alloc; 0u16; PLACES]?,
        })
    }

    fn remember(&mut self, place: usize, number: u16)
        ensures { self.new ≡ self.old }
    {
        if place < self.recent.len() {
            self.recent[place] = number;
        }
    }

    /// The number of a row that is one of the first.
    fn among_first(&self, row: &PlacedRow) -> Option<u16>
        ensures within { IfSome result (λ number. number < length self.now) }
        ensures equal { IfSome result (λ number. get_or self.now number unset ≡ row.now) }
        ensures none { result ≡ None → IsNoneOfTheFirst self.now row.now }
    {
        let count = self.rows.len().min(FIRST_ROWS);
        for index in 0..count {
            let known = &self.rows[index];
            // Most rows differ by the CFA's offset.
            if same_cfa(&known.cfa, &row.cfa) && are_equal(known, row) {
                return Some(index as u16);
            }
        }
        None
    }

    /// Adds one of the first rows.
    fn add_first(&mut self, row: &PlacedRow) -> Result<u16, TableFault>
        requires room { length self.old < first_rows }
        requires new { IsNoneOfTheFirst self.old row.now }
        ensures numbered { IfOk result (λ number. IsNumbered self.old row.now number self.new) }
        ensures refused { IfErr result (λ fault. fault ≡ TableFault.NoMemory) }
        ensures kept { IfErr result (λ _. self.new ≡ self.old) }
    {
        let number = self.rows.len();
        self.rows.try_reserve(1)?;
        add(&mut self.rows, row);
        Ok(number as u16)
    }

    /// The number of a row that is none of the first, by the map.
    fn indexed(&mut self, row: &PlacedRow) -> Result<u16, TableFault>
        requires full { first_rows ≤ length self.old }
        requires later { IsNoneOfTheFirst self.old row.now }
        ensures numbered { IfOk result (λ number. IsNumbered self.old row.now number self.new) }
        ensures refused { IfErr result (λ fault. (fault ≡ TableFault.NoMemory)
            ⊎ IsOneTooMany self.old row.now) }
        ensures kept { IfErr result (λ _. self.new ≡ self.old) }
    {
        let words = row_words(self.alloc, row)?;
        if let Some(number) = self.index.get(&words) {
            return Ok(*number);
        }
        let number = self.rows.len();
        if number > u16::MAX as usize {
            return Err(TableFault::TooManyRows);
        }
        self.rows.try_reserve(1)?;
        self.index.insert(words, number as u16)?;
        add(&mut self.rows, row);
        Ok(number as u16)
    }

    /// The number of a row that wasn't given last at its place.
    #[cold]
    #[inline(never)]
    fn looked_up(&mut self, row: &PlacedRow) -> Result<u16, TableFault>
        ensures numbered { IfOk result (λ number. IsNumbered self.old row.now number self.new) }
        ensures refused { IfErr result (λ fault. (fault ≡ TableFault.NoMemory)
            ⊎ IsOneTooMany self.old row.now) }
        ensures kept { IfErr result (λ _. self.new ≡ self.old) }
    {
        if let Some(number) = self.among_first(row) {
            return Ok(number);
        }
        if self.rows.len() < FIRST_ROWS {
            self.add_first(row)
        } else {
            self.indexed(row)
        }
    }

    /// The number of a row. One that equals none of those before it gets the next number.
    pub(crate) fn number_of(&mut self, row: &PlacedRow) -> Result<u16, TableFault>
        ensures numbered { IfOk result (λ number. IsNumbered self.old row.now number self.new) }
        ensures refused { IfErr result (λ fault. (fault ≡ TableFault.NoMemory)
            ⊎ IsOneTooMany self.old row.now) }
        ensures kept { IfErr result (λ _. self.new ≡ self.old) }
    {
        let place = place_of(row);
        if let Some(number) = recent_number(&self.recent, place, &self.rows, row) {
            return Ok(number);
        }
        let number = self.looked_up(row)?;
        self.remember(place, number);
        Ok(number)
    }

    /// The rows, where no more are to be numbered.
    pub(crate) fn into_rows(self) -> Vec<PlacedRow>
        ensures { result.items ≡ self }
    {
        let DistinctRows {
            alloc: _,
            rows,
            index: _,
            recent: _,
        } = self;
        rows
    }
}
