//! The least line of each number.

ghost use Rattle.std.specs.Prelude.{◌≡◌, ℕ, ◌<◌, ◌==◌, IfOk, OnOk, not, false, None};
ghost use Rattle.std.specs.Prelude.{length, slice_set, slice_index_or};
ghost use Rattle.receipt_check.specs.Search.{lower_line};
ghost use Rattle.receipt_check.specs.Maps.{line_of, line_kept};

use crate::firsts::lower;
use reg_model::NoMemory;
use std::alloc::Global;
use std::collections::BTreeMap;

/// Of each number the least line that was kept for it. Those below a bound stand in a table, where
/// one look is enough. No text makes that table long by a number that it tells: the others stand in
/// a map.
#[derive(Drop)]
pub struct LeastLines {
    table: Vec<Option<u64>>,
    others: BTreeMap<u32, u64>,
}

impl LeastLines {
    /// No line is kept yet. The table has so many places.
    pub fn new(alloc: Global, places: usize) -> Result<Self, NoMemory>
        ensures { IfOk result (λ lines. (number : ℕ) → line_of lines number ≡ None) }
    {
        Ok(LeastLines {
            table: vec![in alloc; None; places]?,
            others: BTreeMap::new(alloc),
        })
    }

    /// The line that is kept for a number.
    pub fn line_of(&self, number: u32) -> Option<u64>
        ensures { result ≡ line_of self.now number }
    {
        match self.table.get(number as usize) {
            Some(line) => *line,
            None => self.others.get(&number).copied(),
        }
    }

    /// Keeps a number's line, where none above it is kept.
    pub fn keep(&mut self, number: u32, line: u64) -> Result<(), NoMemory>
        ensures { OnOk result ((other : ℕ) → line_of self.new other
            ≡ lower_line (line_of self.old other) line (not (number == other))) }
    {
        let place = number as usize;
        if place < self.table.len() {
            self.keep_in_table(place, line);
            return Ok(());
        }
        keep_line(&mut self.others, number, line)
    }

    /// Keeps it in the table.
    fn keep_in_table(&mut self, place: usize, line: u64)
        requires { place < length self.old.table.items }
        ensures table { self.new.table.items ≡ slice_set self.old.table.items place
            (lower_line (slice_index_or self.old.table.items place None) line false) }
        ensures others { self.new.others ≡ self.old.others }
    {
        let least = lower(self.table[place], line, false);
        self.table[place] = least;
    }
}

/// Keeps a number's line in the map, where none above it is kept.
fn keep_line(lines: &mut BTreeMap<u32, u64>, number: u32, line: u64) -> Result<(), NoMemory>
    ensures { OnOk result ((other : ℕ) → line_kept lines.new other
        ≡ lower_line (line_kept lines.old other) line (not (number == other))) }
{
    let least = match lines.get(&number) {
        Some(best) => line.min(*best),
        None => line,
    };
    lines.insert(number, least)?;
    Ok(())
}
