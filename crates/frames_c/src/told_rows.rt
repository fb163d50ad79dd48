//! The rows of a table in the form that C is told. They are made once, so that a lookup copies one.

ghost use Rattle.std.specs.Prelude.{◌≡◌, ◌<◌, List, ℕ, length, slice_index_or, IfOk};
ghost use Rattle.std.specs.List.{AllZip};
ghost use Rattle.frame_rows.specs.declared.rule.RuleWith.TheVariants.{Unset};
ghost use Rattle.frame_rows.specs.Rules.{lent_row};
ghost use Rattle.frames_c.specs.Rows.{AreToldRules, IsToldPlaced};

use crate::row::{FramesRow, told, told_cfa};
use frame_rows::{PlacedRow, PlacedRule};
use std::alloc::{AllocError, Global};

/// The rule of a column.
#[inline(always)]
fn rule_of(row: &PlacedRow, column: usize) -> PlacedRule
    requires { column < 17 }
    ensures { result ≡ slice_index_or row.now.columns column Unset }
{
    row.columns[column]
}

/// Writes the rules of all columns.
fn tell_columns(row: &PlacedRow, kinds: &mut [u64], numbers: &mut [u64])
    requires kinds { length kinds.old ≡ 17 }
    requires numbers { length numbers.old ≡ 17 }
    ensures told { (bytes : List ℕ)
        → AreToldRules (lent_row bytes row.now) 17 kinds.new numbers.new }
    ensures kinds { length kinds.new ≡ 17 }
    ensures numbers { length numbers.new ≡ 17 }
{
    for column in 0..17usize {
        let (kind, number) = told(&rule_of(row, column));
        kinds[column] = kind;
        numbers[column] = number;
    }
}

fn told_row(row: &PlacedRow) -> FramesRow
    ensures { IsToldPlaced row.now result }
{
    let (cfa, cfa_column, cfa_offset) = told_cfa(&row.cfa);
    let mut rules = [0; 17];
    let mut numbers = [0; 17];
    tell_columns(row, &mut rules, &mut numbers);
    FramesRow {
        cfa,
        cfa_column,
        cfa_offset,
        rules,
        numbers,
    }
}

/// Rows in that form, each in its place.
pub(crate) fn told_rows(alloc: Global, rows: &[PlacedRow]) -> Result<Vec<FramesRow>, AllocError>
    ensures { IfOk result (λ told. AllZip IsToldPlaced rows.now told.items) }
{
    let mut all = Vec::with_capacity(alloc, rows.len())?;
    for row in rows {
        all.push(told_row(row))?;
    }
    Ok(all)
}
