//! Rows with their expressions, and rows that are made step by step.

use crate::words::{LineWords, Refusal};
use frame_parse::{Fde, Section};
use frame_rows::{PlacedRow, Row, Rule, initial_row, row_at};

/// `row ADDRESS BYTES PC`: the rule of the CFA, and the columns that have one.
pub fn row(words: LineWords<'_>, section: &Section, text: &mut String) -> Result<(), Refusal> {
    let pc = words.hexadecimal(3)?;
    words.end(4)?;
    match section.fde_at(pc) {
        Some(fde) => tell_row(&row_at(&fde, pc), text),
        None => Ok(text.push_str("none")?),
    }
}

fn tell_row(row: &Row<'_>, text: &mut String) -> Result<(), Refusal> {
    write!(text, "cfa {:?}", row.cfa())?;
    for column in 0..18 {
        tell_column(row, column, text)?;
    }
    Ok(())
}

fn tell_column(row: &Row<'_>, column: usize, text: &mut String) -> Result<(), Refusal> {
    let found = row.rule(column);
    if found != Rule::Unset {
        write!(text, ", {column} {found:?}")?;
    }
    Ok(())
}

/// `applied ADDRESS BYTES PC COUNT`: what the initial instructions leave for the FDE of an address,
/// and so many of its own make of it, one by one.
pub fn applied(words: LineWords<'_>, section: &Section, text: &mut String) -> Result<(), Refusal> {
    let (pc, count) = (words.hexadecimal(3)?, words.decimal(4)?);
    words.end(5)?;
    match section.fde_at(pc) {
        Some(fde) => Ok(write!(text, "{:?}", row_after(&fde, count))?),
        None => Ok(text.push_str("none")?),
    }
}

/// The row after so many instructions of an FDE.
fn row_after(fde: &Fde<'_>, count: usize) -> PlacedRow {
    let initial = initial_row(fde);
    let mut row = initial;
    let mut program = fde.placed_program();
    for _ in 0..count {
        if let Some(step) = program.next() {
            row.apply(&initial, step.instruction);
        }
    }
    row
}
