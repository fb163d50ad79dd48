//! The first line with a number that isn't its update's own.

ghost use Rattle.std.specs.Prelude.{◌≡◌, ℕ, ◌<◌, ◌↔◌, List, IsTrue, IfOk, OnOk, All, false, not};
ghost use Rattle.reg_model.specs.Numbers.{has_number};
ghost use Rattle.receipt_check.specs.Flaws.{HasOwnNumber};
ghost use Rattle.receipt_check.specs.Maps.{line_of};
ghost use Rattle.receipt_check.specs.Search.{IsSought, lower_line};
ghost use Rattle.receipt_check.specs.Sweep.{AreLines};
ghost use Rattle.receipt_check.specs.declared.account.Told.{Told};

use crate::account::Told;
use crate::firsts::{accepted_in, lower};
use crate::least_lines::LeastLines;
use crate::receipts::{moment_of, update_in};
use reg_model::NoMemory;
use std::alloc::Global;

/// The first line with a number that isn't from 1 to `updates`, or that a line above has.
pub fn first_misnumbered(
    alloc: Global,
    told: &[Told],
    updates: u32,
) -> Result<Option<u64>, NoMemory>
    ensures { IfOk result (IsSought (HasOwnNumber told.now updates) told.now) }
{
    let lines = lines_of(alloc, told)?;
    let mut first = None;
    for row in told {
        first = lower(first, row.line, has_own_number(&lines, updates, row));
    }
    Ok(first)
}

/// The least line of each number. Where each update has one of its own, none is above how many
/// there are.
fn lines_of(alloc: Global, told: &[Told]) -> Result<LeastLines, NoMemory>
    ensures { IfOk result (AreLines told.now) }
{
    let mut lines = LeastLines::new(alloc, accepted_in(told).saturating_add(1))?;
    for row in told {
        put_line(&mut lines, row)?;
    }
    Ok(lines)
}

/// Keeps the line of an update, where none above it is kept for its number.
fn put_line(lines: &mut LeastLines, row: &Told) -> Result<(), NoMemory>
    ensures { OnOk result ((number : ℕ) → line_of lines.new number
        ≡ lower_line (line_of lines.old number) row.now.line
        (not (has_number number row.now.receipt))) }
{
    if update_in(&row.receipt).is_some() {
        return lines.keep(moment_of(&row.receipt), row.line);
    }
    Ok(())
}

/// Whether an accepted update has a number from 1 to `updates`, which no line above it has.
fn has_own_number(lines: &LeastLines, updates: u32, row: &Told) -> bool
    ensures { (told : List Told) → AreLines told lines.now
        → (IsTrue result ↔ HasOwnNumber told updates row.now) }
{
    if update_in(&row.receipt).is_none() {
        return true;
    }
    let number = moment_of(&row.receipt);
    0 < number && number <= updates && is_new(lines, row.line, number)
}

/// Whether no line above has the number.
fn is_new(lines: &LeastLines, line: u64, number: u32) -> bool
    ensures { (told : List Told) → AreLines told lines.now → (IsTrue result
        ↔ All (λ other. other.line < line → has_number number other.receipt ≡ false) told) }
{
    match lines.line_of(number) {
        Some(least) => line <= least,
        None => true,
    }
}
