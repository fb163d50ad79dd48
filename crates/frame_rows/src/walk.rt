//! Going through a program up to an address.

ghost use Rattle.std.specs.Prelude.{◌≡◌, ℕ, ◌<◌, ◌≤◌, List, [], length, slice_get, Some};
ghost use Rattle.std.specs.Prelude.{false, true};
ghost use Rattle.frame_parse.specs.Instructions.{PlacedStep, StepData};
ghost use Rattle.frame_rows.specs.declared.placed_row.PlacedRow.{PlacedRow};
ghost use Rattle.frame_rows.specs.Columns.{HasInitial, HasProgram, rule_at, cfa_at};
ghost use Rattle.frame_rows.specs.Rows.{HasPlacedInitial, HasPlacedProgram, IsInitialRow};
ghost use Rattle.frame_rows.specs.Rows.{base_row, beside, rows_after, unset};
ghost use Rattle.frame_rows.specs.RowAt.{IsPlacedRowAt};
ghost use Rattle.frame_rows.specs.Walk.{GoesOn, Walks};

use crate::base::{Base, KeptRow, NothingSet, Untold};
use crate::placed_row::{PlacedRow, change};
use crate::row::Row;
use frame_parse::{Fde, PlacedInstruction, PlacedProgram, steps_are_ordered};

/// Where a walk along a program stopped.
#[derive(Clone, Copy, Debug, PartialEq, Eq)]
enum Stop {
    /// At the end, or before the first step above the address.
    End,
    /// Behind the step that restores the state remembered before the walk.
    Restored,
    /// At a restore of a column whose rule isn't told.
    Untold,
}

/// Goes on from a row. What is remembered on the way is kept by a walk of its own, so that a
/// program that remembers nothing pays for no other row.
#[cycle(walk)]
fn walk<B: Base>(program: &mut PlacedProgram<'_>, pc: u64, base: &B, row: &mut PlacedRow) -> Stop
    ensures shorter { result ≡ Stop.Restored
        → length program.new.rest.bytes ≤ length program.old.rest.bytes }
    ensures walks { (given : PlacedRow) → B.gives base.now given
        → Walks given pc program.old row.old result program.new row.new }
    ensures untold { result ≡ Stop.Untold → B.gives_up ≡ true }
{
    while let Some(step) = program.next() {
        match step.instruction {
            PlacedInstruction::Advance => {
                if step.location > pc {
                    return Stop::End;
                }
            }
            PlacedInstruction::Remember => match walk_back(program, pc, base, row) {
                Stop::End => return Stop::End,
                Stop::Restored => {}
                Stop::Untold => return Stop::Untold,
            },
            PlacedInstruction::RestoreState => return Stop::Restored,
            PlacedInstruction::Restore { column } => match base.rule(column) {
                Some(rule) => row.set(column, rule),
                None => return Stop::Untold,
            },
            instruction => change(row, instruction),
        }
    }
    Stop::End
}

/// Goes on from a row that is remembered, and takes it back where it is restored.
#[cycle(walk)]
#[inline(never)]
fn walk_back<B: Base>(
    program: &mut PlacedProgram<'_>,
    pc: u64,
    base: &B,
    row: &mut PlacedRow,
) -> Stop
    ensures shorter { result ≡ Stop.Restored
        → length program.new.rest.bytes ≤ length program.old.rest.bytes }
    ensures walks { (given : PlacedRow) → B.gives base.now given
        → Walks given pc program.old row.old result program.new row.new }
    ensures untold { result ≡ Stop.Untold → B.gives_up ≡ true }
    ensures kept { result ≡ Stop.Restored → row.new ≡ row.old }
{
    let kept = *row;
    let stop = walk(program, pc, base, row);
    if stop == Stop::Restored {
        *row = kept;
    }
    stop
}

/// Goes from a row on to the one after all steps of a program up to an address. False where it met
/// a restore whose rule isn't told.
fn go_through<B: Base>(
    mut program: PlacedProgram<'_>,
    pc: u64,
    base: &B,
    row: &mut PlacedRow,
) -> bool
    ensures row { result ≡ true → (given : PlacedRow) → B.gives base.now given
        → (steps : List PlacedStep) → GoesOn program.entry pc 0 steps
        → row.new ≡ (rows_after given pc (beside row.old []) steps).row }
    ensures untold { result ≡ false → B.gives_up ≡ true }
{
    match walk(&mut program, pc, base, row) {
        Stop::Untold => false,
        Stop::End | Stop::Restored => true,
    }
}

/// Makes of a row in which nothing is set the one that the initial instructions leave.
#[inline(always)]
fn set_initial(fde: &Fde<'_>, row: &mut PlacedRow)
    requires { row.old ≡ unset }
    ensures known { (initial : List PlacedStep) × HasPlacedInitial fde.now initial }
    ensures row { (initial : List PlacedStep) → HasPlacedInitial fde.now initial
        → row.new ≡ base_row fde.now.entry.first initial }
{
    steps_are_ordered();
    go_through(fde.placed_initial(), fde.first(), &NothingSet, row);
}

/// The row that the initial instructions leave, which restores of a program give back.
#[inline(never)]
pub fn initial_row(fde: &Fde<'_>) -> PlacedRow
    ensures { IsInitialRow fde.now result }
{
    let mut row = PlacedRow::unset();
    set_initial(fde, &mut row);
    row
}

/// Goes through an FDE's own program where it restores a column, which is rare: from the row that
/// the initial instructions leave, which is kept for all restores. To go on from the first restore
/// would want that row among the locals of every walk.
#[cold]
#[inline(never)]
fn go_again(fde: &Fde<'_>, pc: u64, row: &mut PlacedRow)
    requires { fde.now.entry.first ≤ pc }
    ensures { IsPlacedRowAt fde.now pc row.new }
{
    steps_are_ordered();
    let initial = initial_row(fde);
    *row = initial;
    go_through(fde.placed_program(), pc, &KeptRow { row: &initial }, row);
}

/// The rules that hold at an address of an FDE, with the places of their expressions.
#[inline(always)]
fn rules_at(fde: &Fde<'_>, pc: u64) -> PlacedRow
    ensures known { (initial : List PlacedStep) × (steps : List PlacedStep)
        × HasPlacedInitial fde.now initial × HasPlacedProgram fde.now steps }
    ensures row { IsPlacedRowAt fde.now pc result }
{
    steps_are_ordered();
    let mut row = PlacedRow::unset();
    set_initial(fde, &mut row);
    let program = fde.placed_program();
    if fde.first() <= pc {
        let told = go_through(program, pc, &Untold, &mut row);
        if !told {
            go_again(fde, pc, &mut row);
        }
    }
    row
}

/// The row that holds at an address of an FDE: what the initial instructions of its CIE make of a
/// row in which nothing is set, and then its own instructions whose location is at most the
/// address. It takes no memory.
pub fn row_at<'a>(fde: &Fde<'a>, pc: u64) -> Row<'a>
    // Both of its programs spell a list of steps.
    ensures known { (initial : List StepData) × (steps : List StepData)
        × HasInitial fde.now initial × HasProgram fde.now steps }
    // For these the CFA and each column have their own rules.
    ensures cfa { (initial steps : List StepData) → HasInitial fde.now initial
        → HasProgram fde.now steps
        → result.cfa ≡ cfa_at initial steps pc }
    ensures columns { (initial steps : List StepData) → HasInitial fde.now initial
        → HasProgram fde.now steps
        → (r : ℕ) → r < 17 → slice_get result.columns r ≡ Some (rule_at r initial steps pc) }
{
    steps_are_ordered();
    fde.expressions_stand();
    Row::new(fde.bytes(), rules_at(fde, pc))
}
