//! The steps of a program, read one by one and tested on the way.

ghost use Rattle.std.specs.Prelude.{◌≡◌, ◌/◌, ◌%◌};
ghost use Rattle.eh_bytes.specs.CursorData.{Gives};
ghost use Rattle.eh_bytes.specs.Steps.{steps_from};
ghost use Rattle.frame_parse.specs.Programs.{instruction_of, extended_step, step, initial_state};
ghost use Rattle.frame_parse.specs.Programs.{first_state};

use super::context::Context;
use super::decode::{cfa_column, extended_operation, factored, restore, set};
use super::effect::{advance, change_cfa, effect, remember, restore_state};
use super::opcodes::*;
use super::{PlacedInstruction, PlacedReadRule, PlacedStep, RawInstruction};
use crate::fault::RecordFault;
use crate::program_state::{ProgramState, Remembered};
use crate::records::CieRecord;
use crate::records::fields::{self, uleb};
use eh_bytes::Cursor;

#[inline(always)]
fn instruction_of(operation: &RawInstruction) -> PlacedInstruction
    ensures { result ≡ instruction_of operation.now }
{
    match operation {
        RawInstruction::Advance { .. } | RawInstruction::SetLocation { .. } =>
            PlacedInstruction::Advance,
        RawInstruction::Other { instruction } => *instruction,
    }
}

/// An instruction where it is met.
#[inline(always)]
fn here(state: &ProgramState, instruction: PlacedInstruction) -> PlacedStep
    ensures { result ≡ record { location = state.now.location; instruction = instruction } }
{
    PlacedStep {
        location: state.location,
        instruction,
    }
}

/// The step of an instruction whose byte is an extended opcode, by what it spells.
#[inline(never)]
fn decoded_step(
    context: &Context,
    cursor: &mut Cursor,
    state: &mut ProgramState,
    at: usize,
    byte: u8,
) -> Result<PlacedStep, RecordFault>
    ensures { Gives (λ x. (x, state.new)) (extended_step context.now state.old at byte).read
        cursor.old result cursor.new }
{
    let operation = extended_operation(context, cursor, at, byte)?;
    effect(context, at, state, &operation)?;
    Ok(here(state, instruction_of(&operation)))
}

/// The same, with a place of its own for the answer: so that those of a caller's other arms stay in
/// registers.
#[inline(always)]
fn step_by_operation(
    context: &Context,
    cursor: &mut Cursor,
    state: &mut ProgramState,
    at: usize,
    byte: u8,
) -> Result<PlacedStep, RecordFault>
    ensures { Gives (λ x. (x, state.new)) (extended_step context.now state.old at byte).read
        cursor.old result cursor.new }
{
    let step = decoded_step(context, cursor, state, at, byte)?;
    Ok(step)
}

/// The same. The instructions of which compilers write most are tested where they are read.
#[inline(always)]
#[tactic(auto, unfolding(crate::specs::Programs::extended_operation))]
fn extended_step(
    context: &Context,
    cursor: &mut Cursor,
    state: &mut ProgramState,
    at: usize,
    byte: u8,
) -> Result<PlacedStep, RecordFault>
    ensures { Gives (λ x. (x, state.new)) (extended_step context.now state.old at byte).read
        cursor.old result cursor.new }
{
    match byte {
        DW_CFA_nop => Ok(here(state, PlacedInstruction::Nop)),
        DW_CFA_advance_loc1 => {
            let delta = fields::byte(cursor)? as u64;
            advance(context, at, state, delta)?;
            Ok(here(state, PlacedInstruction::Advance))
        }
        DW_CFA_remember_state => {
            remember(at, state)?;
            Ok(here(state, PlacedInstruction::Remember))
        }
        DW_CFA_restore_state => {
            restore_state(at, state)?;
            Ok(here(state, PlacedInstruction::RestoreState))
        }
        DW_CFA_def_cfa => {
            let column = cfa_column(cursor)?;
            let by = uleb(cursor)?;
            state.offset = true;
            Ok(here(state, PlacedInstruction::Cfa { column, by }))
        }
        _ => step_by_operation(context, cursor, state, at, byte),
    }
}

/// The next instruction, with the location at which it holds. The state is then the one after it.
/// Each instruction is tested where it is read, so that nothing goes by its kind a second time; the
/// two that are most frequent, advance_loc and def_cfa_offset, come first, since a branch is
/// guessed better than a jump through a table.
#[inline(always)]
#[tactic(auto, unfolding(crate::specs::Programs::step, crate::specs::Programs::operation, crate::specs::Programs::extended_operation))]
pub(crate) fn step(
    context: &Context,
    cursor: &mut Cursor,
    state: &mut ProgramState,
) -> Result<PlacedStep, RecordFault>
    ensures { Gives (λ x. (x, state.new)) (step context.now state.old).read
        cursor.old result cursor.new }
{
    let at = cursor.at();
    let byte = fields::byte(cursor)?;
    let low = byte % 64;
    let high = byte / 64;
    if high == DW_CFA_advance_loc {
        advance(context, at, state, low as u64)?;
        Ok(here(state, PlacedInstruction::Advance))
    } else if byte == DW_CFA_def_cfa_offset {
        let by = uleb(cursor)?;
        change_cfa(at, state)?;
        Ok(here(state, PlacedInstruction::CfaOffset { by }))
    } else {
        match high {
            DW_CFA_offset => {
                let by = factored(context, uleb(cursor)?);
                Ok(here(state, set(low as u64, PlacedReadRule::Offset { by })))
            }
            DW_CFA_restore => Ok(here(state, restore(low as u64))),
            _ => extended_step(context, cursor, state, at, byte),
        }
    }
}

/// All instructions up to the end of their record, and the state after them.
pub(crate) fn steps(
    context: &Context,
    cursor: &mut Cursor,
    state: ProgramState,
) -> Result<ProgramState, RecordFault>
    ensures { Gives (λ s. s) (steps_from (step context.now) state).read
        cursor.old result cursor.new }
{
    let mut state = state;
    while cursor.left() > 0 {
        step(context, cursor, &mut state)?;
    }
    Ok(state)
}

/// The state before the instructions of a CIE.
pub(crate) fn initial_state() -> ProgramState
    ensures { result ≡ initial_state }
{
    ProgramState {
        location: 0,
        offset: false,
        remembered: Remembered::new(),
    }
}

/// The state before the instructions of an FDE.
pub(crate) fn first_state(cie: &CieRecord, first: u64) -> ProgramState
    ensures { result ≡ first_state cie.now first }
{
    ProgramState {
        location: first,
        offset: cie.offset,
        remembered: Remembered::new(),
    }
}
