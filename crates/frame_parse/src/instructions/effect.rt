//! What an instruction is tested against, and what it changes for those after it.

ghost use Rattle.std.specs.Prelude.{◌≡◌, ◌<◌, ◌+◌, ◌*◌, ◌^◌, nat_lt, if◌then◌else◌, Some, None};
ghost use Rattle.eh_bytes.specs.Results.{Leaves};
ghost use Rattle.frame_parse.specs.declared.instructions.InstructionWith.TheVariants.{Remember};
ghost use Rattle.frame_parse.specs.declared.instructions.InstructionWith.TheVariants.{RestoreState};
ghost use Rattle.frame_parse.specs.Programs.{change_cfa, effect_of, effect};

use super::context::Context;
use super::{PlacedInstruction, RawInstruction};
use crate::fault::RecordFault;
use crate::program_state::ProgramState;

/// Remembers whether the CFA rule is a column plus an offset.
#[inline(always)]
pub(super) fn remember(at: usize, state: &mut ProgramState) -> Result<(), RecordFault>
    ensures { Leaves (effect_of at state.old Remember) result state.new }
{
    if state.remembered.len() == 8 {
        return Err(RecordFault::Remember { at });
    }
    state.remembered.push(state.offset);
    Ok(())
}

/// Takes back what was remembered last.
#[inline(always)]
pub(super) fn restore_state(at: usize, state: &mut ProgramState) -> Result<(), RecordFault>
    ensures { Leaves (effect_of at state.old RestoreState) result state.new }
{
    if state.remembered.len() == 0 {
        return Err(RecordFault::Remember { at });
    }
    state.offset = state.remembered.pop();
    Ok(())
}

/// A part of the CFA rule can be changed only where that is a column plus an offset.
#[inline(always)]
pub(super) fn change_cfa(at: usize, state: &ProgramState) -> Result<(), RecordFault>
    ensures { Leaves (change_cfa at state.now) result state.now }
{
    if state.offset {
        Ok(())
    } else {
        Err(RecordFault::CfaRule { at })
    }
}

/// What an instruction changes for those after it.
#[inline(always)]
fn effect_of(
    at: usize,
    state: &mut ProgramState,
    instruction: &PlacedInstruction,
) -> Result<(), RecordFault>
    ensures { Leaves (effect_of at state.old instruction.now) result state.new }
{
    match instruction {
        PlacedInstruction::Remember => remember(at, state),
        PlacedInstruction::RestoreState => restore_state(at, state),
        PlacedInstruction::Cfa { .. } => {
            state.offset = true;
            Ok(())
        }
        PlacedInstruction::CfaExpression { .. } => {
            state.offset = false;
            Ok(())
        }
        PlacedInstruction::CfaColumn { .. } | PlacedInstruction::CfaOffset { .. } => {
            change_cfa(at, state)
        }
        PlacedInstruction::Nop
        | PlacedInstruction::Advance
        | PlacedInstruction::Set { .. }
        | PlacedInstruction::Restore { .. } => Ok(()),
    }
}

/// The location on by as many code alignments, where that is an address.
#[inline(always)]
fn advanced(location: u64, delta: u64, alignment: u64) -> Option<u64>
    ensures { result ≡ (if nat_lt (location + delta * alignment) (2 ^ 64)
        then Some (location + delta * alignment) else None) }
{
    match delta.checked_mul(alignment) {
        None => None,
        Some(by) => location.checked_add(by),
    }
}

/// Moves the location on by as many code alignments: only in an FDE, and not past the last address.
#[inline(always)]
pub(super) fn advance(
    context: &Context,
    at: usize,
    state: &mut ProgramState,
    delta: u64,
) -> Result<(), RecordFault>
    ensures { Leaves (effect at context.now state.old (RawInstruction.Advance delta))
        result state.new }
{
    match advanced(state.location, delta, context.code_alignment) {
        Some(location) if context.kind.moves() => {
            state.location = location;
            Ok(())
        }
        _ => Err(RecordFault::Location { at }),
    }
}

/// What an instruction makes of the state. It moves the location only in an FDE.
#[inline(always)]
pub(super) fn effect(
    context: &Context,
    at: usize,
    state: &mut ProgramState,
    operation: &RawInstruction,
) -> Result<(), RecordFault>
    ensures { Leaves (effect at context.now state.old operation.now) result state.new }
{
    match operation {
        RawInstruction::Advance { delta } => advance(context, at, state, *delta),
        RawInstruction::SetLocation { address } => {
            if context.kind.moves() && state.location <= *address {
                state.location = *address;
                Ok(())
            } else {
                Err(RecordFault::Location { at })
            }
        }
        RawInstruction::Other { instruction } => effect_of(at, state, instruction),
    }
}
