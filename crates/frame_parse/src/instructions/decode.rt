//! What one instruction spells, read where it stands.

ghost use Rattle.std.specs.Prelude.{◌≡◌, ◌<◌, ◌*◌, ◌⊎◌, IfOk};
ghost use Rattle.eh_bytes.specs.CursorData.{Gives};
ghost use Rattle.frame_parse.specs.declared.instructions.ReadRuleWith.TheVariants as rules;
ghost use Rattle.frame_parse.specs.Programs.{other, factored, set, restore, cfa_column};
ghost use Rattle.frame_parse.specs.Programs.{second_column, extended_operation};

use super::blocks::{column_block, expression_block};
use super::context::Context;
use super::opcodes::*;
use super::{PlacedInstruction, PlacedReadRule, RawInstruction};
use crate::fault::RecordFault;
use crate::records::fields::{self, four_bytes, pointer, sleb, two_bytes, uleb};
use eh_bytes::Cursor;

/// An offset in data alignments, modulo 2^64.
#[inline(always)]
pub(super) fn factored(context: &Context, number: u64) -> u64
    ensures { result ≡ factored context.now number }
{
    number.wrapping_mul(context.data_alignment.cast_unsigned())
}

/// A rule for a column, which is applied up to column 16.
#[inline(always)]
pub(super) fn set(column: u64, rule: PlacedReadRule) -> PlacedInstruction
    ensures { result ≡ set column rule }
{
    if column > 16 {
        PlacedInstruction::Nop
    } else {
        PlacedInstruction::Set {
            column: column as u8,
            rule,
        }
    }
}

/// The initial rule of a column, which is applied up to column 16.
#[inline(always)]
pub(super) fn restore(column: u64) -> PlacedInstruction
    ensures { result ≡ restore column }
{
    if column > 16 {
        PlacedInstruction::Nop
    } else {
        PlacedInstruction::Restore {
            column: column as u8,
        }
    }
}

/// A column of the CFA.
#[inline(always)]
#[tactic(auto, unfolding(crate::specs::Programs::cfa_column))]
pub(super) fn cfa_column(cursor: &mut Cursor) -> Result<u8, RecordFault>
    ensures { Gives (λ x. x) cfa_column.read cursor.old result cursor.new }
{
    let at = cursor.at();
    let column = uleb(cursor)?;
    if column < 17 {
        Ok(column as u8)
    } else {
        Err(RecordFault::Column { at, column })
    }
}

/// The second column of a register rule.
#[tactic(auto, unfolding(crate::specs::Programs::second_column))]
fn second_column(cursor: &mut Cursor, first: u64) -> Result<u64, RecordFault>
    ensures read { Gives (λ x. x) (second_column first).read cursor.old result cursor.new }
    ensures fits { IfOk result (λ x. 16 < first ⊎ x < 17) }
{
    let at = cursor.at();
    let column = uleb(cursor)?;
    if first > 16 || column < 17 {
        Ok(column)
    } else {
        Err(RecordFault::Column { at, column })
    }
}

/// A rule that takes a column from another.
#[inline(always)]
fn register(first: u64, second: u64) -> PlacedInstruction
    requires { 16 < first ⊎ second < 17 }
    ensures { result ≡ set first (rules.Register second) }
{
    if first > 16 {
        PlacedInstruction::Nop
    } else {
        set(
            first,
            PlacedReadRule::Register {
                column: second as u8,
            },
        )
    }
}

#[inline(always)]
fn other(instruction: PlacedInstruction) -> RawInstruction
    ensures { result ≡ other instruction }
{
    RawInstruction::Other { instruction }
}

/// What an instruction spells whose byte is an extended opcode.
#[inline(always)]
#[tactic(auto, unfolding(crate::specs::Programs::extended_operation))]
pub(super) fn extended_operation(
    context: &Context,
    cursor: &mut Cursor,
    at: usize,
    byte: u8,
) -> Result<RawInstruction, RecordFault>
    ensures { Gives (λ o. o) (extended_operation context.now at byte).read cursor.old result
        cursor.new }
{
    match byte {
        DW_CFA_nop => Ok(other(PlacedInstruction::Nop)),
        DW_CFA_set_loc => {
            let address = pointer(cursor, context.section, context.pointers)?;
            Ok(RawInstruction::SetLocation { address })
        }
        DW_CFA_advance_loc1 => Ok(RawInstruction::Advance {
            delta: fields::byte(cursor)? as u64,
        }),
        DW_CFA_advance_loc2 => Ok(RawInstruction::Advance {
            delta: two_bytes(cursor)? as u64,
        }),
        DW_CFA_advance_loc4 => Ok(RawInstruction::Advance {
            delta: four_bytes(cursor)? as u64,
        }),
        DW_CFA_offset_extended => {
            let column = uleb(cursor)?;
            let by = factored(context, uleb(cursor)?);
            Ok(other(set(column, PlacedReadRule::Offset { by })))
        }
        DW_CFA_restore_extended => Ok(other(restore(uleb(cursor)?))),
        DW_CFA_undefined => Ok(other(set(uleb(cursor)?, PlacedReadRule::Undefined))),
        DW_CFA_same_value => Ok(other(set(uleb(cursor)?, PlacedReadRule::Same))),
        DW_CFA_register => {
            let first = uleb(cursor)?;
            let second = second_column(cursor, first)?;
            Ok(other(register(first, second)))
        }
        DW_CFA_remember_state => Ok(other(PlacedInstruction::Remember)),
        DW_CFA_restore_state => Ok(other(PlacedInstruction::RestoreState)),
        DW_CFA_def_cfa => {
            let column = cfa_column(cursor)?;
            let by = uleb(cursor)?;
            Ok(other(PlacedInstruction::Cfa { column, by }))
        }
        DW_CFA_def_cfa_register => Ok(other(PlacedInstruction::CfaColumn {
            column: cfa_column(cursor)?,
        })),
        DW_CFA_def_cfa_offset => Ok(other(PlacedInstruction::CfaOffset { by: uleb(cursor)? })),
        DW_CFA_def_cfa_expression => Ok(other(PlacedInstruction::CfaExpression {
            expr: expression_block::<0>(cursor)?,
        })),
        DW_CFA_expression => {
            let column = uleb(cursor)?;
            let block = column_block(cursor, column)?;
            Ok(other(set(column, PlacedReadRule::Expression { expr: block })))
        }
        DW_CFA_offset_extended_sf => {
            let column = uleb(cursor)?;
            let by = factored(context, sleb(cursor)?.cast_unsigned());
            Ok(other(set(column, PlacedReadRule::Offset { by })))
        }
        DW_CFA_def_cfa_sf => {
            let column = cfa_column(cursor)?;
            let by = factored(context, sleb(cursor)?.cast_unsigned());
            Ok(other(PlacedInstruction::Cfa { column, by }))
        }
        DW_CFA_def_cfa_offset_sf => {
            let by = factored(context, sleb(cursor)?.cast_unsigned());
            Ok(other(PlacedInstruction::CfaOffset { by }))
        }
        DW_CFA_val_offset => {
            let column = uleb(cursor)?;
            let by = factored(context, uleb(cursor)?);
            Ok(other(set(column, PlacedReadRule::ValOffset { by })))
        }
        DW_CFA_val_offset_sf => {
            let column = uleb(cursor)?;
            let by = factored(context, sleb(cursor)?.cast_unsigned());
            Ok(other(set(column, PlacedReadRule::ValOffset { by })))
        }
        DW_CFA_val_expression => {
            let column = uleb(cursor)?;
            let block = column_block(cursor, column)?;
            Ok(other(set(column, PlacedReadRule::ValExpression { expr: block })))
        }
        DW_CFA_GNU_args_size => {
            let _size = uleb(cursor)?;
            Ok(other(PlacedInstruction::Nop))
        }
        _ => Err(RecordFault::Opcode { at, byte }),
    }
}
