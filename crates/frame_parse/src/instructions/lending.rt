//! The expressions of instructions, lent from the blocks in which they stand.

ghost use Rattle.std.specs.Prelude.{◌≡◌};
ghost use Rattle.frame_parse.specs.Blocks.{block_in, HasExpression, HasRuleExpression};
ghost use Rattle.frame_parse.specs.Blocks.{HasItsExpression};
ghost use Rattle.frame_parse.specs.Instructions.{read_rule_told, instruction_told, step_told};
ghost use Rattle.frame_parse.specs.Steps.{lent_step};

use super::{Instruction, PlacedInstruction, PlacedReadRule, PlacedStep, ReadRule, Step};
use eh_bytes::Cursor;
use frame_expr::Expr;

/// The expression in a block of a section's bytes. It was read with the section and isn't read
/// again: only the block's length is.
pub fn lent_expr<'a, const DEPTH: u32>(bytes: &'a [u8], block: usize) -> Expr<'a, DEPTH>
    requires { HasExpression DEPTH bytes.now block }
    ensures { result.bytes.now ≡ block_in bytes.now block }
{
    let mut cursor = Cursor::new(bytes, block, bytes.len());
    match cursor.uleb() {
        Ok(length) => Expr::of_read(&cursor.rest()[..length as usize]),
        Err(_) => unreachable!(),
    }
}

fn lent_rule<'a>(bytes: &'a [u8], rule: PlacedReadRule) -> ReadRule<'a>
    requires { HasRuleExpression bytes.now rule }
    ensures { read_rule_told (λ e. e.bytes.now) result ≡ read_rule_told (block_in bytes.now) rule }
{
    match rule {
        PlacedReadRule::Undefined => ReadRule::Undefined,
        PlacedReadRule::Same => ReadRule::Same,
        PlacedReadRule::Offset { by } => ReadRule::Offset { by },
        PlacedReadRule::ValOffset { by } => ReadRule::ValOffset { by },
        PlacedReadRule::Register { column } => ReadRule::Register { column },
        PlacedReadRule::Expression { expr } => ReadRule::Expression {
            expr: lent_expr(bytes, expr),
        },
        PlacedReadRule::ValExpression { expr } => ReadRule::ValExpression {
            expr: lent_expr(bytes, expr),
        },
    }
}

fn lent_instruction<'a>(bytes: &'a [u8], instruction: PlacedInstruction) -> Instruction<'a>
    requires { HasItsExpression bytes.now instruction }
    ensures { instruction_told (λ e. e.bytes.now) (λ e. e.bytes.now) result
        ≡ instruction_told (block_in bytes.now) (block_in bytes.now) instruction }
{
    match instruction {
        PlacedInstruction::Nop => Instruction::Nop,
        PlacedInstruction::Advance => Instruction::Advance,
        PlacedInstruction::Set { column, rule } => Instruction::Set {
            column,
            rule: lent_rule(bytes, rule),
        },
        PlacedInstruction::Restore { column } => Instruction::Restore { column },
        PlacedInstruction::Remember => Instruction::Remember,
        PlacedInstruction::RestoreState => Instruction::RestoreState,
        PlacedInstruction::Cfa { column, by } => Instruction::Cfa { column, by },
        PlacedInstruction::CfaColumn { column } => Instruction::CfaColumn { column },
        PlacedInstruction::CfaOffset { by } => Instruction::CfaOffset { by },
        PlacedInstruction::CfaExpression { expr } => Instruction::CfaExpression {
            expr: lent_expr(bytes, expr),
        },
    }
}

/// A step that lends its expression.
pub(crate) fn lent_step<'a>(bytes: &'a [u8], step: PlacedStep) -> Step<'a>
    requires { HasItsExpression bytes.now step.instruction }
    ensures { step_told (λ e. e.bytes.now) (λ e. e.bytes.now) result ≡ lent_step bytes.now step }
{
    Step {
        location: step.location,
        instruction: lent_instruction(bytes, step.instruction),
    }
}
