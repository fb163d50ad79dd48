//! Whether two instructions are the same, and a number that tells most of them apart.

ghost use Rattle.std.specs.Prelude.{◌≡◌, true};
ghost use Rattle.frame_parse.specs.declared.instructions.InstructionWith.TheVariants.{Nop};

use frame_parse::{PlacedInstruction, PlacedReadRule};

#[inline(always)]
pub(crate) fn is_nop(instruction: &PlacedInstruction) -> bool
    ensures { result ≡ true → instruction.now ≡ Nop }
{
    match instruction {
        PlacedInstruction::Nop => true,
        _ => false,
    }
}

/// A number that tells most instructions apart.
#[inline(always)]
pub(crate) fn mark(instruction: &PlacedInstruction) -> u64 {
    match instruction {
        PlacedInstruction::CfaOffset { by } => by.wrapping_mul(32).wrapping_add(29),
        PlacedInstruction::Set {
            column,
            rule: PlacedReadRule::Offset { by },
        } => by.wrapping_mul(32).wrapping_add(*column as u64 + 1),
        PlacedInstruction::Cfa { column, by } => {
            by.wrapping_mul(32).wrapping_add(*column as u64 + 8)
        }
        PlacedInstruction::CfaColumn { column } => *column as u64 + 64,
        PlacedInstruction::Restore { column } => *column as u64 + 128,
        _ => 7,
    }
}

fn are_same_rare(a: &PlacedInstruction, b: &PlacedInstruction) -> bool
    ensures { result ≡ true → a.now ≡ b.now }
{
    *a == *b
}

/// Whether two say the same in all that they hold. Most set the CFA's offset, or say where a
/// register is saved.
#[inline(always)]
pub(crate) fn are_same(a: &PlacedInstruction, b: &PlacedInstruction) -> bool
    ensures { result ≡ true → a.now ≡ b.now }
{
    match (a, b) {
        (PlacedInstruction::CfaOffset { by }, PlacedInstruction::CfaOffset { by: other }) => {
            *by == *other
        }
        (
            PlacedInstruction::Set {
                column,
                rule: PlacedReadRule::Offset { by },
            },
            PlacedInstruction::Set {
                column: other_column,
                rule: PlacedReadRule::Offset { by: other },
            },
        ) => *by == *other && *column == *other_column,
        _ => are_same_rare(a, b),
    }
}
