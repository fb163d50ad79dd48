//! Rows with the places of their expressions, and what an instruction makes of one.

ghost use Rattle.std.specs.Prelude.{◌≡◌, slice_index_or, slice_set};
ghost use Rattle.frame_rows.specs.declared.placed_row.PlacedRow.{PlacedRow};
ghost use Rattle.frame_rows.specs.declared.rule.RuleWith.TheVariants.{Unset};
ghost use Rattle.frame_rows.specs.Rows.{IsNoRestore, applied, unset};

use crate::rule::{PlacedCfaRule, PlacedRule, rule_of};
use frame_parse::PlacedInstruction;

/// The rules that hold at an address, as a walk keeps, remembers and restores them. Where their
/// expressions stand in the section's bytes, `Row::new` makes of it a row that lends them.
#[derive(Clone, Copy, Debug, PartialEq, Eq)]
pub struct PlacedRow {
    pub cfa: PlacedCfaRule,
    pub columns: [PlacedRule; 17],
}

impl PlacedRow {
    /// What holds before any instruction.
    pub(crate) fn unset() -> PlacedRow
        ensures { result ≡ unset }
    {
        PlacedRow {
            cfa: PlacedCfaRule::Missing,
            columns: [PlacedRule::Unset; 17],
        }
    }

    /// The rule of a column; those above 16 have none.
    #[inline(always)]
    pub(crate) fn rule(&self, column: usize) -> PlacedRule
        ensures { result ≡ slice_index_or self.now.columns column Unset }
    {
        if column < 17 {
            self.columns[column]
        } else {
            PlacedRule::Unset
        }
    }

    /// Sets the rule of a column up to 16.
    pub(crate) fn set(&mut self, column: u8, rule: PlacedRule)
        ensures { self.new ≡ record self.old { columns = slice_set self.old.columns column rule } }
    {
        let index = column as usize;
        if index < self.columns.len() {
            self.columns[index] = rule;
        }
    }

    /// Does what an instruction makes of a row by itself. A restore gives back the rule that the
    /// initial instructions leave.
    pub fn apply(&mut self, initial: &PlacedRow, instruction: PlacedInstruction)
        ensures { self.new ≡ applied initial.now self.old instruction }
    {
        match instruction {
            PlacedInstruction::Restore { column } => {
                let rule = initial.rule(column as usize);
                self.set(column, rule);
            }
            instruction => change(self, instruction),
        }
    }
}

/// What an instruction other than a restore makes of a row by itself.
#[inline(always)]
pub(crate) fn change(row: &mut PlacedRow, instruction: PlacedInstruction)
    ensures { (base : PlacedRow) → IsNoRestore instruction
        → row.new ≡ applied base row.old instruction }
{
    match instruction {
        PlacedInstruction::Set { column, rule } => row.set(column, rule_of(rule)),
        PlacedInstruction::Cfa { column, by } => row.cfa = PlacedCfaRule::Offset { column, by },
        PlacedInstruction::CfaColumn { column } => row.cfa.set_column(column),
        PlacedInstruction::CfaOffset { by } => row.cfa.set_offset(by),
        PlacedInstruction::CfaExpression { expr } => row.cfa = PlacedCfaRule::Expression { expr },
        PlacedInstruction::Nop
        | PlacedInstruction::Advance
        | PlacedInstruction::Restore { .. }
        | PlacedInstruction::Remember
        | PlacedInstruction::RestoreState => {}
    }
}
