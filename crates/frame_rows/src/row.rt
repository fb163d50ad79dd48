//! Rows, as they are handed out.

ghost use Rattle.std.specs.Prelude.{◌≡◌, slice_index_or};
ghost use Rattle.frame_rows.specs.declared.rule.RuleWith.TheVariants.{Unset};
ghost use Rattle.frame_rows.specs.Expressions.{HasExpressions};
ghost use Rattle.frame_rows.specs.Rules.{rule_told, cfa_rule_told, lent_row};

use crate::placed_row::PlacedRow;
use crate::rule::{CfaRule, Rule, lent_cfa_rule, lent_rule};
use std::marker::Model;

/// The rules that hold at an address, lent from the section: one for the CFA and one for each
/// column. Columns 0 to 15 are the registers of x86-64 by their DWARF numbers, 16 is the return
/// address.
#[derive(Drop)]
pub struct Row<'a> {
    bytes: &'a [u8],
    placed: PlacedRow,
}

impl<'a> Model for Row<'a> {
    ghost use Rattle.frame_rows.specs.Expressions.{HasExpressions};
    ghost use Rattle.frame_rows.specs.Rules.{RowData, lent_row};

    ghost Value = { RowData };

    ghost view = { λ r. lent_row r.bytes.now r.placed };

    ghost invariant = { λ r. HasExpressions r.bytes.now r.placed };
}

impl<'a> Row<'a> {
    /// The row whose expressions stand in the bytes.
    #[inline(always)]
    pub fn new(bytes: &'a [u8], placed: PlacedRow) -> Row<'a>
        requires { HasExpressions bytes.now placed }
        ensures { result ≡ lent_row bytes.now placed }
    {
        Row { bytes, placed }
    }

    /// The rule for the CFA.
    #[inline(always)]
    pub fn cfa(&self) -> CfaRule<'a>
        ensures { cfa_rule_told (λ e. e.bytes.now) result ≡ self.now.cfa }
    {
        lent_cfa_rule(self.bytes, self.placed.cfa)
    }

    /// The rule of a column; those above 16 have none.
    #[inline(always)]
    pub fn rule(&self, column: usize) -> Rule<'a>
        ensures { rule_told (λ e. e.bytes.now) result
            ≡ slice_index_or self.now.columns column Unset }
    {
        lent_rule(self.bytes, self.placed.rule(column))
    }
}
