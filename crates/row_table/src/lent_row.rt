//! Rows, as a table lends them.

ghost use Rattle.std.specs.Prelude.{◌≡◌, List, ℕ, slice_index_or};
ghost use Rattle.frame_rows.specs.declared.rule.RuleWith.TheVariants.{Unset};
ghost use Rattle.frame_rows.specs.Expressions.{HasExpressions};
ghost use Rattle.frame_rows.specs.Rules.{rule_told, cfa_rule_told, lent_row};

use frame_rows::{CfaRule, PlacedRow, Row, Rule};
use std::marker::Model;

/// The rules that hold at an address, where they stand in a table. Their expressions are lent from
/// the section.
#[derive(Drop)]
pub struct LentRow<'t> {
    bytes: &'t [u8],
    placed: &'t PlacedRow,
}

impl<'t> Model for LentRow<'t> {
    ghost use Rattle.frame_rows.specs.Expressions.{HasExpressions};
    ghost use Rattle.frame_rows.specs.Rules.{RowData, lent_row};

    ghost Value = { RowData };

    ghost view = { λ r. lent_row r.bytes.now r.placed.now };

    ghost invariant = { λ r. HasExpressions r.bytes.now r.placed.now };
}

impl<'t> LentRow<'t> {
    /// The row whose expressions stand in the bytes.
    #[inline(always)]
    pub(crate) fn new(bytes: &'t [u8], placed: &'t PlacedRow) -> LentRow<'t>
        requires { HasExpressions bytes.now placed.now }
        ensures { result ≡ lent_row bytes.now placed.now }
    {
        LentRow { bytes, placed }
    }

    /// Its rules, where they stand.
    #[inline(always)]
    pub(crate) fn placed(&self) -> &'t PlacedRow
        ensures { (bytes : List ℕ) × (self.now ≡ lent_row bytes result.now) }
    {
        self.placed
    }

    /// The same row, copied out of the table.
    #[inline(always)]
    pub fn to_row(&self) -> Row<'t>
        ensures { result ≡ self.now }
    {
        Row::new(self.bytes, *self.placed)
    }

    /// The rule for the CFA.
    #[inline(always)]
    pub fn cfa(&self) -> CfaRule<'t>
        ensures { cfa_rule_told (λ e. e.bytes.now) result ≡ self.now.cfa }
    {
        self.to_row().cfa()
    }

    /// The rule of a column; those above 16 have none.
    #[inline(always)]
    pub fn rule(&self, column: usize) -> Rule<'t>
        ensures { rule_told (λ e. e.bytes.now) result
            ≡ slice_index_or self.now.columns column Unset }
    {
        self.to_row().rule(column)
    }
}
