//! The rules that restores give back to columns.

ghost use Rattle.std.specs.Prelude.{◌≡◌, Bool, true, false, slice_index_or, None, IfSome};
ghost use Rattle.frame_rows.specs.declared.placed_row.PlacedRow.{PlacedRow};
ghost use Rattle.frame_rows.specs.declared.rule.RuleWith.TheVariants.{Unset};
ghost use Rattle.frame_rows.specs.Rows.{unset};

use crate::placed_row::PlacedRow;
use crate::rule::PlacedRule;

/// What tells the rule that a restore gives back to a column. A walk is built for each.
pub(crate) trait Base {
    // The rows whose rules it tells.
    ghost gives: { Self → PlacedRow → Type 0 };

    // Whether it may tell none.
    ghost gives_up: { Bool };

    fn rule(&self, column: u8) -> Option<PlacedRule>
        ensures rule { (given : PlacedRow) → gives self.now given
            → IfSome result (λ rule. rule ≡ slice_index_or given.columns column Unset) }
        ensures untold { result ≡ None → gives_up ≡ true };
}

/// Inside the initial instructions: nothing is set before them.
#[derive(Drop)]
pub(crate) struct NothingSet;

impl Base for NothingSet {
    ghost gives = { λ s given. given ≡ unset };

    ghost gives_up = { false };

    #[inline(always)]
    fn rule(&self, _column: u8) -> Option<PlacedRule> {
        Some(PlacedRule::Unset)
    }
}

/// Among an FDE's own instructions, up to the first restore: few programs restore a column, and
/// the others pay for no other row.
#[derive(Drop)]
pub(crate) struct Untold;

impl Base for Untold {
    ghost gives = { λ s given. Unit {0} };

    ghost gives_up = { true };

    #[inline(always)]
    fn rule(&self, _column: u8) -> Option<PlacedRule> {
        None
    }
}

/// The row that the initial instructions leave, where it is kept.
#[derive(Drop)]
pub(crate) struct KeptRow<'r> {
    pub(crate) row: &'r PlacedRow,
}

impl Base for KeptRow<'_> {
    ghost gives = { λ s given. s.row.now ≡ given };

    ghost gives_up = { false };

    #[inline(always)]
    fn rule(&self, column: u8) -> Option<PlacedRule> {
        Some(self.row.rule(column as usize))
    }
}
