//! Rules: how the CFA and a column of the frame before are found.

ghost use Rattle.std.specs.Prelude.{◌≡◌};
ghost use Rattle.frame_parse.specs.Blocks.{block_in};
ghost use Rattle.frame_rows.specs.Columns.{rule_of, with_column, with_offset};
ghost use Rattle.frame_rows.specs.Expressions.{HasCfaExpression, HasColumnExpression};
ghost use Rattle.frame_rows.specs.Rules.{rule_told, cfa_rule_told};

use frame_expr::{CfaExpr, ColumnExpr};
use frame_parse::{PlacedReadRule, lent_expr};

/// How the CFA is found. `E` tells its expression.
#[derive(Clone, Copy, Debug, PartialEq, Eq)]
pub enum CfaRuleWith<E> {
    /// No instruction has said it.
    Missing,
    /// A column's number plus an offset, modulo 2^64.
    Offset { column: u8, by: u64 },
    /// The value of an expression.
    Expression { expr: E },
}

/// How a column of the frame before is found. `E` tells its expression.
#[derive(Clone, Copy, Debug, PartialEq, Eq)]
pub enum RuleWith<E> {
    /// No instruction has said it.
    Unset,
    Undefined,
    Same,
    /// Saved at the CFA plus an offset, modulo 2^64.
    Offset { by: u64 },
    /// The CFA plus an offset, modulo 2^64.
    ValOffset { by: u64 },
    /// Saved in another column.
    Register { column: u8 },
    /// Saved at the value of an expression, which starts with the CFA.
    Expression { expr: E },
    /// The value of an expression, which starts with the CFA.
    ValExpression { expr: E },
}

/// Rules that lend their expressions.
pub type CfaRule<'a> = CfaRuleWith<CfaExpr<'a>>;

pub type Rule<'a> = RuleWith<ColumnExpr<'a>>;

/// Rules that tell the places of their expressions' blocks in the section. They are small, so that
/// rows of them are copied fast.
pub type PlacedCfaRule = CfaRuleWith<usize>;

pub type PlacedRule = RuleWith<usize>;

impl PlacedCfaRule {
    /// Another column, and the same offset. A rule of another kind stays.
    pub(crate) fn set_column(&mut self, new: u8)
        ensures { self.new ≡ with_column new self.old }
    {
        match self {
            PlacedCfaRule::Offset { column, .. } => *column = new,
            PlacedCfaRule::Missing | PlacedCfaRule::Expression { .. } => {}
        }
    }

    /// The same column, and another offset. A rule of another kind stays.
    pub(crate) fn set_offset(&mut self, new: u64)
        ensures { self.new ≡ with_offset new self.old }
    {
        match self {
            PlacedCfaRule::Offset { by, .. } => *by = new,
            PlacedCfaRule::Missing | PlacedCfaRule::Expression { .. } => {}
        }
    }
}

/// The rule that an instruction sets.
pub(crate) fn rule_of(read: PlacedReadRule) -> PlacedRule
    ensures { result ≡ rule_of read }
{
    match read {
        PlacedReadRule::Undefined => PlacedRule::Undefined,
        PlacedReadRule::Same => PlacedRule::Same,
        PlacedReadRule::Offset { by } => PlacedRule::Offset { by },
        PlacedReadRule::ValOffset { by } => PlacedRule::ValOffset { by },
        PlacedReadRule::Register { column } => PlacedRule::Register { column },
        PlacedReadRule::Expression { expr } => PlacedRule::Expression { expr },
        PlacedReadRule::ValExpression { expr } => PlacedRule::ValExpression { expr },
    }
}

/// A rule for the CFA, with its expression lent.
#[inline(always)]
pub(crate) fn lent_cfa_rule<'a>(bytes: &'a [u8], rule: PlacedCfaRule) -> CfaRule<'a>
    requires { HasCfaExpression bytes.now rule }
    ensures { cfa_rule_told (λ e. e.bytes.now) result ≡ cfa_rule_told (block_in bytes.now) rule }
{
    match rule {
        PlacedCfaRule::Missing => CfaRule::Missing,
        PlacedCfaRule::Offset { column, by } => CfaRule::Offset { column, by },
        PlacedCfaRule::Expression { expr } => CfaRule::Expression {
            expr: lent_expr(bytes, expr),
        },
    }
}

/// A column's rule, with its expression lent.
#[inline(always)]
pub(crate) fn lent_rule<'a>(bytes: &'a [u8], rule: PlacedRule) -> Rule<'a>
    requires { HasColumnExpression bytes.now rule }
    ensures { rule_told (λ e. e.bytes.now) result ≡ rule_told (block_in bytes.now) rule }
{
    match rule {
        PlacedRule::Unset => Rule::Unset,
        PlacedRule::Undefined => Rule::Undefined,
        PlacedRule::Same => Rule::Same,
        PlacedRule::Offset { by } => Rule::Offset { by },
        PlacedRule::ValOffset { by } => Rule::ValOffset { by },
        PlacedRule::Register { column } => Rule::Register { column },
        PlacedRule::Expression { expr } => Rule::Expression {
            expr: lent_expr(bytes, expr),
        },
        PlacedRule::ValExpression { expr } => Rule::ValExpression {
            expr: lent_expr(bytes, expr),
        },
    }
}
