//! A row in the form that C is told.

ghost use Rattle.std.specs.Prelude.{◌≡◌, length};
ghost use Rattle.unwind_step.specs.Backtrace.{fde_in};
ghost use Rattle.frames_c.specs.Held.{unclaimed_fde};
ghost use Rattle.frames_c.specs.Rows.{rule_kind, rule_number, cfa_rule_kind, cfa_rule_column};
ghost use Rattle.frames_c.specs.Rows.{cfa_rule_offset};
ghost use Rattle.frames_c.specs.Rows.{AreToldRules, IsToldRow, IsRowOf, AnswersRow};

use crate::share::LoadedSection;
use frame_parse::Fde;
use frame_rows::{CfaRuleWith, Row, RuleWith, row_at};

/// How the CFA and the columns 0 to 16 are found: for each the kind of its rule, and its number.
#[repr(C)]
#[derive(Clone, Copy)]
pub struct FramesRow {
    pub cfa: u64,
    pub cfa_column: u64,
    pub cfa_offset: u64,
    pub rules: [u64; 17],
    pub numbers: [u64; 17],
}

/// The kind of a rule, and its number.
#[inline(always)]
pub(crate) fn told<E>(rule: &RuleWith<E>) -> (u64, u64)
    ensures kind { result.0 ≡ rule_kind rule.now }
    ensures number { result.1 ≡ rule_number rule.now }
{
    match rule {
        RuleWith::Unset => (0, 0),
        RuleWith::Undefined => (1, 0),
        RuleWith::Same => (2, 0),
        RuleWith::Offset { by } => (3, *by),
        RuleWith::ValOffset { by } => (4, *by),
        RuleWith::Register { column } => (5, *column as u64),
        RuleWith::Expression { .. } => (6, 0),
        RuleWith::ValExpression { .. } => (7, 0),
    }
}

/// Writes the rules of all columns. By slices, and not inlined: a loop over arrays would be
/// unrolled whole.
#[inline(never)]
fn tell_columns(row: &Row<'_>, kinds: &mut [u64], numbers: &mut [u64])
    requires kinds { length kinds.old ≡ 17 }
    requires numbers { length numbers.old ≡ 17 }
    ensures told { AreToldRules row.now 17 kinds.new numbers.new }
    ensures kinds { length kinds.new ≡ 17 }
    ensures numbers { length numbers.new ≡ 17 }
{
    for column in 0..17usize {
        let (kind, number) = told(&row.rule(column));
        kinds[column] = kind;
        numbers[column] = number;
    }
}

/// The kind of the CFA's rule, its column and its offset.
pub(crate) fn told_cfa<E>(rule: &CfaRuleWith<E>) -> (u64, u64, u64)
    ensures kind { result.0 ≡ cfa_rule_kind rule.now }
    ensures column { result.1 ≡ cfa_rule_column rule.now }
    ensures offset { result.2 ≡ cfa_rule_offset rule.now }
{
    match rule {
        CfaRuleWith::Missing => (0, 0, 0),
        CfaRuleWith::Offset { column, by } => (1, *column as u64, *by),
        CfaRuleWith::Expression { .. } => (2, 0, 0),
    }
}

/// Writes a row.
fn tell(row: &Row<'_>, out: &mut FramesRow)
    ensures { IsToldRow row.now out.new }
{
    let (kind, column, offset) = told_cfa(&row.cfa());
    out.cfa = kind;
    out.cfa_column = column;
    out.cfa_offset = offset;
    tell_columns(row, &mut out.rules, &mut out.numbers);
}

/// Writes the row of an FDE at an address.
fn write_row(fde: &Fde<'_>, pc: u64, out: &mut FramesRow)
    ensures { IsRowOf fde.now pc out.new }
{
    tell(&row_at(fde, pc), out);
}

/// Writes the row of an address, where an FDE covers it.
pub(crate) fn row_by_fde(section: &LoadedSection, pc: u64, out: &mut FramesRow) -> bool
    ensures { AnswersRow (fde_in pc section.now.section) pc result out.old out.new }
{
    match section.fde_at(pc) {
        None => false,
        Some(fde) => {
            write_row(&fde, pc, out);
            true
        }
    }
}

/// The same, unless a refused record answers.
pub(crate) fn row_in(section: &LoadedSection, pc: u64, out: &mut FramesRow) -> bool
    ensures { AnswersRow (unclaimed_fde pc section.now) pc result out.old out.new }
{
    match section.claim_at(pc) {
        Some(_) => false,
        None => row_by_fde(section, pc, out),
    }
}
