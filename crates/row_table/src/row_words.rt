//! Rows written out in words, by which they are found in an ordered map.

ghost use Rattle.std.specs.Prelude.{◌≡◌, ◌++◌, IfOk};
ghost use Rattle.row_table.specs.Numbering.{kind_word, number_word, columns_words, row_words};
ghost use Rattle.row_table.specs.Numbering.{cfa_kind_word, cfa_column_word, cfa_number_word};

use frame_rows::{PlacedCfaRule, PlacedRow, PlacedRule};
use std::alloc::{AllocError, Global};

/// The kind of a rule, and what it holds.
fn rule_words(rule: &PlacedRule) -> (u64, u64)
    ensures kind { result.0 ≡ kind_word rule.now }
    ensures number { result.1 ≡ number_word rule.now }
{
    match rule {
        PlacedRule::Unset => (0, 0),
        PlacedRule::Undefined => (1, 0),
        PlacedRule::Same => (2, 0),
        PlacedRule::Offset { by } => (3, *by),
        PlacedRule::ValOffset { by } => (4, *by),
        PlacedRule::Register { column } => (5, *column as u64),
        PlacedRule::Expression { expr } => (6, *expr as u64),
        PlacedRule::ValExpression { expr } => (7, *expr as u64),
    }
}

/// The kind of the CFA's rule, its column and what it holds.
fn cfa_words(rule: &PlacedCfaRule) -> (u64, u64, u64)
    ensures kind { result.0 ≡ cfa_kind_word rule.now }
    ensures column { result.1 ≡ cfa_column_word rule.now }
    ensures number { result.2 ≡ cfa_number_word rule.now }
{
    match rule {
        PlacedCfaRule::Missing => (0, 0, 0),
        PlacedCfaRule::Offset { column, by } => (1, *column as u64, *by),
        PlacedCfaRule::Expression { expr } => (2, 0, *expr as u64),
    }
}

/// Adds the words of columns.
fn add_columns(words: &mut Vec<u64>, columns: &[PlacedRule]) -> Result<(), AllocError>
    ensures { IfOk result (λ _. words.new.items ≡ words.old.items ++ columns_words columns.now) }
{
    let mut left = columns;
    while let [rule, others @ ..] = left {
        let (kind, number) = rule_words(rule);
        words.push(kind)?;
        words.push(number)?;
        left = others;
    }
    Ok(())
}

/// The words of a row.
pub(crate) fn row_words(alloc: Global, row: &PlacedRow) -> Result<Vec<u64>, AllocError>
    ensures { IfOk result (λ words. words.items ≡ row_words row.now) }
{
    let (kind, column, number) = cfa_words(&row.cfa);
    let mut words = Vec::with_capacity(alloc, 37)?;
    words.push(kind)?;
    words.push(column)?;
    words.push(number)?;
    add_columns(&mut words, &row.columns)?;
    Ok(words)
}
