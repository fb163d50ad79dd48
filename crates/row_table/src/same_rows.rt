//! Whether two rows are the same.

ghost use Rattle.std.specs.Prelude.{◌≡◌, ◌≢◌, ◌+◌, ◌<◌, ◌≤◌, ℕ, IfSome, get_or, length, true};
ghost use Rattle.std.specs.Prelude.{false};
ghost use Rattle.frame_rows.specs.Rows.{unset};
ghost use Rattle.frame_rows.specs.declared.rule.RuleWith.TheVariants.{Unset};

use frame_rows::{PlacedCfaRule, PlacedRow, PlacedRule};

/// The places that `place_of` tells.
pub(crate) const PLACES: usize = 4096;

/// One where a register is saved, else nought.
#[inline(always)]
fn saved_mark(rule: &PlacedRule) -> u64 {
    match rule {
        PlacedRule::Offset { .. } => 1,
        _ => 0,
    }
}

#[inline(always)]
fn offset_mark(rule: &PlacedRule) -> u64 {
    match rule {
        PlacedRule::Offset { by } => *by,
        _ => 0,
    }
}

#[inline(always)]
fn cfa_mark(rule: &PlacedCfaRule) -> u64 {
    match rule {
        PlacedCfaRule::Offset { column, by } => {
            by.wrapping_mul(32).wrapping_add(*column as u64 + 1)
        }
        _ => 0,
    }
}

/// One of so many places, which rows that are the same share. Most rows that differ are told apart
/// by the CFA, by which registers are saved, of those that a function saves, and by where 6 is.
#[inline(always)]
pub(crate) fn place_of(row: &PlacedRow) -> usize {
    let columns = &row.columns;
    let saved = saved_mark(&columns[3])
        | saved_mark(&columns[6]) << 1
        | saved_mark(&columns[12]) << 2
        | saved_mark(&columns[13]) << 3
        | saved_mark(&columns[14]) << 4
        | saved_mark(&columns[15]) << 5;
    let hash = cfa_mark(&row.cfa).wrapping_mul(0x9e37_79b9_7f4a_7c15)
        ^ saved.wrapping_mul(0xc2b2_ae3d_27d4_eb4f)
        ^ offset_mark(&columns[6]).wrapping_mul(0x1656_67b1_9e37_79f9);
    ((hash >> 40) % PLACES as u64) as usize
}

/// The number that came last at a place, where it is that of a row. The numbers of places need not
/// be those of rows.
#[inline(always)]
pub(crate) fn recent_number(
    recent: &[u16],
    place: usize,
    rows: &[PlacedRow],
    row: &PlacedRow,
) -> Option<u16>
    ensures within { IfSome result (λ number. number < length rows.now) }
    ensures equal { IfSome result (λ number. get_or rows.now number unset ≡ row.now) }
{
    let number = *recent.get(place)?;
    let index = number as usize;
    if index < rows.len() && are_equal(&rows[index], row) {
        Some(number)
    } else {
        None
    }
}

fn same_rare(a: &PlacedRule, b: &PlacedRule) -> bool
    ensures same { result ≡ true → a.now ≡ b.now }
    ensures differ { result ≡ false → a.now ≢ b.now }
{
    *a == *b
}

/// Most rules are unset or offsets.
#[inline(always)]
fn same_rule(a: &PlacedRule, b: &PlacedRule) -> bool
    ensures same { result ≡ true → a.now ≡ b.now }
    ensures differ { result ≡ false → a.now ≢ b.now }
{
    match (a, b) {
        (PlacedRule::Unset, PlacedRule::Unset) => true,
        (PlacedRule::Offset { by }, PlacedRule::Offset { by: other }) => *by == *other,
        _ => same_rare(a, b),
    }
}

fn same_rare_cfa(a: &PlacedCfaRule, b: &PlacedCfaRule) -> bool
    ensures same { result ≡ true → a.now ≡ b.now }
    ensures differ { result ≡ false → a.now ≢ b.now }
{
    *a == *b
}

/// Most rules for the CFA are a column and an offset.
#[inline(always)]
pub(crate) fn same_cfa(a: &PlacedCfaRule, b: &PlacedCfaRule) -> bool
    ensures same { result ≡ true → a.now ≡ b.now }
    ensures differ { result ≡ false → a.now ≢ b.now }
{
    match (a, b) {
        (
            PlacedCfaRule::Offset { column, by },
            PlacedCfaRule::Offset {
                column: other_column,
                by: other,
            },
        ) => *by == *other && *column == *other_column,
        _ => same_rare_cfa(a, b),
    }
}

#[inline(always)]
fn same_at(a: &[PlacedRule; 17], b: &[PlacedRule; 17], column: usize) -> bool
    requires { column < 17 }
    ensures same { result ≡ true → get_or a.now column Unset ≡ get_or b.now column Unset }
    ensures differ { result ≡ false → a.now ≢ b.now }
{
    same_rule(&a[column], &b[column])
}

/// The same of four columns. Written out, so that of each one the processor guesses apart: a loop
/// isn't unrolled.
#[inline(always)]
fn same_four(a: &[PlacedRule; 17], b: &[PlacedRule; 17], from: usize) -> bool
    requires { from + 4 ≤ 17 }
    ensures same { result ≡ true → (k : ℕ) → from ≤ k → k < from + 4
        → get_or a.now k Unset ≡ get_or b.now k Unset }
    ensures differ { result ≡ false → a.now ≢ b.now }
{
    same_at(a, b, from)
        && same_at(a, b, from + 1)
        && same_at(a, b, from + 2)
        && same_at(a, b, from + 3)
}

#[inline(always)]
fn same_columns(a: &[PlacedRule; 17], b: &[PlacedRule; 17]) -> bool
    ensures same { result ≡ true → a.now ≡ b.now }
    ensures differ { result ≡ false → a.now ≢ b.now }
{
    if !same_four(a, b, 0) {
        return false;
    }
    if !same_four(a, b, 4) {
        return false;
    }
    if !same_four(a, b, 8) {
        return false;
    }
    if !same_four(a, b, 12) {
        return false;
    }
    same_at(a, b, 16)
}

pub(crate) fn are_equal(a: &PlacedRow, b: &PlacedRow) -> bool
    ensures same { result ≡ true → a.now ≡ b.now }
    ensures differ { result ≡ false → a.now ≢ b.now }
{
    same_cfa(&a.cfa, &b.cfa) && same_columns(&a.columns, &b.columns)
}
