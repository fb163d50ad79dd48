//! Registers of the frame before, by a row where it stands in a table. Most rows have but two kinds
//! of rules: none is set, or the number is saved at an offset from the CFA. Of those no row is
//! copied, and a register without a rule isn't touched. A match of more kinds would jump through a
//! table for each column.

ghost use Rattle.std.specs.Prelude.{◌≡◌, ◌≢◌, ◌<◌, ◌≤◌, List, ℕ, Ok, Err, slice_index};
ghost use Rattle.std.specs.Prelude.{◌+◌, IfSome, length, slice_index_or};
ghost use Rattle.frame_expr.specs.Regions.{RegionData};
ghost use Rattle.frame_parse.specs.Blocks.{block_in};
ghost use Rattle.frame_rows.specs.declared.rule.RuleWith.TheVariants.{Unset};
ghost use Rattle.frame_rows.specs.Rules.{lent_row, rule_told};
ghost use Rattle.unwind_step.specs.NextFrame.{AreRestored, FailsFirst, Leads};
ghost use Rattle.unwind_step.specs.Rules.{IsCfa, IsRestored};
ghost use Rattle.row_table.specs.Followed.{FollowsRow, Restores};
ghost use Rattle.row_table.specs.declared.following.Followed.TheVariants.{Frame, NoBytes};

use crate::lent_row::LentRow;
use frame_expr::{Regs, WordSource};
use frame_rows::{PlacedCfaRule, PlacedRow, PlacedRule};
use std::marker::PhantomData;

/// What came of registers by frequent rules.
#[derive(Clone, Copy, Debug, PartialEq, Eq)]
pub(crate) enum Followed {
    /// They are those of the frame before.
    Frame,
    /// The eight bytes at an address aren't there.
    NoBytes { address: u64 },
    /// There is another rule.
    Rare,
}

/// Restores a column by a frequent rule, where it stands.
#[inline(always)]
fn restore<M: WordSource>(
    column: usize,
    rule: &PlacedRule,
    cfa: u64,
    memory: &M,
    regs: &mut Regs,
) -> Followed
    requires { column < 17 }
    // Of the registers before, only its own number matters.
    ensures restored { result ≡ Frame → (bytes old : List ℕ)
        → slice_index old column ≡ slice_index regs.old.columns column
        → IsRestored column (rule_told (block_in bytes) rule.now) cfa old (M.regions memory.now)
        (Ok (slice_index regs.new.columns column)) }
    ensures fails { (address : ℕ) → result ≡ NoBytes address → (bytes old : List ℕ)
        → IsRestored column (rule_told (block_in bytes) rule.now) cfa old (M.regions memory.now)
        (Err (record { address = address })) }
    ensures others { (r : ℕ) → r ≢ column
        → slice_index regs.new.columns r ≡ slice_index regs.old.columns r }
    ensures count { length regs.new.columns ≡ 17 }
{
    match rule {
        PlacedRule::Unset if column == 7 => regs.columns[column] = cfa,
        PlacedRule::Unset => {}
        PlacedRule::Offset { by } => {
            let address = cfa.wrapping_add(*by);
            match memory.word(address) {
                Some(number) => regs.columns[column] = number,
                None => return Followed::NoBytes { address },
            }
        }
        _ => return Followed::Rare,
    }
    Followed::Frame
}

/// The rule of a column.
#[inline(always)]
fn rule_of(row: &PlacedRow, column: usize) -> &PlacedRule
    requires { column < 17 }
    ensures { result.now ≡ slice_index_or row.now.columns column Unset }
{
    &row.columns[column]
}

/// What columns are restored by: a row, the CFA that it tells, and the memory.
#[derive(Drop)]
struct Setting<'r, M> {
    row: &'r PlacedRow,
    cfa: u64,
    memory: &'r M,
}

/// So many columns one after another. By no loop: so each has branches of its own, and what one of
/// them does need not be guessed for all.
trait Columns {
    // How many they are.
    ghost count: { ℕ };

    /// Restores them from one on, and goes on behind them.
    fn restore<M: WordSource>(by: &Setting<'_, M>, at: &mut usize, regs: &mut Regs) -> Followed
        requires { at.old + count ≤ 17 }
        ensures restores { Restores at.old (at.old + count) by.now.row.now by.now.cfa
            (M.regions by.now.memory.now) regs.old.columns result regs.new.columns }
        ensures behind { result ≡ Frame → at.new ≡ at.old + count }
        ensures length { length regs.new.columns ≡ 17 };
}

/// A column.
struct OneColumn;

impl Columns for OneColumn {
    ghost count = { 1 };

    #[inline(always)]
    fn restore<M: WordSource>(by: &Setting<'_, M>, at: &mut usize, regs: &mut Regs) -> Followed {
        let column = *at;
        *at = column + 1;
        restore(column, rule_of(by.row, column), by.cfa, by.memory, regs)
    }
}

/// Twice as many columns.
struct Twice<C> {
    half: PhantomData<C>,
}

impl<C: Columns> Columns for Twice<C> {
    ghost count = { C.count + C.count };

    #[inline(always)]
    fn restore<M: WordSource>(by: &Setting<'_, M>, at: &mut usize, regs: &mut Regs) -> Followed {
        match C::restore(by, at, regs) {
            Followed::Frame => C::restore(by, at, regs),
            other => other,
        }
    }
}

type SixteenColumns = Twice<Twice<Twice<Twice<OneColumn>>>>;

/// Restores all columns by frequent rules, from the first one on.
#[inline(always)]
fn restore_all<M: WordSource>(by: &Setting<'_, M>, regs: &mut Regs) -> Followed
    ensures restores { Restores 0 17 by.now.row.now by.now.cfa (M.regions by.now.memory.now)
        regs.old.columns result regs.new.columns }
    ensures length { length regs.new.columns ≡ 17 }
{
    let mut at = 0;
    match SixteenColumns::restore(by, &mut at, regs) {
        Followed::Frame => OneColumn::restore(by, &mut at, regs),
        other => other,
    }
}

/// The number in a column; those above 16 have none.
#[inline(always)]
fn column_of(regs: &Regs, column: usize) -> u64
    ensures { result ≡ slice_index regs.now.columns column }
{
    match regs.columns.get(column) {
        Some(number) => *number,
        None => 0,
    }
}

/// The CFA of a row that leads to a frame, where its rule and that of the return address are
/// frequent ones.
#[inline(always)]
fn cfa_of(row: &PlacedRow, regs: &Regs) -> Option<u64>
    ensures leads { IfSome result (λ _. (bytes : List ℕ) → Leads (lent_row bytes row.now)) }
    ensures cfa { IfSome result (λ cfa. (bytes : List ℕ) (memory : List RegionData)
        → IsCfa (lent_row bytes row.now).cfa regs.now.columns memory (Ok cfa)) }
{
    let PlacedRule::Offset { .. } = rule_of(row, 16) else {
        return None;
    };
    match row.cfa {
        PlacedCfaRule::Offset { column, by } => {
            Some(column_of(regs, column as usize).wrapping_add(by))
        }
        PlacedCfaRule::Missing | PlacedCfaRule::Expression { .. } => None,
    }
}

/// The registers become those of the frame before, where the row has but frequent rules and the
/// memory all bytes. Else they stay.
#[inline(always)]
pub(crate) fn follow<M: WordSource>(row: &LentRow<'_>, memory: &M, regs: &mut Regs) -> Followed
    ensures { FollowsRow row.now (M.regions memory.now) regs.old result regs.new }
{
    let placed = row.placed();
    let Some(cfa) = cfa_of(placed, regs) else {
        return Followed::Rare;
    };
    let kept = *regs;
    let by = Setting {
        row: placed,
        cfa,
        memory,
    };
    match restore_all(&by, regs) {
        Followed::Frame => Followed::Frame,
        Followed::NoBytes { address } => {
            *regs = kept;
            Followed::NoBytes { address }
        }
        Followed::Rare => {
            *regs = kept;
            Followed::Rare
        }
    }
}
