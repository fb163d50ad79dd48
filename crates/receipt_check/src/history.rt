//! The history that the numbers tell, and the first update that doesn't fit.

ghost use Rattle.std.specs.Prelude.{◌≡◌, ℕ, ◌+◌, ◌<◌, ◌++◌, IfOk, OnOk, MatchOption};
ghost use Rattle.std.specs.Prelude.{All, None, length, slice_index_or};
ghost use Rattle.std.specs.Option.{option_or, option_to_list};
ghost use Rattle.reg_model.specs.Numbers.{history_of};
ghost use Rattle.receipt_check.specs.Flaws.{told_receipts, told_history, HasOwnNumber, UpdateFits};
ghost use Rattle.receipt_check.specs.Flaws.{IsFirstMisfit};
ghost use Rattle.receipt_check.specs.Sweep.{AreInTurn, AreByNumber, update_at};

use crate::account::{Account, Told};
use crate::present::Present;
use crate::receipts::{moment_of, update_in};
use crate::turns::Turn;
use reg_model::{NoMemory, Receipt, Update};
use std::alloc::Global;

/// The first updates by their numbers. Room is made for each of so many.
pub fn history_in(alloc: Global, told: &[Told], updates: u32) -> Result<Vec<Update>, NoMemory>
    ensures { IfOk result (λ history. history.items ≡ history_of (told_receipts told.now) updates) }
{
    let places = places_of(alloc, told, updates as usize)?;
    let mut history = Vec::with_capacity(alloc, places.len())?;
    for place in &places {
        add(&mut history, place)?;
    }
    Ok(history)
}

/// Adds an update, where there is one.
fn add(history: &mut Vec<Update>, place: &Option<Update>) -> Result<(), NoMemory>
    ensures { OnOk result (history.new.items ≡ history.old.items ++ option_to_list place.now) }
{
    if let Some(update) = place {
        history.push(*update)?;
    }
    Ok(())
}

/// For each number up to so many the first accepted update that has it.
fn places_of(alloc: Global, told: &[Told], updates: usize) -> Result<Vec<Option<Update>>, NoMemory>
    ensures { IfOk result (λ places. AreByNumber (told_receipts told.now) updates places.items) }
{
    let mut places = vec![in alloc; None; updates]?;
    for row in told {
        put(&mut places, &row.receipt);
    }
    Ok(places)
}

/// Puts the update that was accepted in the place of its number, if no other stands there.
fn put(places: &mut Vec<Option<Update>>, receipt: &Receipt)
    ensures length { length places.new.items ≡ length places.old.items }
    ensures each { (k : ℕ) → k < length places.old.items → slice_index_or places.new.items k None
        ≡ option_or (slice_index_or places.old.items k None) (update_at (k + 1) receipt.now) }
{
    let number = moment_of(receipt) as usize;
    if let Some(update) = update_in(receipt)
        && 0 < number
        && number <= places.len()
        && places[number - 1].is_none()
    {
        places[number - 1] = Some(update);
    }
}

/// The line of the first update that doesn't fit, or that removes another member than it names, or
/// replaces another payload.
pub fn first_misfit(
    alloc: Global,
    account: &Account,
    history: &[Update],
    turns: &[Turn<'_>],
) -> Result<Option<u64>, NoMemory>
    requires numbers { All (HasOwnNumber account.now.told account.now.updates) account.now.told }
    requires history { history.now ≡ told_history account.now }
    requires turns { AreInTurn account.now.told turns.now }
    ensures { IfOk result (λ found. MatchOption found
        ((k : ℕ) → k < account.now.updates → UpdateFits account.now k)
        (IsFirstMisfit account.now)) }
{
    let mut present = Present::opening(alloc, &account.fixed, account.loads)?;
    for turn in turns {
        present.go_on(history, turn.before)?;
        if !present.fits(&turn.row.receipt) {
            return Ok(Some(turn.row.line));
        }
    }
    Ok(None)
}
