//! The flaw that counts.

ghost use Rattle.std.specs.Prelude.{◌≡◌, IfOk, MatchOption};
ghost use Rattle.receipt_check.specs.Flaws.{IsFlawless, IsFreeBefore, CountsFirst};

use crate::account::{Account, Departure, ReceiptFlaw};
use crate::answers::first_wrong;
use crate::firsts::{accepted_in, first_misplaced};
use crate::history::{first_misfit, history_in};
use crate::numbers::first_misnumbered;
use crate::turns::in_turn;
use reg_model::NoMemory;
use std::alloc::Global;

/// None where nothing is wrong with what is told, and else the flaw that counts, and its line.
pub fn first_flaw(alloc: Global, account: &Account) -> Result<Option<Departure>, NoMemory>
    ensures { IfOk result (λ found. MatchOption found (IsFlawless account.now)
        (λ d. CountsFirst account.now d.line d.flaw)) }
{
    if let Some(found) = flaw_of_numbers(alloc, account)? {
        return Ok(Some(found));
    }
    if let Some(found) = flaw_of_answers(alloc, account)? {
        return Ok(Some(found));
    }
    Ok(flaw_of_places(account))
}

fn departure(line: u64, flaw: ReceiptFlaw) -> Option<Departure>
    ensures { result ≡ Some (record { line = line; flaw = flaw }) }
{
    Some(Departure { line, flaw })
}

/// The flaws of numbers alone.
fn flaw_of_numbers(alloc: Global, account: &Account) -> Result<Option<Departure>, NoMemory>
    ensures { IfOk result (λ found. MatchOption found (IsFreeBefore account.now 4)
        (λ d. CountsFirst account.now d.line d.flaw)) }
{
    if let Some(line) = first_misnumbered(alloc, &account.told, account.updates)? {
        return Ok(departure(line, ReceiptFlaw::Number));
    }
    if accepted_in(&account.told) != account.updates as usize {
        return Ok(departure(account.last, ReceiptFlaw::Count));
    }
    Ok(None)
}

/// The flaws that the history shows. Where the numbers are the updates' own, there are as many.
fn flaw_of_answers(alloc: Global, account: &Account) -> Result<Option<Departure>, NoMemory>
    requires { IsFreeBefore account.now 4 }
    ensures { IfOk result (λ found. MatchOption found (IsFreeBefore account.now 6)
        (λ d. CountsFirst account.now d.line d.flaw)) }
{
    let history = history_in(alloc, &account.told, account.updates)?;
    let turns = in_turn(alloc, &account.told)?;
    if let Some(line) = first_misfit(alloc, account, &history, &turns)? {
        return Ok(departure(line, ReceiptFlaw::History));
    }
    if let Some(line) = first_wrong(alloc, account, &history, &turns)? {
        return Ok(departure(line, ReceiptFlaw::Answer));
    }
    Ok(None)
}

/// The flaws of where stamps and numbers stand.
fn flaw_of_places(account: &Account) -> Option<Departure>
    requires { IsFreeBefore account.now 6 }
    ensures { MatchOption result (IsFlawless account.now)
        (λ d. CountsFirst account.now d.line d.flaw) }
{
    let (order, round) = first_misplaced(&account.told);
    if let Some(line) = order {
        return departure(line, ReceiptFlaw::Order);
    }
    if let Some(line) = round {
        return departure(line, ReceiptFlaw::Round);
    }
    None
}
