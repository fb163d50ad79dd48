//! Receipts in the order of the states in which they were given.

ghost use Rattle.std.specs.Prelude.{◌≡◌, IfOk};
ghost use Rattle.reg_model.specs.Receipt.{made_before};
ghost use Rattle.receipt_check.specs.Sweep.{AreInTurn, AreTurns};

use crate::account::Told;
use crate::receipts::{moment_of, update_in};
use reg_model::{NoMemory, Receipt};
use std::alloc::Global;

/// A receipt, and how many updates were made before its answer.
#[derive(Clone, Copy)]
pub struct Turn<'a> {
    pub before: u32,
    pub row: &'a Told,
}

/// All receipts, each after those whose answers were given after fewer updates.
pub fn in_turn<'a>(alloc: Global, told: &'a [Told]) -> Result<Vec<Turn<'a>>, NoMemory>
    ensures { IfOk result (λ turns. AreInTurn told.now turns.items) }
{
    let mut turns = turns_of(alloc, told)?;
    turns.sort_unstable_by_key(|turn| turn.before);
    Ok(turns)
}

/// All receipts, in the order in which they are told.
fn turns_of<'a>(alloc: Global, told: &'a [Told]) -> Result<Vec<Turn<'a>>, NoMemory>
    ensures { IfOk result (λ turns. AreTurns told.now turns.items) }
{
    let mut turns = Vec::with_capacity(alloc, told.len())?;
    for row in told {
        let before = before(&row.receipt);
        turns.push(Turn { before, row })?;
    }
    Ok(turns)
}

/// How many updates were made before the answer.
fn before(receipt: &Receipt) -> u32
    ensures { result ≡ made_before receipt.now }
{
    let moment = moment_of(receipt);
    match update_in(receipt) {
        None => moment,
        Some(_) => moment.saturating_sub(1),
    }
}
