//! Tests of where the receipt that was told stands.

ghost use Rattle.std.specs.Prelude.{◌↔◌, IsTrue};
ghost use Rattle.receipt_check.specs.Flaws.{ComesInOrder, ComesInRound};

use crate::account::Told;
use crate::receipts::{moment_of, update_in};

/// Whether a stamp isn't below those before it on its thread, and a number is above them.
pub fn comes_in_order(row: &Told) -> bool
    ensures { IsTrue result ↔ ComesInOrder row.now }
{
    let moment = moment_of(&row.receipt) as u64;
    match update_in(&row.receipt) {
        None => row.seen <= moment,
        Some(_) => row.seen < moment,
    }
}

/// Whether a stamp or number lies between the updates before its round and those with it.
pub fn comes_in_round(row: &Told) -> bool
    ensures { IsTrue result ↔ ComesInRound row.now }
{
    let moment = moment_of(&row.receipt) as u64;
    row.before <= moment && moment <= row.after
}
