//! The first line with a receipt that isn't so.

ghost use Rattle.std.specs.Prelude.{◌≡◌, ℕ, Option};
ghost use Rattle.receipt_check.specs.Flaws.{ComesInOrder, ComesInRound, accepted_count};
ghost use Rattle.receipt_check.specs.Search.{IsSought, lower_line};

use crate::account::Told;
use crate::receipts::update_in;
use crate::rows::{comes_in_order, comes_in_round};

/// The lower of the first line so far and this one, unless this one's receipt is so.
pub fn lower(first: Option<u64>, line: u64, is_so: bool) -> Option<u64>
    ensures { result ≡ lower_line first line is_so }
{
    if is_so {
        return first;
    }
    match first {
        None => Some(line),
        Some(best) => Some(best.min(line)),
    }
}

/// The first line with a stamp or number below those before it on its thread, and the first with
/// one that isn't one of its round.
pub fn first_misplaced(told: &[Told]) -> (Option<u64>, Option<u64>)
    ensures order { IsSought ComesInOrder told.now result.0 }
    ensures round { IsSought ComesInRound told.now result.1 }
{
    let mut order = None;
    let mut round = None;
    for row in told {
        order = lower(order, row.line, comes_in_order(row));
        round = lower(round, row.line, comes_in_round(row));
    }
    (order, round)
}

/// How many updates were accepted.
pub fn accepted_in(told: &[Told]) -> usize
    ensures { result ≡ accepted_count told.now }
{
    told.iter()
        .filter(|row| update_in(&row.receipt).is_some())
        .count()
}
