//! The first answer that doesn't hold in the history.

ghost use Rattle.std.specs.Prelude.{◌≡◌, IfOk};
ghost use Rattle.receipt_check.specs.Flaws.{told_history, HoldsAsTold};
ghost use Rattle.receipt_check.specs.Search.{IsSought};
ghost use Rattle.receipt_check.specs.Sweep.{AreInTurn};

use crate::account::Account;
use crate::firsts::lower;
use crate::present::Present;
use crate::turns::Turn;
use reg_model::{NoMemory, Update};
use std::alloc::Global;

/// The first line with an answer that doesn't hold.
pub fn first_wrong(
    alloc: Global,
    account: &Account,
    history: &[Update],
    turns: &[Turn<'_>],
) -> Result<Option<u64>, NoMemory>
    requires history { history.now ≡ told_history account.now }
    requires turns { AreInTurn account.now.told turns.now }
    ensures { IfOk result (IsSought (HoldsAsTold account.now) account.now.told) }
{
    let mut present = Present::opening(alloc, &account.fixed, account.loads)?;
    let mut first = None;
    for turn in turns {
        present.go_on(history, turn.before)?;
        first = lower(
            first,
            turn.row.line,
            present.holds(history, account.nodes, turn.row),
        );
    }
    Ok(first)
}
