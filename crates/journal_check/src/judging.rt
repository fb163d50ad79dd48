//! The judge of journals.

ghost use Rattle.std.specs.Prelude.{◌≡◌, map, IfOk, OnOk, MatchOption};
ghost use Rattle.receipt_check.specs.Flaws.{IsFlawless, CountsFirst};
ghost use Rattle.journal_check.specs.Telling.{account_of, tell_rounds};

use crate::teller::{Bounds, Teller};
use crate::updates::done_with;
use receipt_check::{Account, Departure, first_flaw};
use reg_model::{NoMemory, Span};
use script_text::{Answer, Journal, Script, members_of};
use std::alloc::Global;

/// None where nothing is wrong with the journal but for its backtraces, and else the flaw that
/// counts, and its line.
pub fn judge(
    alloc: Global,
    script: &Script,
    journal: &Journal,
) -> Result<Option<Departure>, NoMemory>
    ensures { IfOk result (λ found. MatchOption found
        (IsFlawless (account_of script.now journal.now))
        (λ d. CountsFirst (account_of script.now journal.now) d.line d.flaw)) }
{
    let account = account_in(alloc, script, journal)?;
    first_flaw(alloc, &account)
}

/// What a journal of the script tells.
pub fn account_in(alloc: Global, script: &Script, journal: &Journal) -> Result<Account, NoMemory>
    ensures { IfOk result (λ account. account ≡ account_of script.now journal.now) }
{
    let fixed = members_of(alloc, &script.images, &script.fixed)?;
    let mut teller = Teller::new(alloc);
    tell_rounds(&mut teller, &script.images, &journal.rounds)?;
    Ok(Account {
        told: teller.told,
        updates: journal.updates,
        last: teller.line,
        fixed,
        loads: script.loads,
        nodes: script.nodes,
    })
}

/// Tells the lines of all rounds.
fn tell_rounds(
    teller: &mut Teller,
    images: &[Span],
    rounds: &[Vec<Vec<Answer>>],
) -> Result<(), NoMemory>
    ensures { OnOk result (teller.new ≡ tell_rounds images.now 1 0 teller.old
        (map (λ round. map (λ thread. thread.items) round.items) rounds.now)) }
{
    let mut done = 0;
    let mut callers = 1u64;
    for round in rounds {
        let after = done_with(done, round)?;
        callers = match callers.checked_add(round.len() as u64) {
            Some(callers) => callers,
            None => return Err(NoMemory),
        };
        let bounds = Bounds {
            before: done,
            after,
            callers,
        };
        teller.tell_round(images, &bounds, round)?;
        done = after;
    }
    Ok(())
}
