//! How many updates a round accepted.

ghost use Rattle.std.specs.Prelude.{◌≡◌, ◌+◌, map, sum_by, count_by, IfOk};
ghost use Rattle.journal_check.specs.Telling.{is_update};

use reg_model::{Inserted, Loading, NoMemory, Removed, Replaced};
use script_text::Answer;

/// Whether the answer accepts an update.
fn is_update(answer: &Answer) -> bool
    ensures { result ≡ is_update answer.now }
{
    match answer {
        Answer::Register { answer, .. } => matches!(answer, Inserted::Done { .. }),
        Answer::Deregister { answer, .. } => matches!(answer, Removed::Done { .. }),
        Answer::Replace { answer, .. } => matches!(answer, Replaced::Done { .. }),
        Answer::Load { answer, .. } => matches!(answer, Loading::Done { .. }),
        Answer::Unload { answer, .. } => matches!(answer, Removed::Done { .. }),
        Answer::Find { .. } => false,
        Answer::Unwind { .. } => false,
    }
}

/// How many updates a thread's answers accept.
fn updates_in(answers: &[Answer]) -> usize
    ensures { result ≡ count_by is_update answers.now }
{
    answers.iter().filter(|answer| is_update(answer)).count()
}

/// How many updates were made with a round, before which so many were. There isn't the memory for
/// more than 2^64 answers.
pub fn done_with(done: u64, round: &[Vec<Answer>]) -> Result<u64, NoMemory>
    ensures { IfOk result (λ after.
        after ≡ done + sum_by (count_by is_update) (map (λ thread. thread.items) round.now)) }
{
    let mut after = done;
    for thread in round {
        match after.checked_add(updates_in(thread) as u64) {
            Some(more) => after = more,
            None => return Err(NoMemory),
        }
    }
    Ok(after)
}
