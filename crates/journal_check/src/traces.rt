//! The first backtrace of a journal that leaves the rules of frames.

ghost use Rattle.std.specs.Prelude.{◌≡◌, ◌+◌, [], ◌∷◌, All, IfOk, OnErr, MatchOption, map, Err};
ghost use Rattle.script_text.specs.Lawful.{IsUnfolded};
ghost use Rattle.journal_check.specs.TextFlaws.{IsTraceFlaw, answers_of, flattened};
ghost use Rattle.journal_check.specs.Passing.{IsPassed};
ghost use Rattle.journal_check.specs.declared.traces.Stopped.TheVariants as stopped;

use reg_model::NoMemory;
use script_text::{Answer, Journal, Script, line_count};
use trace_check::departure;

/// Why answers were not all gone through.
#[derive(Clone, Copy, Debug, PartialEq, Eq)]
pub enum Stopped {
    /// A backtrace leaves the rules at this line.
    Departs { line: u64 },
    /// There isn't the memory for a journal of 2^64 lines.
    NoMemory,
}

/// The number of a line that stands so many lines after this one.
fn line_after(line: u64, count: usize) -> Result<u64, Stopped>
    ensures ok { IfOk result (λ after. after ≡ line + count) }
    ensures err { OnErr result (result ≡ Err stopped.NoMemory) }
{
    match line.checked_add(count as u64) {
        Some(after) => Ok(after),
        None => Err(Stopped::NoMemory),
    }
}

/// The line after those of an answer that begins at this one.
fn pass_answer(script: &Script, line: u64, answer: &Answer) -> Result<u64, Stopped>
    ensures { IsPassed script.now (answer.now ∷ []) line result }
{
    if let Answer::Unwind { snapshot, trace } = answer {
        let Some(recorded) = script.snapshots.get(*snapshot as usize) else {
            return Err(Stopped::Departs { line });
        };
        let sections = script.sections.as_slice();
        if let Some(index) = departure(sections, &recorded.regs, &recorded.memory, trace) {
            let first = line_after(line, 1)?;
            return Err(Stopped::Departs {
                line: line_after(first, index)?,
            });
        }
    }
    line_after(line, line_count(answer))
}

/// The line after those of a thread.
fn pass_thread(script: &Script, line: u64, answers: &[Answer]) -> Result<u64, Stopped>
    ensures { IsPassed script.now answers.now line result }
{
    let mut next = line;
    for answer in answers {
        next = pass_answer(script, next, answer)?;
    }
    Ok(next)
}

/// The line after those of a round.
fn pass_round(script: &Script, line: u64, round: &[Vec<Answer>]) -> Result<u64, Stopped>
    ensures { IsPassed script.now (flattened (map (λ thread. thread.items) round.now)) line result }
{
    let mut next = line;
    for thread in round {
        next = pass_thread(script, next, thread)?;
    }
    Ok(next)
}

/// The line after those of all rounds.
fn pass_rounds(script: &Script, rounds: &[Vec<Vec<Answer>>]) -> Result<u64, Stopped>
    ensures { IsPassed script.now
        (answers_of (map (λ round. map (λ thread. thread.items) round.items) rounds.now)) 1 result }
{
    let mut next = 1;
    for round in rounds {
        next = pass_round(script, next, round)?;
    }
    Ok(next)
}

/// The line at which the first backtrace that doesn't unfold leaves the rules of frames. None where
/// all unfold.
pub fn first_departure(script: &Script, journal: &Journal) -> Result<Option<u64>, NoMemory>
    ensures { IfOk result (λ found. MatchOption found
        (All (IsUnfolded script.now.sections script.now.snapshots) (answers_of journal.now.rounds))
        (λ line. IsTraceFlaw script.now journal.now line)) }
{
    match pass_rounds(script, &journal.rounds) {
        Ok(_) => Ok(None),
        Err(Stopped::Departs { line }) => Ok(Some(line)),
        Err(Stopped::NoMemory) => Err(NoMemory),
    }
}
