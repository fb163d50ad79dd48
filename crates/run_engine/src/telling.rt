//! Tells the whole journal of a script by what was kept of it.

ghost use Rattle.std.specs.Prelude.{◌≡◌, IfOk, map};
ghost use Rattle.std.specs.List.{AllZip};
ghost use Rattle.run_engine.specs.Kept.{IsKeptPrintable, told, thread_told, round_told};
ghost use Rattle.run_engine.specs.Kept.{rounds_told, journal_told};

use crate::kept::{KeptAnswer, KeptJournal, KeptRound, KeptThread, tell_short};
use event_script::{Answer, Event, Journal, Round, Script, Thread};
use reg_model::{NoMemory, Span};
use std::alloc::Global;

/// The answer to an event, by what was kept of it.
fn tell(images: &[Span], event: Event, kept: KeptAnswer) -> Answer
    ensures { result ≡ told images.now event kept }
{
    match kept {
        KeptAnswer::Whole { answer } => Box::into_inner(answer),
        short => tell_short(images, event, &short),
    }
}

/// The answers of a thread.
fn tell_thread(
    alloc: Global,
    images: &[Span],
    events: &[Event],
    thread: KeptThread,
) -> Result<Vec<Answer>, NoMemory>
    requires { AllZip (IsKeptPrintable images.now) events.now thread }
    ensures { IfOk result (λ answers. answers.items ≡ thread_told images.now events.now thread) }
{
    let mut answers = Vec::with_capacity(alloc, events.len())?;
    for kept in thread.answers {
        let told = tell(images, events[answers.len()], kept);
        answers.push(told)?;
    }
    Ok(answers)
}

/// The answers of a round, by thread.
fn tell_round(
    alloc: Global,
    images: &[Span],
    threads: &[Thread],
    round: KeptRound,
) -> Result<Vec<Vec<Answer>>, NoMemory>
    requires { AllZip (AllZip (IsKeptPrintable images.now)) threads.now round }
    ensures { IfOk result (λ answers. map (λ thread. thread.items) answers.items
        ≡ round_told images.now threads.now round) }
{
    let mut answers = Vec::new(alloc);
    for kept in round.threads {
        let thread = &threads[answers.len()];
        let told = tell_thread(alloc, images, &thread.events, kept)?;
        answers.push(told)?;
    }
    Ok(answers)
}

/// The answers of all rounds.
fn tell_rounds(
    alloc: Global,
    images: &[Span],
    rounds: &[Round],
    kept: Vec<KeptRound>,
) -> Result<Vec<Vec<Vec<Answer>>>, NoMemory>
    requires { AllZip (AllZip (AllZip (IsKeptPrintable images.now))) rounds.now kept.items }
    ensures { IfOk result
        (λ answers. map (λ round. map (λ thread. thread.items) round.items) answers.items
        ≡ rounds_told images.now rounds.now kept.items) }
{
    let mut answers = Vec::new(alloc);
    for kept in kept {
        let round = &rounds[answers.len()];
        let told = tell_round(alloc, images, &round.threads, kept)?;
        answers.push(told)?;
    }
    Ok(answers)
}

/// The journal of a script.
pub fn tell_journal(alloc: Global, script: &Script, kept: KeptJournal) -> Result<Journal, NoMemory>
    requires { AllZip (AllZip (AllZip (IsKeptPrintable script.now.images))) script.now.rounds
        kept.rounds }
    ensures { IfOk result (λ journal. journal ≡ journal_told script.now kept) }
{
    let KeptJournal { rounds, updates } = kept;
    let rounds = tell_rounds(alloc, &script.images, &script.rounds, rounds)?;
    Ok(Journal { rounds, updates })
}
