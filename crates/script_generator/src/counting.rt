//! The counts of a journal.

ghost use Rattle.std.specs.Prelude.{◌≡◌, ◌^◌, ◌<◌, length, is_some};
ghost use Rattle.std.specs.List.{sum_by};
ghost use Rattle.unwind_step.specs.Backtrace.{hit_of};
ghost use Rattle.script_generator.specs.Summaries.{counted_in, summary_of, IsCountable};

use crate::summing::Summary;
use reg_model::{Found, Place};
use script_text::{Answer, Journal};

/// What is counted of a journal.
#[derive(Clone, Copy, Debug, PartialEq, Eq)]
pub enum Counted {
    Events,
    /// The `find` events that found a member.
    Hits,
    /// Those that found none.
    Misses,
    /// The frame lines of backtraces.
    Frames,
}

/// The summary of a journal whose threads, events and frame lines, each over all rounds, are fewer
/// than 2^32.
pub fn summary(journal: &Journal) -> Summary
    requires { IsCountable journal.now.rounds }
    ensures { result ≡ summary_of journal.now }
{
    let rounds = journal.rounds.as_slice();
    Summary {
        threads: threads_in(rounds),
        events: count_in(rounds, Counted::Events),
        updates: journal.updates,
        hits: count_in(rounds, Counted::Hits),
        misses: count_in(rounds, Counted::Misses),
        frames: count_in(rounds, Counted::Frames),
    }
}

/// The threads of all rounds.
fn threads_in(rounds: &[Vec<Vec<Answer>>]) -> u32
    requires { sum_by (λ round. length round.items) rounds.now < 2 ^ 32 }
    ensures { result ≡ sum_by (λ round. length round.items) rounds.now }
{
    let mut count = 0;
    for round in rounds {
        count += round.len() as u32;
    }
    count
}

/// How much of what is counted all rounds have.
fn count_in(rounds: &[Vec<Vec<Answer>>], what: Counted) -> u32
    requires { sum_by (λ round. sum_by (λ thread. sum_by (counted_in what) thread.items)
        round.items) rounds.now < 2 ^ 32 }
    ensures { result ≡ sum_by (λ round. sum_by (λ thread. sum_by (counted_in what) thread.items)
        round.items) rounds.now }
{
    let mut count = 0;
    for round in rounds {
        count += count_in_round(round, what);
    }
    count
}

/// How much of it the threads of a round have.
fn count_in_round(threads: &[Vec<Answer>], what: Counted) -> u32
    requires { sum_by (λ thread. sum_by (counted_in what) thread.items) threads.now < 2 ^ 32 }
    ensures { result ≡ sum_by (λ thread. sum_by (counted_in what) thread.items) threads.now }
{
    let mut count = 0;
    for thread in threads {
        count += count_in_thread(thread, what);
    }
    count
}

/// How much of it a thread has.
fn count_in_thread(answers: &[Answer], what: Counted) -> u32
    requires { sum_by (counted_in what) answers.now < 2 ^ 32 }
    ensures { result ≡ sum_by (counted_in what) answers.now }
{
    let mut count = 0;
    for answer in answers {
        count += count_in_answer(answer, what);
    }
    count
}

/// How much of it an answer has.
fn count_in_answer(answer: &Answer, what: Counted) -> u32
    requires { counted_in what answer.now < 2 ^ 32 }
    ensures { result ≡ counted_in what answer.now }
{
    match what {
        Counted::Events => 1,
        Counted::Hits => match answer {
            Answer::Find { place, .. } if is_hit(place) => 1,
            _ => 0,
        },
        Counted::Misses => match answer {
            Answer::Find { place, .. } if !is_hit(place) => 1,
            _ => 0,
        },
        Counted::Frames => match answer {
            Answer::Unwind { trace, .. } => trace.frames.len() as u32,
            _ => 0,
        },
    }
}

/// Whether a member was found, registered or loaded.
fn is_hit(place: &Place) -> bool
    ensures { result ≡ is_some (hit_of place.now) }
{
    match place.registered {
        Found::Hit { .. } => true,
        Found::Miss { .. } => match place.loaded {
            Some(Found::Hit { .. }) => true,
            _ => false,
        },
    }
}
