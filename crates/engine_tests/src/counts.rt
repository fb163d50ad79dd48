//! How often what was told to a gate.

use event_script::Answer;
use reg_model::{Found, Inserted, Loading, Place, Removed, Replaced};
use std::sync::atomic::{AtomicU64, Ordering};

/// Counts what passes.
#[derive(Drop)]
pub struct Counts {
    pub passes: AtomicU64,
    /// Of each number of an update, how often it was answered: a decimal digit for each, the first
    /// one's to the right.
    pub numbers: AtomicU64,
    pub hits: AtomicU64,
    pub misses: AtomicU64,
    /// The backtraces, and those of three frames.
    pub traces: AtomicU64,
    pub traces_of_three: AtomicU64,
}

impl Counts {
    pub fn new() -> Self {
        Counts {
            passes: AtomicU64::new(0),
            numbers: AtomicU64::new(0),
            hits: AtomicU64::new(0),
            misses: AtomicU64::new(0),
            traces: AtomicU64::new(0),
            traces_of_three: AtomicU64::new(0),
        }
    }

    fn see_number(&self, number: u32) {
        let mut digit: u64 = 1;
        for _ in 1..number.min(20) {
            digit = digit.wrapping_mul(10);
        }
        self.numbers.fetch_add(digit, Ordering::SeqCst);
    }

    fn see_place(&self, place: &Place) {
        let found = match (place.registered, place.loaded) {
            (Found::Hit { .. }, _) => &self.hits,
            (_, Some(Found::Hit { .. })) => &self.hits,
            _ => &self.misses,
        };
        found.fetch_add(1, Ordering::SeqCst);
    }

    fn see_answer(&self, answer: &Answer) {
        if let Some(number) = number_of(answer) {
            self.see_number(number);
        }
        match answer {
            Answer::Find { place, .. } => self.see_place(place),
            Answer::Unwind { trace, .. } => {
                self.traces.fetch_add(1, Ordering::SeqCst);
                if trace.frames.len() == 3 {
                    self.traces_of_three.fetch_add(1, Ordering::SeqCst);
                }
            }
            _ => {}
        }
    }

    /// Counts a pass, and what was answered.
    pub fn see(&self, answer: Option<&Answer>) {
        self.passes.fetch_add(1, Ordering::SeqCst);
        if let Some(answer) = answer {
            self.see_answer(answer);
        }
    }
}

/// The number of an update, where it was accepted.
fn number_of(answer: &Answer) -> Option<u32> {
    match answer {
        Answer::Register {
            answer: Inserted::Done { number },
            ..
        } => Some(*number),
        Answer::Replace {
            answer: Replaced::Done { number, .. },
            ..
        } => Some(*number),
        Answer::Load {
            answer: Loading::Done { number },
            ..
        } => Some(*number),
        Answer::Deregister {
            answer: Removed::Done { number, .. },
            ..
        }
        | Answer::Unload {
            answer: Removed::Done { number, .. },
            ..
        } => Some(*number),
        _ => None,
    }
}
