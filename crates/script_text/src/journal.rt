//! What came of a script.

use reg_model::{Inserted, Loading, Place, Removed, Replaced};
use std::marker::Model;
use unwind_step::Trace;

/// An event with its answer.
#[derive(Debug, Drop)]
pub enum Answer {
    Register { image: u32, answer: Inserted },
    Deregister { base: u64, answer: Removed },
    Replace { image: u32, answer: Replaced },
    Load { image: u32, answer: Loading },
    Unload { base: u64, answer: Removed },
    Find { pc: u64, place: Place },
    Unwind { snapshot: u32, trace: Trace },
}

/// The answers by round, thread and event, and the number of updates that were accepted.
#[derive(Drop)]
pub struct Journal {
    pub rounds: Vec<Vec<Vec<Answer>>>,
    pub updates: u32,
}

impl Model for Journal {
    ghost use Rattle.std.specs.Prelude.{map};
    ghost use Rattle.script_text.specs.JournalData.{JournalData};

    ghost Value = { JournalData };

    ghost view = { λ j. record {
      rounds = map (λ round. map (λ thread. thread.items) round.items) j.rounds.items;
      updates = j.updates;
    } };
}
