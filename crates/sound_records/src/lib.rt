//! A section as its items: the records that are sound, and those that are refused, each with its
//! place, its fault and the addresses that it claims. It is read so that a bad record costs itself
//! alone, and a bad CIE those that lead to it.
#![tactic(auto)]

ghost use Rattle.std.specs.Prelude.{ℕ, List};
ghost use Rattle.sound_records.specs.Laws.{AgreesWithRead};

mod answer;
mod refused;
mod section;

pub use answer::FdeAnswer;
pub use refused::{Claim, RefusedRecord};
pub use section::SoundSection;

/// Where no record is refused the items are those of the section that `Section::read` gives; else
/// the first refusal is its answer.
pub fn agrees_with_read()
    ensures { (address : ℕ) (bytes : List ℕ) → AgreesWithRead address bytes }
{}
