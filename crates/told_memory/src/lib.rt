//! Memory of which a part is lent, and words are told one by one: so a step can ask for the word
//! that it lacks, and begin anew with it.
#![tactic(auto)]

pub mod laws;
mod told;

pub use told::{ToldMemory, ToldWord};
