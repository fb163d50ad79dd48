//! The words of the command line.
//!
//! Below the engine, and apart from scripts. `command_of` says which command the words after the
//! program's name are, and for all other words that they are none's. `clap` takes the words apart;
//! it takes more spellings than the program does (`gen +1`, `gen -- 1`), so the words have to be
//! exactly those of what it read.
#![tactic(auto)]

mod count;
mod grammar;
mod taking;

pub use taking::{Command, command_of};
