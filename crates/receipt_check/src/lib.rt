//! Whether receipts that were told of a registry hold: the first of six flaws, and its line.
//!
//! Above the model (`reg_model`), below the judge of journals. Receipts come as one list, each with
//! its line, the updates before its round and with it, and the greatest stamp or number before it.
//! `first_flaw` answers None exactly where nothing is wrong with them, and else the flaw that
//! counts and its line. It makes the accepted updates again by their numbers, one after another,
//! and holds each answer against the state of its moment.
#![tactic(auto)]

mod account;
mod answers;
mod firsts;
mod history;
mod judge;
mod last_moments;
mod least_lines;
mod lists;
mod member_map;
mod members;
mod numbers;
mod present;
mod receipts;
mod rows;
mod turns;

pub use account::{Account, Departure, ReceiptFlaw, Told};
pub use judge::first_flaw;
pub use receipts::moment_of;
