//! Whether a text is that of a lawful journal: the first of eight flaws, and its line.
//!
//! Above scripts and journals (`script_text`) and the flaws of receipts (`receipt_check`). `judge`
//! tells a journal as one list of receipts, each with its line and its round, and has the flaw that
//! counts found in it. That nothing is wrong there exactly where the journal is lawful, given its
//! answers' kinds and its backtraces, are laws beside it.
#![tactic(auto)]

mod checking;
mod judging;
pub mod laws;
mod teller;
mod traces;
mod updates;
mod verdict;

pub use checking::check;
pub use judging::{account_in, judge};
pub use verdict::{Flaw, Verdict};
