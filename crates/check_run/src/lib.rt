//! Checks a printed journal against its script, from bytes to bytes.
//!
//! Above scripts (`event_script`) and the checker of texts (`journal_check`), below the program
//! `check_main`. `check_run` takes a source to its end, reads the script that it begins with, and
//! writes whether what follows is the text of a lawful journal of it, or the first line that is
//! not. What it promises is in its contract.
#![tactic(auto)]

mod parts;
mod print;
mod running;
mod status;

pub use running::{CHECK_LIMIT, check_run};
pub use status::CheckStatus;
