//! Locks over the shared words, taken and let go by the single steps of word_rule.
//!
//! From word_rule it takes the steps and what each makes of a caller's log; from crossbeam_utils
//! the pause between two tries. A lock is tried a little, and then slept on; or, by a caller that
//! gives up, tried once.
#![tactic(auto)]

mod locking;
mod locks;

pub use locking::{Busy, Locking, Once, Pausing, Trying, Waiting};
pub use locks::{lock, unlock, unlock_same};
