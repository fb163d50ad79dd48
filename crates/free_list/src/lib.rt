//! The list of free nodes over the shared words: one is taken off locked, or given back.
//!
//! The layer above version_locks, which has the ways to get a lock, and word_rule, which has the
//! single steps and what each makes of a caller's log.
#![tactic(auto)]

mod free;

pub use free::{give_free, take_free};
