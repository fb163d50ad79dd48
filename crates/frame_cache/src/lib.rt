//! A thread's last eight hits, in front of the registry.
//!
//! A cache is one caller's and asks one half. A lookup loads the clock; where that still has the
//! stamp of the cache, an entry that contains the address is the answer, with one load in all. Else
//! the registry is asked as without a cache, and its hit becomes the first entry. So an entry is
//! never stale: it was answered to this caller, and of the state at the stamp that the clock has.
//!
//! The layer above registry_core, which has the lookups of both halves, and word_rule, which has
//! the clock. It takes no memory and no lock.
#![tactic(auto)]

mod blocks;
mod cache;
mod entry;
pub mod laws;
mod order;
mod recent;
mod slots;

pub use cache::FrameCache;
