//! Nodes as values, read from their words and written into them.
//!
//! The layer between single steps and whole operations. From word_rule it takes the steps and what
//! each makes of a caller's log. A node is read without a lock by a version that is found again
//! (`peek`, `check`); while it is held, whole (`read_held`) or by the few words that are wanted
//! (`outline_of`). How locks are got (version_locks) and nodes taken off the free list (free_list)
//! is handed on.
#![tactic(auto)]

mod entries;
mod held;
mod outline;
mod reading;
mod shaping;
mod sight;
mod writing;

pub use entries::{Placed, begun_in, cut_in_place, entry_of, put_in_place};
pub use free_list::{give_free, take_free};
pub use held::{read_held, write_held};
pub use outline::{Outline, high_of, outline_of, pair_of, slot_of};
pub use reading::{CONTENT_WORDS, node_of};
pub use sight::{Sight, check, peek};
pub use version_locks::{Busy, Locking, Once, Pausing, Trying, Waiting, lock, unlock, unlock_same};
pub use writing::Store;
