//! The loader's half of the registry over the shared words.
//!
//! A lookup takes no lock and stores nothing: it loads the clock, searches the fixed members and
//! the copy that was active then, and loads the clock again. Where the clock's upper half is the
//! same, no update of the loader came between, and what was read is the state at the second load.
//! A load or an unload takes the loader's lock, for which it waits, or which it tries once.
//!
//! The layer above word_rule, which has the single steps and what each makes of a caller's log.
//! It takes from node_store how a lock is got, and from segment_array where the members of a copy
//! stand.
#![tactic(auto)]

mod active;
mod calls;
mod copies;
mod fixed;
mod lookup;
mod other;
mod search;
mod update;
mod writing;

pub use calls::{load, load_by, unload, unload_by};
pub use lookup::try_object;
