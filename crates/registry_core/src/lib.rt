//! The registry over the shared words: both halves under one clock.
//!
//! A `Registry` has the words, on which threads step side by side, each with a caller of its own. A
//! lookup asks the registered half, and where that misses the loader's, and takes no lock. What a
//! call makes of its caller is said by its receipts, and each of them holds in the one history that
//! all callers share (`specs/Calls`, `specs/Queries`). A caller splits off others, one for each
//! thread of a round, and joins them in order; then it is alone, and has each number of the history
//! once (`specs/Rounds`, `laws`). A reader looks up as a caller does; nobody waits for it, so it
//! may be made and dropped at any time (`readers`). How a call waits its caller says (`waiting`).
//!
//! The layer above btree_lookup, which has lookups of the registered half, btree_change, which has
//! its updates, array_publish, which has the loader's half, and word_rule, which has the words and
//! the callers.
#![tactic(auto)]

pub mod laws;
mod lookup;
mod readers;
mod registry;
mod rounds;
mod waiting;

pub use registry::Registry;
