//! The way of an update down the tree, by sight or under locks.
//!
//! An update goes down without a lock, as a lookup does, to the lowest node that it may change, and
//! locks that one; or it begins at the root's lock. From there on it locks each node while it holds
//! its parent. What is done at the nodes where it arrives stands in the crates above.
//!
//! The layer above node_store, which reads and writes held nodes, btree_lookup, which has the way
//! down without a lock, and word_rule, which has the single steps.
#![tactic(auto)]

mod by_sight;
mod descent;

pub use by_sight::{ENTRIES_TO_SPARE, PAIRS_TO_SPARE, Request, hold_by_sight};
pub use descent::{Child, Held, at_root, child_for, content_of, let_go_of, take_child, take_node};
