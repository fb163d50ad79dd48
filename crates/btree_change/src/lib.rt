//! Changes of the registered half over the shared words.
//!
//! An update goes down the tree to its leaf, and changes nodes on the way where it has to. At the
//! leaf it either tells that it is refused, or writes the leaf and commits: that one step makes it
//! part of the history. How locks are got, by waiting or by one try, is a parameter.
//!
//! The layer above tree_descent, which has the way down, and leaf_change, node_split, fence_move
//! and node_mend, which change what an update holds.
#![tactic(auto)]

mod beyond;
mod insertion;
mod path;
mod removal;
mod replacement;
mod root;
mod stand;
mod walk;

pub use insertion::{insert, insert_by, insert_waiting};
pub use removal::{remove, remove_by, remove_waiting};
pub use replacement::{replace, replace_by, replace_waiting};
