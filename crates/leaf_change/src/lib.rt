//! The change of one held leaf: an entry put into it, taken out or replaced.
//!
//! Each either tells that the update is refused, or writes the leaf and commits: that one step
//! makes the update part of the history.
//!
//! The layer above tree_descent, on which an update gets to its leaf.
#![tactic(auto)]

mod leaf;
mod leaf_removal;
mod replacing;

pub use leaf::{put_in_held, refused, say_full};
pub use leaf_removal::{not_found, take_in_leaf};
pub use replacing::{entry_with, none_with, replace_in_leaf};
