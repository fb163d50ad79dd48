//! Two neighbouring children made into one on a removal's way, or given even shares; and the root
//! that takes the place of its only two.
//!
//! The layer above tree_descent. Nodes that leave the tree go back to node_store's free list.
#![tactic(auto)]

mod mending;
mod sibling;

pub use mending::{join, share, sink};
pub use sibling::{Siblings, is_leaf, is_small, pair_count, take_sibling};
