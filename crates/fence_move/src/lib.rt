//! The fence between two neighbouring leaves, raised for a span that ends in the second one.
//!
//! The spines beside it, from the node above both leaves down, are locked level by level, written,
//! and settled by one release.
//!
//! The layer above tree_descent.
#![tactic(auto)]

mod fence;
mod spines;

pub use fence::{Ancestor, let_go_of_next, next_leaf, raise_fence, refused_next};
