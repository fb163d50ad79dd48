//! The split of a full node on an insertion's way: of a child under its parent, or of the root,
//! which is lifted with it.
//!
//! The layer above tree_descent. Free nodes come from node_store, and tree_shape has what a split
//! makes of the tree.
#![tactic(auto)]

mod root_split;
mod split;

pub use root_split::{FullRoot, TwoNodes, lift, room_for_root};
pub use split::{Coupled, FullChild, Room, room_for, split_child};
