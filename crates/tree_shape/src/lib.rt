//! The tree's nodes as plain values: how they are searched, cut, joined and edited.
//!
//! Above spans and members (`reg_model`) and below the shared words: no node is locked or stored
//! here. Each change takes nodes by reference and gives new ones; it takes no memory and never
//! refuses. `specs/NodeData` says what a contract sees of a node, `specs/Changes` what each change
//! makes of it; why a tree of such nodes finds what it holds, `tree_laws` says. The numbers stand
//! in `limits`.
#![tactic(auto)]

mod array_front;
mod edits;
mod find;
mod join;
pub mod limits;
mod node;
mod pair;
mod split;

pub use edits::{drop_pair, put_entry, put_pair, replace_entry, set_separator, take_entry};
pub use find::{first_overlap, inner_slot, leaf_slot};
pub use join::{even_pair, join_pair, move_fence, sink_root};
pub use limits::{ENTRIES, PAIRS};
pub use node::{Content, Node, NodeBounds};
pub use pair::Pair;
pub use split::{lift_root, split_inner, split_leaf};
