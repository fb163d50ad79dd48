//! Why a tree of nodes finds what it holds, and stays one when some of its nodes are changed.
//!
//! Above the nodes as plain values (`tree_shape`) and below the shared words. No code runs here:
//! each law is the contract of a function that does nothing. `specs/Trees` and `specs/Lawful` say
//! when contents by node number are a lawful tree, `specs/LocalChange` what a writer has to show of
//! the nodes that it holds so that the whole tree stays lawful, `specs/Steps` what becomes of a
//! tree by each change of `tree_shape`. The laws stand in `laws`.
#![tactic(auto)]

pub mod laws;
