//! Tests of the model, of the tree's nodes and the loader's segments as pure values, and of
//! `c_handle`. Nothing stands on it.
#![tactic(auto)]

#[cfg(test)]
mod boxes;
#[cfg(test)]
mod plain_lists;
#[cfg(test)]
mod plain_tree;
#[cfg(test)]
mod segments;
