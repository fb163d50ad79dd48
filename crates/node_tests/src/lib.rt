//! Tests of nodes as words: what they spell, the free list, and nodes beside other threads. Nothing
//! stands on it.
#![tactic(auto)]

#[cfg(test)]
mod free_nodes;
#[cfg(test)]
mod node_words;
#[cfg(test)]
mod outlines;
#[cfg(test)]
mod whole_nodes;
