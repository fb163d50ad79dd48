//! Tests of the tree, the loader's half, the registry and its caches, where they reach what no
//! library for C tells: locks that are taken, words, entries, notes. Nothing stands on it.
#![tactic(auto)]

#[cfg(test)]
mod cached_order;
#[cfg(test)]
mod callers;
#[cfg(test)]
mod copies;
#[cfg(test)]
mod leaves;
#[cfg(test)]
mod one_writer;
#[cfg(test)]
mod questions;
#[cfg(test)]
mod tries;
#[cfg(test)]
mod writers;
