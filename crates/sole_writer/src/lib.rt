//! A registry that one caller alone updates, by updates that are tried once.
//!
//! Whoever is the only one to update a registry has seen all that was accepted, so the shared words
//! answer it as plain lists would: each call of a `Writer` is one step of reg_model's registry for
//! one thread. Others look up beside it, by readers that are made of its registry. No call waits:
//! one that finds a lock taken, which only somebody else can have, stops the writer for good.
//!
//! Above registry_core, which has the updates and the readers, and word_rule, which makes sure of
//! what a caller has seen.
#![tactic(auto)]

mod writer;

pub use writer::Writer;
