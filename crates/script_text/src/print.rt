//! Texts: of scripts, of journals, and of refusals.

pub mod fault;
pub mod journal;
pub mod line;
mod numbers;
pub mod script;
pub mod usual;
