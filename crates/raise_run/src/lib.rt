//! Raises over recorded stacks, from bytes to bytes.
//!
//! Above scripts (`event_script`) and raises (`raise_phases`), below the program `raise_main`.
//! `raise_run` takes a source to its end, reads the script, raises an exception over one of its
//! snapshots among its fixed images, and writes what became of it. What it promises is in its
//! contract: where it answers Done, the text is that of a raise that unfolds.
#![tactic(auto)]

mod print;
mod raising;
mod running;
mod status;
mod words;

pub use print::print_raised;
pub use running::raise_run;
pub use status::RaiseStatus;
