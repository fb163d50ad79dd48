//! Unwind information for C: which FDE covers an address, while sections of `.eh_frame` come and
//! go.
//!
//! A library of sections has one writer, which registers them under keys, and any number of
//! readers, each behind a handle that C keeps. No call waits: a lookup is one try of each half, and
//! nobody but the writer takes locks.
#![tactic(auto)]

mod found;
mod handles;
mod keys;
mod kinds;
mod limits;
mod outcome;
mod ranges;
mod reach;
mod readers;
mod sections;
mod tables;
mod told;
mod writers;

pub use found::UnwindFound;
pub use handles::{FdeReaderHandle, FdeWriterHandle};
pub use keys::unwind_c_keys;
pub use limits::UnwindLimits;
pub use ranges::{UnwindRange, unwind_c_cover, unwind_c_order};
pub use readers::{unwind_c_find, unwind_c_reader, unwind_c_reader_again, unwind_c_reader_drop};
pub use sections::{unwind_c_deregister, unwind_c_move, unwind_c_register};
pub use tables::{UnwindEntry, unwind_c_place};
pub use told::UnwindTold;
pub use writers::{unwind_c_drop, unwind_c_due, unwind_c_left, unwind_c_new};
