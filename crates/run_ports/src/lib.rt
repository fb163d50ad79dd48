//! How programs take their input and write their output.
//!
//! Below the engine and the other programs; it stands on std alone. Sources and sinks are traits,
//! so that promises speak of bytes and hold for every device: in memory, where faults can be
//! listed, and standard input and output. How a program ends is stated once (`specs/Endings`), over
//! what it has to write with each of its statuses.
#![tactic(auto)]

mod buffered;
mod concluding;
mod memory;
mod ports;
mod reading;
mod standard;
mod starting;
mod status;
mod writing;

pub use buffered::BufferedSink;
pub use concluding::{conclude, conclude_made};
pub use memory::{MemorySink, MemorySource, SureSink, SureSource};
pub use ports::{Failed, Sink, SinkFault, Source};
pub use reading::{SCRIPT_LIMIT, TakeFault, Taken, Taker, hand_up_to, take_up_to};
pub use standard::{StandardInput, StandardOutput};
pub use starting::start;
pub use status::{Ending, ProgramStatus};
pub use writing::{write_lines, write_piece};
