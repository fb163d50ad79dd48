//! Runs a script from bytes to bytes.
//!
//! Above the scripts (`event_script`) and the registry (`registry_core`), below the program. `run`
//! takes a source to its end, reads the script, plays its rounds against the registry, and writes
//! the journal; or it plays the script that is generated, and writes a summary. What it promises is
//! in its contract: where it answers Done, the text is that of a lawful journal of the script.
//! Sources and sinks are traits, so that the promise speaks of bytes and holds for every device.
#![tactic(auto)]

mod gate;
mod kept;
mod nodes;
mod rounds;
mod running;
mod script_taker;
mod scripts;
mod setting;
mod shared;
mod status;
mod telling;
mod threads;
mod turns;
mod writing;

pub use gate::{Gate, NoGate};
pub use run_ports::{
    BufferedSink, Failed, MemorySink, MemorySource, Sink, SinkFault, Source, SureSink, SureSource,
};
pub use running::run;
pub use script_generator::{Summary, generate, summary};
pub use scripts::run_script;
pub use shared::SharedFinder;
pub use status::Status;
