//! Tests of the text crates and of the engine, over their public items alone.
//!
//! Above `run_engine`, and nothing stands on it. What a script and its journal look like, the built
//! program shows by `cases/`. Here stands what wants ample memory, a device or a gate: each call is
//! made once, devices fail at every read and write, and gates see what they are told.
#![tactic(auto)]

#[cfg(test)]
mod byte_by_byte;
#[cfg(test)]
mod churn;
#[cfg(test)]
mod counts;
#[cfg(test)]
mod failing_devices;
#[cfg(test)]
mod gates;
#[cfg(test)]
mod generated;
#[cfg(test)]
mod held_back;
#[cfg(test)]
mod playing;
#[cfg(test)]
mod printing;
#[cfg(test)]
mod raising;
#[cfg(test)]
mod scripts;
#[cfg(test)]
mod shared_finder;
#[cfg(test)]
mod slow_devices;
#[cfg(test)]
mod told_journals;
#[cfg(test)]
mod tree_changes;
