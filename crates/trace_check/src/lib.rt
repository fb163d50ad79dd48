//! Where a backtrace that was told leaves the rules of frames.
//!
//! Above the steps of `unwind_step`, below whoever judges journals. A trace that was told has a
//! line for each frame, with the place at which the frame's address was found, and one that tells
//! why there are no more. `departure` goes through them with the recorded registers and memory,
//! asks of each line whether it shows the frame that called the one before, and answers the first
//! line that is wrong. It goes on from each place that was told, takes no memory and waits for
//! nothing. What a departure is stands in `specs/Departures`.
#![tactic(auto)]

mod checking;
mod laws;
mod next_line;

pub use checking::departure;
pub use laws::{traces_depart_once, traces_have_words};
