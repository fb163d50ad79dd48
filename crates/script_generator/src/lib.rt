//! Scripts that are generated, and the summary of a journal.
//!
//! Above scripts and journals (`script_text`), below the engine; neither threads nor a registry
//! stand here. `generate` makes a script of four threads side by side, for any number of images up
//! to 500 a thread: two register and two load, each at addresses of its own, look up, unwind and
//! remove again. What it says stands in `specs/Generator`. Of a journal, `summary` keeps six
//! counts, which `print_summary` prints.
#![tactic(auto)]

mod counting;
mod events;
mod generating;
mod images;
mod stacks;
mod summing;

pub use counting::summary;
pub use generating::generate;
pub use summing::{Summary, print_summary};
