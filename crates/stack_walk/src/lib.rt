//! Walks along a stack in one call: from a frame to its callers, over modules of code of which each
//! has a section. A walk takes no memory, and goes on where it ended for want of room.
#![tactic(auto)]

mod going_up;
pub mod laws;
mod list;
mod modules;
mod shown;
mod walking;

pub use going_up::take_step;
pub use list::{ModuleFault, Modules, SharedSource, StepSource};
pub use modules::{ModuleList, ModuleStep};
pub use shown::{ShownFrame, WalkEnd, WalkLine};
pub use walking::{Walked, walk};
