//! What the libraries for C share of sections: the section that bytes are, read once, and why there
//! is none, in numbers.
//!
//! No crate can stand on a static library's, so what two of them say of a section stands here.
//! Above frame_parse, which reads sections; nothing of it is exported by itself.
#![tactic(auto)]

mod load;
mod refusal;

pub use load::read_section;
pub use refusal::{FramesRefusal, LoadFault};
