//! One frame of a stack from another, and whole backtraces.
//!
//! Above the rows of `frame_rows` and the recorded memory of `frame_expr`: a row says where the
//! registers of the frame before were saved, and `step` fetches them. `trace` goes on so from the
//! registers of a snapshot, and asks a `Finder` at each frame which image its address belongs to; a
//! registry over plain lists is one (`PlainFinder`), the shared one of the layers above another.
//! What the next frame is stands in `specs/NextFrame`, which traces unfold in `specs/Backtrace`.
#![tactic(auto)]

mod backtrace;
mod finder;
mod frame;
pub mod laws;
mod lookup;
mod next;
mod plain;
mod source;
mod unwind;
mod walk;

pub use backtrace::{End, FrameLine, Trace};
pub use finder::Finder;
pub use frame::{AddressKind, Frame};
pub use lookup::{fde_of, hit_of};
pub use next::{FoundStep, Stepped, step, step_at};
pub use plain::PlainFinder;
pub use source::{FdeRow, RowSource};
pub use unwind::trace;
pub use walk::Walk;
