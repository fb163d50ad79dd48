//! The registry's model: spans, members, updates, answers and receipts, and a registry over plain
//! lists.
//!
//! The lowest layer. Its definitions say what every registry of this repository answers:
//! `specs/State` has the three lists, `specs/History` the updates and the states that they lead to,
//! `specs/Receipt` what an answer means in a history. `PlainRegistry` computes them slowly and
//! plainly; the shared registry above is proved against the same words. It takes nothing from below
//! but std.
#![tactic(auto)]

mod answer;
pub mod laws;
mod plain;
mod span;

pub use answer::{
    Again, Found, Half, Inserted, Loading, NoMemory, Place, Receipt, Removed, Replaced, Update,
};
pub use plain::PlainRegistry;
pub use span::{Member, Span};
