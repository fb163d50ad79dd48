//! A writer of FDE sections under keys.
//!
//! A section is given with a key and a note of the program's own. Each of its FDEs has a member in
//! the registry: in the half of registered members, or, where it overlaps one that stands there, in
//! the other half, which lookups ask next. So of sections over the same addresses all stand, and
//! giving one up changes nothing of another. A section is registered whole or not at all: where a
//! member finds no room, those that were put are taken back.
//!
//! Above sole_writer, whose calls are each one step of a registry over plain lists, and
//! fde_members, which makes the members of a section.
#![tactic(auto)]

mod book;
mod entering;
pub mod laws;
mod moving;
mod outcome;
mod place;
mod places;
mod putting;
mod seen;
mod stack;
mod standing;
mod writer;

pub use outcome::{Deregistration, Moving, Numbers, Registration};
pub use writer::FdeWriter;
