//! The members of a section's FDEs, each with a payload that leads back to its FDE.
//!
//! A registry has a span and a payload of 32 bits for each member. A member is made for each FDE,
//! and its payload is the distance from the code to the FDE, counted from a number that is chosen
//! once for a registry: so what a lookup finds tells the FDE's address with nothing looked up
//! besides. Above frame_parse, which reads sections, and reg_model, which has members; no words are
//! shared here.
#![tactic(auto)]

pub mod laws;
mod members;

pub use members::{MembersFault, fde_address, section_members};
