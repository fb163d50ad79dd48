//! The segments in which a copy of the loader's members stands, as pure values.
//!
//! A copy holds its members in ascending order in segments of sixteen, of which all but the highest
//! are full. So the member of an index stands where a division says. One more member goes into its
//! segment, and each full segment hands its greatest on to the next higher one; where one is taken,
//! each segment is filled again by the least of the next higher one. The crate takes spans and
//! members from `reg_model`; the shared table above spells segments in its words.
#![tactic(auto)]

mod division;
mod edits;
mod find;
mod segment;

pub use division::{segments_for, spot};
pub use edits::{put_into, take_from};
pub use find::{segment_below, segment_hit};
pub use segment::{Segment, Spot};
