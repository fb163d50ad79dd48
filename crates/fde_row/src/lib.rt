//! The row of one FDE, from the bytes of its record and of its CIE's alone: no other record of the
//! section is read, nothing is copied, and no memory is taken. What the records say is
//! `frame_parse`'s grammar, and a row is `frame_rows`'. What is read so in a section is the
//! section's FDE (`laws`).
#![tactic(auto)]

mod laws;
mod lent_fde;
mod pointed;
mod reading;

pub use laws::{bytes_behind_change_nothing, fdes_of_sections_are_read};
pub use lent_fde::LentFde;
pub use pointed::Pointed;
