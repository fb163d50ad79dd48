//! The header of a section, `.eh_frame_hdr`, after the LSB: its sorted table, which every linked
//! program carries and every runtime searches in place of the section. This is a reader above
//! `frame_parse`. A header is read beside its section, which has to be the one that it points to,
//! and each entry has to name an FDE that the section has; a lookup then finds what the section
//! finds. What a header is stands in `specs/Headers`, by the grammar of parts of `eh_bytes`.
#![tactic(auto)]

mod fault;
mod fde_place;
mod fields;
mod header;
mod laws;
mod lookup;
mod search_table;
mod table;

pub use fault::HeaderFault;
pub use header::Header;
pub use laws::headers_have_one_answer;
pub use search_table::SearchTable;
