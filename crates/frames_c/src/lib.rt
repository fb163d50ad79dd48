//! Frames for C and C++: sections of `.eh_frame` behind a handle that C keeps.
#![tactic(auto)]

mod batch;
mod call_sites;
mod claims;
mod find;
mod handles;
mod header;
mod lines;
mod modules;
mod reading;
mod record;
mod row;
mod row_lookup;
mod row_share;
mod row_tables;
mod share;
mod shares;
mod step;
mod table;
mod told_rows;
mod walks;

pub use batch::frames_c_rows;
pub use call_sites::{FramesVerdict, frames_c_verdict};
pub use claims::{FramesClaim, FramesRefused, frames_c_claim};
pub use find::{FramesFde, frames_c_find};
pub use handles::{MemoryHandle, ModulesHandle, RowTableHandle, SectionHandle};
pub use header::{FramesHeader, frames_c_read_with_header};
pub use lines::FramesLine;
pub use modules::{LoadedModules, ModuleRows};
pub use reading::{frames_c_count, frames_c_read, frames_c_read_sound};
pub use record::{frames_c_memory, frames_c_memory_free, frames_c_memory_push};
pub use row::FramesRow;
pub use row_lookup::{frames_c_row, frames_c_row_table_row};
pub use row_share::RowsOfSection;
pub use row_tables::frames_c_row_table;
pub use share::LoadedSection;
pub use shares::{
    frames_c_free, frames_c_modules_free, frames_c_modules_share, frames_c_row_table_free,
    frames_c_row_table_share, frames_c_share,
};
pub use step::{
    FramesFrame, frames_c_row_table_step, frames_c_row_table_step_asking,
    frames_c_row_table_step_lent, frames_c_step, frames_c_step_asking, frames_c_step_lent,
};
pub use table::{FramesEntry, frames_c_search, frames_c_table};
pub use walks::{frames_c_modules, frames_c_modules_add, frames_c_modules_add_rows, frames_c_walk};
