//! The rows of a section, made once: for those who look up a section many times, as a profiler
//! does. Above `frame_rows`, which goes through the instructions of an FDE for each row, this crate
//! goes through all of them once, and keeps of each row where it begins and its number among those
//! that differ, of which there are few. A lookup then finds the FDE as its section does, and the
//! row by quarters among the FDE's own. What a table has is stated in `specs/Tables`.
#![tactic(auto)]

mod cie_rows;
mod course;
mod distinct_rows;
mod fault;
mod following;
mod instructions;
mod kept_states;
mod lent_row;
mod made_rows;
mod row_words;
mod same_rows;
mod search;
mod source;
mod states;
mod table;
mod transitions;

pub use fault::TableFault;
pub use lent_row::LentRow;
pub use source::SectionRows;
pub use table::{FoundRow, RowTable};
