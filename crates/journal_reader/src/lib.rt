//! The reader of journals: from the bytes of a printed journal to the one journal that they tell.
//!
//! Above the text of journals (`script_text`), below the checker (`journal_check`). A text doesn't
//! print the span of an image, and of an overlap it prints a base that may be wrong; which journal
//! is meant, `specs/Told` says. `read_journal` answers with it, or with the first line up to which
//! the text begins none.
#![tactic(auto)]

mod answers;
mod heads;
pub mod laws;
mod lines;
mod reader;
#[tactic(auto, unfolding(crate::specs::FirstNumbers::decimal_first, crate::specs::FirstNumbers::hex_first))]
mod words;

pub use lines::next_line;
pub use reader::{FormFault, read_journal};
