//! Scripts and journals as data, and the one text of each.
//!
//! Above the model (`reg_model`) and backtraces (`unwind_step`), below the reader of scripts
//! (`event_script`), the generator and the reader of journals. A script says which images there are
//! and what each thread does with them; a journal is what came of it: an answer for each event, and
//! the number of updates. `specs/Spelling` says which bytes spell a script, `specs/Text` what text
//! a journal has, `specs/Lawful` what a journal has to be.
#![tactic(auto)]

mod fields;
mod journal;
mod kind;
pub mod limits;
mod members;
mod print;
mod reason;
mod script;
mod statement;

pub use fields::{decimal_in, hex_in, place_of};
pub use journal::{Answer, Journal};
pub use kind::Kind;
pub use members::{member_of, members_of};
pub use print::fault::print_fault;
pub use print::journal::{
    EventNumber, line_count, print_answer, print_journal, print_updates, put_end, put_event_line,
    put_frame, spell_event_line,
};
pub use print::line::LineEnd;
pub use print::script::{print_script, put_event};
pub use print::usual::{spell_registered, spell_registration, spell_removal};
pub use reason::Reason;
pub use script::{Event, Round, Script, Snapshot, Thread};
pub use statement::{ImageFields, MemoryFields, SnapshotFields, Statement};
