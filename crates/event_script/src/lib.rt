//! The reader of scripts.
//!
//! Above the texts of scripts and of journals (`script_text`), whose public names it hands on,
//! below the engine. A script says which images there are and what each thread does with them;
//! `read` takes its bytes apart, and accepts exactly the bytes that spell one. A journal is what
//! came of a script: an answer for each event, and the number of updates; `print_journal` gives its
//! one text. What a journal has to be, `specs/Lawful` of `script_text` says; that the engine's are
//! so is proved above.
#![tactic(auto)]

pub mod laws;
mod reader;

pub use reader::{ScriptFault, ScriptReader, read};
pub use script_text::limits::{FIRST_VERSION, MOST_LOADS};
pub use script_text::{
    Answer, Event, EventNumber, Journal, LineEnd, Reason, Round, Script, Snapshot, Thread,
    decimal_in, hex_in, line_count, member_of, members_of, place_of, print_answer, print_fault,
    print_journal, print_script, print_updates, put_end, put_event, put_event_line, put_frame,
    spell_event_line, spell_registered, spell_registration, spell_removal,
};
