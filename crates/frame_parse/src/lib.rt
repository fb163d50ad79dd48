//! The records of `.eh_frame` and their instructions, after the LSB and DWARF 5, and the first
//! refusal of bytes that are none. Above the cursor of `eh_bytes` this crate knows which field
//! stands where. What a section is stands in `specs/`: the grammar of parts (`Part`), the fields
//! (`Fields`), instructions (`Programs`), records (`Records`) and whole sections (`Sections`), each
//! as relations between bytes and what they spell. A section is read once, and then lends its FDEs
//! without copying and without memory.
#![tactic(auto)]

mod cie_lookup;
mod cover_pieces;
mod fault;
mod fde;
mod fde_lookup;
mod instructions;
mod laws;
mod placed_program;
mod program;
mod program_state;
mod record_reading;
mod records;
mod section;

pub use cie_lookup::cie_after;
pub use fault::{FrameFault, RecordFault};
pub use fde::Fde;
pub use instructions::{
    Context, Instruction, InstructionWith, PlacedInstruction, PlacedReadRule, PlacedStep,
    ProgramKind, RawInstruction, ReadRule, ReadRuleWith, Step, StepWith, lent_expr,
};
pub use laws::{
    initial_instructions_are_the_cies, records_are_kept, records_stand, steps_are_ordered,
};
pub use placed_program::PlacedProgram;
pub use program::Program;
pub use program_state::{ProgramState, Remembered};
pub use record_reading::{record_length, whole_record};
pub use records::{Augmentation, CieRecord, Entry, Extent, FdeEntry, four_bytes, pointer, range};
pub use section::{Section, is_end, one_answer, section_is_answered};
