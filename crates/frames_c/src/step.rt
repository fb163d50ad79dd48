//! One frame of a stack from another.

ghost use Rattle.std.specs.Prelude.{◌≡◌, [], ◌∷◌, None};
ghost use Rattle.c_handle.specs.Handles.{LeadsNowhere, LeadsSomewhere};
ghost use Rattle.frame_expr.specs.Regions.{word_at};
ghost use Rattle.told_memory.specs.Telling.{told_regions};
ghost use Rattle.frames_c.specs.FrameSteps.{frame_look, outcome_told, frame_after, AnswersStep};
ghost use Rattle.frames_c.specs.AskedSteps.{ServesMemory, told_in};
ghost use Rattle.frames_c.specs.Held.{held_list, held_loaded};

use crate::handles::{MemoryHandle, RowTableHandle, SectionHandle};
use crate::row_share::RowsOfSection;
use crate::share::LoadedSection;
use frame_expr::{Lent, Regs, WordSource};
use std::alloc::Global;
use told_memory::laws::{asks_anew, told_words_serve};
use told_memory::{ToldMemory, ToldWord};
use unwind_step::{RowSource, Stepped, step_at};

/// The registers of a frame, in the columns of x86-64.
#[repr(C)]
#[derive(Clone, Copy)]
pub struct FramesFrame {
    pub columns: [u64; 17],
    /// Column 16 is the address of the frame's instruction, and not one to which a call returns.
    pub at_instruction: u64,
    /// The address at which eight bytes were wanted.
    pub missing: u64,
}

impl FramesFrame {
    /// Where the frame is looked up: a call may be the last instruction of its function.
    fn look(&self) -> u64
        ensures { result ≡ frame_look self.now }
    {
        let pc = self.columns[16];
        if self.at_instruction == 0 {
            pc.wrapping_sub(1)
        } else {
            pc
        }
    }

    /// What comes of it: 0 where it became the frame before.
    fn take(&mut self, outcome: Stepped, signal: bool) -> u64
        ensures outcome { result ≡ outcome_told outcome }
        ensures frame { self.new ≡ frame_after signal outcome self.old }
    {
        match outcome {
            Stepped::Frame { regs } => {
                let columns = regs.columns;
                self.columns = columns;
                self.at_instruction = u64::from(signal);
                0
            }
            Stepped::NoRow => 2,
            Stepped::Undefined => 3,
            Stepped::NoBytes { address } => {
                self.missing = address;
                4
            }
        }
    }
}

/// Makes of a frame the one before it, by what tells the rows of a section.
pub(crate) fn step_by<S: RowSource, M: WordSource>(
    section: &LoadedSection,
    source: &S,
    memory: &M,
    frame: &mut FramesFrame,
) -> u64
    requires { S.section source.now ≡ section.now.section }
    ensures { AnswersStep section.now (M.regions memory.now) frame.old result frame.new }
{
    let look = frame.look();
    if section.claim_at(look).is_some() {
        return 5;
    }
    let regs = Regs {
        columns: frame.columns,
    };
    match step_at(source, look, &regs, memory) {
        None => 1,
        Some(found) => frame.take(found.outcome, found.signal),
    }
}

/// The same by a section.
fn step_by_section<M: WordSource>(
    section: &LoadedSection,
    memory: &M,
    frame: &mut FramesFrame,
) -> u64
    ensures { AnswersStep section.now (M.regions memory.now) frame.old result frame.new }
{
    step_by(section, section, memory, frame)
}

/// The same by a row table.
fn step_by_rows<M: WordSource>(rows: &RowsOfSection, memory: &M, frame: &mut FramesFrame) -> u64
    ensures { AnswersStep rows.now (M.regions memory.now) frame.old result frame.new }
{
    step_by(rows.loaded(), &rows.rows(), memory, frame)
}

/// Makes of a frame the one before it, by the section and the recorded memory. What came of it: 0
/// the frame, 1 no FDE covers the address, 2 no row leads to a frame, 3 it was the outermost, 4
/// bytes were wanted that weren't recorded, 5 a refused record answers. The registers change where
/// it is 0 alone.
#[unsafe(no_mangle)]
pub extern "C" fn frames_c_step(
    alloc: Global,
    section: SectionHandle,
    memory: MemoryHandle,
    frame: &mut FramesFrame,
    back: &mut SectionHandle,
    memory_back: &mut MemoryHandle,
) -> u64
    requires held { LeadsSomewhere section.held }
    requires back { LeadsNowhere back.old.held }
    requires recorded { LeadsSomewhere memory.held }
    requires memory_back { LeadsNowhere memory_back.old.held }
    ensures back { back.new.held ≡ section.held }
    ensures memory_back { memory_back.new.held ≡ memory.held }
    ensures step { AnswersStep (held_loaded section.held) (held_list memory.held)
        frame.old result frame.new }
{
    let share = section.open(alloc);
    let recorded = memory.open(alloc);
    let outcome = step_by_section(share.get(), &*recorded, frame);
    *memory_back = MemoryHandle::of(recorded);
    *back = SectionHandle::of(share);
    outcome
}

/// Makes of a frame the one before it, as `frames_c_step` does, by the bytes of a stack that are
/// lent from an address on. Nothing is copied.
#[unsafe(no_mangle)]
pub extern "C" fn frames_c_step_lent(
    alloc: Global,
    section: SectionHandle,
    address: u64,
    stack: &[u8],
    frame: &mut FramesFrame,
    back: &mut SectionHandle,
) -> u64
    requires held { LeadsSomewhere section.held }
    requires back { LeadsNowhere back.old.held }
    ensures back { back.new.held ≡ section.held }
    ensures step { AnswersStep (held_loaded section.held)
        (record { address = address; bytes = stack.now } ∷ []) frame.old result frame.new }
{
    let share = section.open(alloc);
    let lent = Lent {
        address,
        bytes: stack,
    };
    let outcome = step_by_section(share.get(), &lent, frame);
    *back = SectionHandle::of(share);
    outcome
}

/// Makes of a frame the one before it, as `frames_c_step` by the section does.
#[unsafe(no_mangle)]
pub extern "C" fn frames_c_row_table_step(
    alloc: Global,
    table: RowTableHandle,
    memory: MemoryHandle,
    frame: &mut FramesFrame,
    back: &mut RowTableHandle,
    memory_back: &mut MemoryHandle,
) -> u64
    requires held { LeadsSomewhere table.held }
    requires back { LeadsNowhere back.old.held }
    requires recorded { LeadsSomewhere memory.held }
    requires memory_back { LeadsNowhere memory_back.old.held }
    ensures back { back.new.held ≡ table.held }
    ensures memory_back { memory_back.new.held ≡ memory.held }
    ensures step { AnswersStep (held_loaded table.held) (held_list memory.held)
        frame.old result frame.new }
{
    let share = table.open(alloc);
    let recorded = memory.open(alloc);
    let outcome = step_by_rows(share.get(), &*recorded, frame);
    *memory_back = MemoryHandle::of(recorded);
    *back = RowTableHandle::of(share);
    outcome
}

/// Makes of a frame the one before it, as `frames_c_step_lent` by the section does.
#[unsafe(no_mangle)]
pub extern "C" fn frames_c_row_table_step_lent(
    alloc: Global,
    table: RowTableHandle,
    address: u64,
    stack: &[u8],
    frame: &mut FramesFrame,
    back: &mut RowTableHandle,
) -> u64
    requires held { LeadsSomewhere table.held }
    requires back { LeadsNowhere back.old.held }
    ensures back { back.new.held ≡ table.held }
    ensures step { AnswersStep (held_loaded table.held)
        (record { address = address; bytes = stack.now } ∷ []) frame.old result frame.new }
{
    let share = table.open(alloc);
    let lent = Lent {
        address,
        bytes: stack,
    };
    let outcome = step_by_rows(share.get(), &lent, frame);
    *back = RowTableHandle::of(share);
    outcome
}

/// Makes of a frame the one before it by what was told of a memory, or asks for a word.
fn step_told<S: RowSource>(
    section: &LoadedSection,
    source: &S,
    told: &ToldMemory<'_>,
    frame: &mut FramesFrame,
) -> u64
    requires { S.section source.now ≡ section.now.section }
    ensures step { AnswersStep section.now (told_in told.now) frame.old result frame.new }
    ensures serves { ServesMemory section.now (told_in told.now) frame.old result frame.new }
    ensures anew { result ≡ 4 → word_at frame.new.missing (told_in told.now) ≡ None }
{
    told_words_serve();
    asks_anew();
    step_by(section, source, told, frame)
}

/// The same by a section.
fn step_section_told(section: &LoadedSection, told: &ToldMemory<'_>, frame: &mut FramesFrame) -> u64
    ensures step { AnswersStep section.now (told_in told.now) frame.old result frame.new }
    ensures serves { ServesMemory section.now (told_in told.now) frame.old result frame.new }
    ensures anew { result ≡ 4 → word_at frame.new.missing (told_in told.now) ≡ None }
{
    step_told(section, section, told, frame)
}

/// The same by a row table.
fn step_rows_told(rows: &RowsOfSection, told: &ToldMemory<'_>, frame: &mut FramesFrame) -> u64
    ensures step { AnswersStep rows.now (told_in told.now) frame.old result frame.new }
    ensures serves { ServesMemory rows.now (told_in told.now) frame.old result frame.new }
    ensures anew { result ≡ 4 → word_at frame.new.missing (told_in told.now) ≡ None }
{
    step_told(rows.loaded(), &rows.rows(), told, frame)
}

/// Makes of a frame the one before it, as `frames_c_step` does, by what was told of a memory: bytes
/// that are lent from an address on, and words. Where it is 4, it asks for the word at `missing`,
/// which was not told. Whoever tells words of one memory until it isn't 4, or the memory has no
/// such word, has the step over that memory.
#[unsafe(no_mangle)]
pub extern "C" fn frames_c_step_asking(
    alloc: Global,
    section: SectionHandle,
    address: u64,
    stack: &[u8],
    words: &[ToldWord],
    frame: &mut FramesFrame,
    back: &mut SectionHandle,
) -> u64
    requires held { LeadsSomewhere section.held }
    requires back { LeadsNowhere back.old.held }
    ensures back { back.new.held ≡ section.held }
    ensures step { AnswersStep (held_loaded section.held)
        (told_regions address stack.now words.now) frame.old result frame.new }
    ensures serves { ServesMemory (held_loaded section.held)
        (told_regions address stack.now words.now) frame.old result frame.new }
    ensures anew { result ≡ 4
        → word_at frame.new.missing (told_regions address stack.now words.now) ≡ None }
{
    let share = section.open(alloc);
    let lent = Lent {
        address,
        bytes: stack,
    };
    let told = ToldMemory { lent, words };
    let outcome = step_section_told(share.get(), &told, frame);
    *back = SectionHandle::of(share);
    outcome
}

/// Makes of a frame the one before it, as `frames_c_step_asking` by the section does.
#[unsafe(no_mangle)]
pub extern "C" fn frames_c_row_table_step_asking(
    alloc: Global,
    table: RowTableHandle,
    address: u64,
    stack: &[u8],
    words: &[ToldWord],
    frame: &mut FramesFrame,
    back: &mut RowTableHandle,
) -> u64
    requires held { LeadsSomewhere table.held }
    requires back { LeadsNowhere back.old.held }
    ensures back { back.new.held ≡ table.held }
    ensures step { AnswersStep (held_loaded table.held)
        (told_regions address stack.now words.now) frame.old result frame.new }
    ensures serves { ServesMemory (held_loaded table.held)
        (told_regions address stack.now words.now) frame.old result frame.new }
    ensures anew { result ≡ 4
        → word_at frame.new.missing (told_regions address stack.now words.now) ≡ None }
{
    let share = table.open(alloc);
    let lent = Lent {
        address,
        bytes: stack,
    };
    let told = ToldMemory { lent, words };
    let outcome = step_rows_told(share.get(), &told, frame);
    *back = RowTableHandle::of(share);
    outcome
}
