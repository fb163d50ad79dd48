//! Modules are listed, and stacks walked over them.

ghost use Rattle.std.specs.Prelude.{◌≡◌, ◌<◌, ◌≤◌, [], ◌∷◌, true, false, Some, length, take, drop};
ghost use Rattle.c_handle.specs.Handles.{LeadsNowhere, LeadsSomewhere};
ghost use Rattle.frames_c.specs.Held.{held_list, held_loaded};
ghost use Rattle.frames_c.specs.StackLines.{AnswersModule, AnswersWalk, frame_given};
ghost use Rattle.frames_c.specs.StackLines.{module_loaded, module_with, missing_after};
ghost use Rattle.frames_c.specs.StackLines.{walk_end_told};

use crate::handles::{ModulesHandle, RowTableHandle, SectionHandle};
use crate::lines::{FramesLine, told_address};
use crate::modules::{LoadedModules, ModuleRows};
use crate::step::FramesFrame;
use frame_expr::{Lent, Regs};
use stack_walk::{ModuleFault, WalkEnd, walk};
use std::alloc::Global;
use unwind_step::{AddressKind, Frame};

/// A list without any module; false where memory runs out.
#[unsafe(no_mangle)]
pub extern "C" fn frames_c_modules(alloc: Global, out: &mut ModulesHandle) -> bool
    requires { LeadsNowhere out.old.held }
    ensures modules { result ≡ true → out.new.held ≡ Some [] }
    ensures nothing { result ≡ false → LeadsNowhere out.new.held }
{
    match Box::new(alloc, LoadedModules::new(alloc)) {
        Ok(modules) => {
            *out = ModulesHandle::of(modules);
            true
        }
        Err(_) => false,
    }
}

/// What came of a module: 0 that it is added.
fn add(modules: &mut LoadedModules, first: u64, size: u64, rows: ModuleRows) -> u64
    ensures { AnswersModule modules.old (module_with first size (module_loaded rows)) result
        modules.new }
{
    match modules.add(first, size, rows) {
        Ok(()) => 0,
        Err(ModuleFault::NoMemory) => 1,
        Err(ModuleFault::NotAbove) => 2,
    }
}

/// Adds code of a size from an address on, whose frames a section tells. The share goes with the
/// modules, also where the module isn't added. What came of it: 0 it is added, 1 memory ran out, 2
/// it isn't above the module before.
#[unsafe(no_mangle)]
pub extern "C" fn frames_c_modules_add(
    alloc: Global,
    modules: ModulesHandle,
    first: u64,
    size: u64,
    section: SectionHandle,
    back: &mut ModulesHandle,
) -> u64
    requires modules { LeadsSomewhere modules.held }
    requires back { LeadsNowhere back.old.held }
    requires held { LeadsSomewhere section.held }
    ensures module { AnswersModule (held_list modules.held)
        (module_with first size (held_loaded section.held)) result (held_list back.new.held) }
    ensures back { LeadsSomewhere back.new.held }
{
    let mut list = modules.open(alloc);
    let share = Box::into_inner(section.open(alloc));
    let added = add(&mut list, first, size, ModuleRows::Section { share });
    *back = ModulesHandle::of(list);
    added
}

/// The same with the row table of the section.
#[unsafe(no_mangle)]
pub extern "C" fn frames_c_modules_add_rows(
    alloc: Global,
    modules: ModulesHandle,
    first: u64,
    size: u64,
    table: RowTableHandle,
    back: &mut ModulesHandle,
) -> u64
    requires modules { LeadsSomewhere modules.held }
    requires back { LeadsNowhere back.old.held }
    requires held { LeadsSomewhere table.held }
    ensures module { AnswersModule (held_list modules.held)
        (module_with first size (held_loaded table.held)) result (held_list back.new.held) }
    ensures back { LeadsSomewhere back.new.held }
{
    let mut list = modules.open(alloc);
    let share = Box::into_inner(table.open(alloc));
    let added = add(&mut list, first, size, ModuleRows::Table { share });
    *back = ModulesHandle::of(list);
    added
}

/// The frame that C's registers are.
fn frame_given(frame: &FramesFrame) -> Frame
    ensures { result ≡ frame_given frame.now }
{
    Frame {
        regs: Regs {
            columns: frame.columns,
        },
        address: if frame.at_instruction == 0 {
            AddressKind::Return
        } else {
            AddressKind::Instruction
        },
    }
}

/// Why a walk has no more lines, as C is told.
fn told_end(end: WalkEnd, frame: &mut FramesFrame) -> u64
    ensures end { result ≡ walk_end_told end }
    ensures missing { frame.new ≡ record frame.old {
      missing = missing_after end frame.old.missing;
    } }
{
    match end {
        WalkEnd::Room => 0,
        WalkEnd::NoFde => 1,
        WalkEnd::NoRow => 2,
        WalkEnd::Undefined => 3,
        WalkEnd::NoBytes { address } => {
            frame.missing = address;
            4
        }
        WalkEnd::NoModule => 5,
        WalkEnd::Refused => 6,
    }
}

/// Walks over modules, and leaves the frame where the walk stands.
fn walk_over(
    modules: &LoadedModules,
    lent: &Lent<'_>,
    frame: &mut FramesFrame,
    lines: &mut [FramesLine],
) -> (u64, usize)
    requires { 0 < length lines.old }
    ensures walk { AnswersWalk modules.now
        (record { address = lent.now.address; bytes = lent.now.bytes.now } ∷ [])
        frame.old (take result.1 lines.new) result.0 frame.new }
    ensures count { result.1 ≤ length lines.old }
    ensures others { drop result.1 lines.new ≡ drop result.1 lines.old }
{
    let mut stands = frame_given(frame);
    let walked = walk(modules.list(), lent, &mut stands, lines);
    let columns = stands.regs.columns;
    frame.columns = columns;
    frame.at_instruction = told_address(stands.address);
    (told_end(walked.end, frame), walked.count)
}

/// Walks from a frame to its callers over modules, by the bytes of a stack that are lent from an
/// address on: a line for each frame from this one on, as long as there is room, which is for one
/// at least. Why there are no more: 0 another frame has no room, 1 no FDE covers the address, 2 no
/// row leads to a frame, 3 it was the outermost, 4 bytes were wanted that weren't lent, 5 no module
/// has the address, 6 a refused record answers there. The frame is afterwards the last one shown,
/// and where it is 0 the next.
#[unsafe(no_mangle)]
pub extern "C" fn frames_c_walk(
    alloc: Global,
    modules: ModulesHandle,
    address: u64,
    stack: &[u8],
    frame: &mut FramesFrame,
    lines: &mut [FramesLine],
    count: &mut usize,
    back: &mut ModulesHandle,
) -> u64
    requires modules { LeadsSomewhere modules.held }
    requires back { LeadsNowhere back.old.held }
    requires room { 0 < length lines.old }
    ensures back { back.new.held ≡ modules.held }
    ensures walk { AnswersWalk (held_list modules.held)
        (record { address = address; bytes = stack.now } ∷ []) frame.old
        (take count.new lines.new) result frame.new }
    ensures count { count.new ≤ length lines.old }
    ensures others { drop count.new lines.new ≡ drop count.new lines.old }
{
    let list = modules.open(alloc);
    let lent = Lent {
        address,
        bytes: stack,
    };
    let (end, shown) = walk_over(&list, &lent, frame, lines);
    *count = shown;
    *back = ModulesHandle::of(list);
    end
}
