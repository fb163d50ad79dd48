//! The first line at which a trace leaves the rules.

ghost use Rattle.std.specs.Prelude.{◌≡◌, ◌↔◌, ℕ, Some, None, IfOk, IfErr};
ghost use Rattle.unwind_step.specs.Backtrace.{Unfolds};
ghost use Rattle.trace_check.specs.Departures.{IsDeparture, LeavesAt};
ghost use Rattle.trace_check.specs.NextLines.{IsReached};

use crate::next_line::{NextLine, next_line};
use frame_expr::{Memory, Regs};
use frame_parse::Section;
use unwind_step::{AddressKind, Frame, FrameLine, Trace};

/// Goes through the lines of the frames, and answers what the line after them has to show; else the
/// first line that is wrong.
fn go_through(
    sections: &[Section],
    regs: &Regs,
    memory: &Memory,
    lines: &[FrameLine],
) -> Result<NextLine, usize>
    ensures reached { IfOk result (IsReached sections.now memory.now regs.now lines.now) }
    ensures leaves { IfErr result (LeavesAt sections.now memory.now regs.now lines.now) }
{
    let mut next = NextLine::Frame(Frame {
        regs: *regs,
        address: AddressKind::Instruction,
    });
    for (index, line) in lines.iter().enumerate() {
        let NextLine::Frame(frame) = next else {
            return Err(index);
        };
        match next_line(sections, memory, &frame, line, index + 1) {
            None => return Err(index),
            Some(after) => next = after,
        }
    }
    Ok(next)
}

/// The first line at which a trace leaves the rules, counted from 0, where the line after those of
/// the frames tells the end. None where the trace unfolds. Payloads are the numbers of the images,
/// by which their sections are listed; no image has a payload that isn't below their number. It
/// takes no memory.
pub fn departure(sections: &[Section], regs: &Regs, memory: &Memory, trace: &Trace) -> Option<usize>
    ensures unfolds { (result ≡ None) ↔ Unfolds sections.now memory.now regs.now trace.now }
    ensures departs { (k : ℕ)
        → (result ≡ Some k) ↔ IsDeparture sections.now memory.now regs.now trace.now k }
{
    let next = match go_through(sections, regs, memory, &trace.frames) {
        Err(line) => return Some(line),
        Ok(next) => next,
    };
    if next.tells(&trace.end) {
        None
    } else {
        Some(trace.frames.len())
    }
}
