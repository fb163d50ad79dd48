//! What the next line of a trace has to show, by the line before it.

ghost use Rattle.std.specs.Prelude.{◌≡◌, Some, IfSome, MatchBool, slice_index};
ghost use Rattle.unwind_step.specs.Backtrace.{lookup_address, Shows};
ghost use Rattle.trace_check.specs.NextLines.{next_of, IsNextLine};
ghost use Rattle.trace_check.specs.declared.next_line.NextLine.{NextLine};
ghost use Rattle.trace_check.specs.declared.next_line.NextLine.TheVariants as nexts;

use frame_expr::Memory;
use frame_parse::Section;
use unwind_step::{AddressKind, End, FoundStep, Frame, FrameLine, Stepped, hit_of, step_at};

/// A trace has no more frames than these.
const MOST_FRAMES: usize = 256;

/// What a line has to show.
#[derive(Clone, Copy)]
pub enum NextLine {
    Frame(Frame),
    End(End),
}

impl NextLine {
    /// Whether it is the end line, with this end.
    pub fn tells(&self, end: &End) -> bool
        ensures { MatchBool result (self.now ≡ nexts.End end.now)
            (¬ (self.now ≡ nexts.End end.now)) }
    {
        match self {
            NextLine::Frame(_) => false,
            NextLine::End(told) => *told == *end,
        }
    }
}

/// The address at which a frame is looked up: behind a call, one that is still the call's.
fn look_of(frame: &Frame) -> u64
    ensures { result ≡ lookup_address frame.now.address (slice_index frame.now.regs.columns 16) }
{
    let pc = frame.regs.columns[16];
    match frame.address {
        AddressKind::Instruction => pc,
        AddressKind::Return => pc.wrapping_sub(1),
    }
}

/// Whether a line shows a frame, whatever its place.
fn shows(frame: &Frame, line: &FrameLine) -> bool
    ensures { MatchBool result (Shows frame.now line.now) (¬ Shows frame.now line.now) }
{
    if line.pc != frame.regs.columns[16] {
        return false;
    }
    if line.sp != frame.regs.columns[7] {
        return false;
    }
    line.look == look_of(frame)
}

/// What the line after so many frames has to show, by what came of the last of them.
fn next_of(count: usize, found: &FoundStep) -> NextLine
    ensures { result ≡ next_of count found.now.outcome found.now.signal }
{
    let address = if found.signal {
        AddressKind::Instruction
    } else {
        AddressKind::Return
    };
    match found.outcome {
        Stepped::Frame { .. } if count == MOST_FRAMES => NextLine::End(End::Long),
        Stepped::Frame { regs } => NextLine::Frame(Frame { regs, address }),
        Stepped::NoRow => NextLine::End(End::NoRow),
        Stepped::Undefined => NextLine::End(End::Undefined),
        Stepped::NoBytes { address } => NextLine::End(End::NoBytes { address }),
    }
}

/// What the line after this one has to show, where this is the last of so many and shows the frame.
/// None where it doesn't show it, or its place names an image that isn't there.
pub fn next_line(
    sections: &[Section],
    memory: &Memory,
    frame: &Frame,
    line: &FrameLine,
    count: usize,
) -> Option<NextLine>
    ensures next { IfSome result (IsNextLine sections.now memory.now count frame.now line.now) }
    // Nothing else can come of them.
    ensures only { (other : NextLine)
        → IsNextLine sections.now memory.now count frame.now line.now other
        → Some other ≡ result }
{
    if !shows(frame, line) {
        return None;
    }
    let Some(member) = hit_of(&line.place) else {
        return Some(NextLine::End(End::NoObject));
    };
    let section = sections.get(member.payload as usize)?;
    match step_at(section, line.look, &frame.regs, memory) {
        None => Some(NextLine::End(End::NoFde)),
        Some(found) => Some(next_of(count, &found)),
    }
}
