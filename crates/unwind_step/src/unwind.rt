//! Whole backtraces.

ghost use Rattle.std.specs.Prelude.{◌≡◌, ◌≤◌, All, IfOk, OnErr, length};
ghost use Rattle.reg_model.specs.Receipt.{IsPlace};
ghost use Rattle.unwind_step.specs.Backtrace.{Unfolds};
ghost use Rattle.unwind_step.specs.Finders.{GoesThrough};

use crate::backtrace::Trace;
use crate::finder::Finder;
use crate::walk::Walk;
use frame_expr::{Memory, Regs};
use frame_parse::Section;
use reg_model::NoMemory;
use std::alloc::Global;
use std::sync::Wait;

/// The backtrace from recorded registers and recorded memory. Payloads are the numbers of the
/// images, by which their sections are listed. The finder is asked once for each frame, and for no
/// other address. All memory is taken before.
pub fn trace<R: Wait, F: Finder>(
    rt: &R,
    alloc: Global,
    finder: &mut F,
    sections: &[Section],
    regs: &Regs,
    memory: &Memory,
) -> Result<Trace, NoMemory>
    requires { F.bound finder.old ≤ length sections.now }
    ensures unfolds { IfOk result (Unfolds sections.now memory.now regs.now) }
    ensures queries { IfOk result (λ t. GoesThrough F.answers finder.old t.frames finder.new) }
    ensures halves { IfOk result (λ t. All (λ line. IsPlace line.place) t.frames) }
    ensures bound { F.bound finder.new ≡ F.bound finder.old }
    ensures unasked { OnErr result (finder.new ≡ finder.old) }
{
    let mut walk = Walk::new(alloc, sections, memory, regs)?;
    loop {
        walk.ask(rt, finder);
        if let Some(end) = walk.up() {
            return Ok(Trace {
                frames: walk.into_lines(),
                end,
            });
        }
    }
}
