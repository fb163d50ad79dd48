//! Walks along a stack: from the recorded frame to its callers, one frame at a time.

ghost use Rattle.std.specs.Prelude.{◌≡◌, ℕ, ◌-◌, ◌+◌, ◌<◌, ◌≤◌, [], ◌∷◌, ◌++◌, All, IfOk, IfErr};
ghost use Rattle.std.specs.Prelude.{IfNone, IfSome, Some, MatchOption, length, slice_get};
ghost use Rattle.std.specs.Prelude.{vec_len, vec_capacity};
ghost use Rattle.frame_expr.specs.Regions.{RegionData};
ghost use Rattle.frame_parse.specs.Sections.{SectionData};
ghost use Rattle.reg_model.specs.Receipt.{IsPlace};
ghost use Rattle.unwind_step.specs.Backtrace.{innermost, IsBelow, Shows, IsCallingFrame, IsEnd};
ghost use Rattle.unwind_step.specs.Finders.{GoesThrough};
ghost use Rattle.unwind_step.specs.Walks.{IsAsked, IsUnasked, IsWalked};

use crate::backtrace::{End, FrameLine};
use crate::finder::Finder;
use crate::frame::{AddressKind, Frame};
use crate::lookup::hit_of;
use crate::next::{Stepped, step};
use frame_expr::{Memory, Regs};
use frame_parse::Section;
use reg_model::NoMemory;
use std::alloc::Global;
use std::marker::Model;
use std::sync::Wait;

/// A walk has no more frames than these.
const MOST_FRAMES: usize = 256;

/// A walk from the recorded frame to its callers. At each frame it first asks for the image, and
/// then goes up.
#[derive(Drop)]
pub struct Walk<'a> {
    sections: &'a [Section],
    memory: &'a Memory,
    regs: &'a Regs,
    frame: Frame,
    lines: Vec<FrameLine>,
}

impl<'a> Model for Walk<'a> {
    ghost use Rattle.std.specs.Prelude.{◌≤◌, vec_capacity};
    ghost use Rattle.unwind_step.specs.Walks.{WalkData};

    ghost Value = { WalkData };

    ghost view = { λ w. record {
      sections = w.sections.now;
      memory = w.memory.now;
      regs = w.regs.now;
      frame = w.frame;
      lines = w.lines.items;
    } };

    ghost invariant = { λ w. 256 ≤ vec_capacity w.lines };
}

/// Asks for the image of a frame.
fn line_of<R: Wait, F: Finder>(rt: &R, finder: &mut F, frame: &Frame) -> FrameLine
    ensures shows { Shows frame.now result }
    ensures answered { F.answers finder.old result.look result.place finder.new }
    ensures halves { IsPlace result.place }
    ensures below { IsBelow (F.bound finder.old) result.place }
    ensures bound { F.bound finder.new ≡ F.bound finder.old }
{
    let look = frame.look();
    let place = finder.find(rt, look);
    FrameLine {
        pc: frame.regs.columns[16],
        sp: frame.regs.columns[7],
        look,
        place,
    }
}

/// The caller of a frame that a line shows, or why there is none.
fn caller_of(
    sections: &[Section],
    memory: &Memory,
    frame: &Frame,
    line: &FrameLine,
) -> Result<Frame, End>
    requires { IsBelow (length sections.now) line.now.place }
    ensures caller { IfOk result (IsCallingFrame sections.now memory.now frame.now line.now) }
    ensures end { IfErr result (λ end. (count : ℕ)
        → IsEnd sections.now memory.now count frame.now line.now end) }
{
    let Some(member) = hit_of(&line.place) else {
        return Err(End::NoObject);
    };
    let section = &sections[member.payload as usize];
    let Some(fde) = section.fde_at(line.look) else {
        return Err(End::NoFde);
    };
    match step(&fde, line.look, &frame.regs, memory) {
        Stepped::Frame { regs } => Ok(Frame {
            regs,
            address: AddressKind::before(fde.signal()),
        }),
        Stepped::NoRow => Err(End::NoRow),
        Stepped::Undefined => Err(End::Undefined),
        Stepped::NoBytes { address } => Err(End::NoBytes { address }),
    }
}

/// Adds an item, where there is room.
fn add<T: Copy>(items: &mut Vec<T>, item: &T)
    requires { vec_len items.old < vec_capacity items.old }
    ensures items { items.new.items ≡ items.old.items ++ item.now ∷ [] }
    ensures capacity { vec_capacity items.old ≤ vec_capacity items.new }
{
    let _ = items.push(*item);
}

impl<'a> Walk<'a> {
    /// A walk that stands at the recorded frame. All memory is taken here.
    pub fn new(
        alloc: Global,
        sections: &'a [Section],
        memory: &'a Memory,
        regs: &'a Regs,
    ) -> Result<Walk<'a>, NoMemory>
        ensures walk { IfOk result (λ w. w ≡ record {
          sections = sections.now;
          memory = memory.now;
          regs = regs.now;
          frame = innermost regs.now;
          lines = [];
        }) }
        ensures unasked { IfOk result IsUnasked }
    {
        let lines = Vec::with_capacity(alloc, MOST_FRAMES)?;
        Ok(Walk {
            sections,
            memory,
            regs,
            frame: Frame::innermost(regs),
            lines,
        })
    }

    /// Asks the finder for the image of the frame, once, and adds its line. It takes no memory.
    pub fn ask<R: Wait, F: Finder>(&mut self, rt: &R, finder: &mut F) -> FrameLine
        requires unasked { IsUnasked self.old }
        requires bound { F.bound finder.old ≤ length self.old.sections }
        ensures line { self.new ≡ record self.old { lines = self.old.lines ++ result ∷ [] } }
        ensures shows { Shows self.old.frame result }
        ensures below { IsBelow (length self.old.sections) result.place }
        ensures asked { IsAsked self.new }
        ensures answered { F.answers finder.old result.look result.place finder.new }
        // A finder that went through the lines before went through this one too.
        ensures queries { (before : F) → GoesThrough F.answers before self.old.lines finder.old
            → GoesThrough F.answers before self.new.lines finder.new }
        ensures halves { All (λ line. IsPlace line.place) self.old.lines
            → All (λ line. IsPlace line.place) self.new.lines }
        ensures bound { F.bound finder.new ≡ F.bound finder.old }
    {
        let line = line_of(rt, finder, &self.frame);
        add(&mut self.lines, &line);
        line
    }

    /// Goes to the caller of the frame that was asked for, or tells why there is none. Then it
    /// stays where it is.
    pub fn up(&mut self) -> Option<End>
        requires { IsAsked self.old }
        ensures caller { IfNone result (IsUnasked self.new) }
        ensures moves { IfNone result (self.new ≡ record self.old { frame = self.new.frame }) }
        ensures ends { IfSome result (IsWalked self.old) }
        ensures stays { IfSome result (λ _. self.new ≡ self.old) }
    {
        let count = self.lines.len();
        let line = self.lines[count - 1];
        match caller_of(self.sections, self.memory, &self.frame, &line) {
            Err(end) => Some(end),
            Ok(_) if count == MOST_FRAMES => Some(End::Long),
            Ok(caller) => {
                self.frame = caller;
                None
            }
        }
    }

    /// The lines of the frames that were asked for.
    pub fn into_lines(self) -> Vec<FrameLine>
        ensures { result.items ≡ self.entry.lines }
    {
        self.lines
    }
}
