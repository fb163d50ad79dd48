//! Walks from a frame to its callers.

ghost use Rattle.std.specs.Prelude.{◌≡◌, ◌<◌, ◌≤◌, length, map, take, drop};
ghost use Rattle.stack_walk.specs.StackWalks.{WalksStack, shown_as};

use crate::modules::ModuleList;
use crate::shown::{ShownFrame, WalkEnd, WalkLine};
use frame_expr::WordSource;
use unwind_step::Frame;

/// How many lines a walk has, and why there are no more.
#[derive(Clone, Copy, Debug, PartialEq, Eq)]
pub struct Walked {
    pub count: usize,
    pub end: WalkEnd,
}

fn shown_as(frame: &Frame) -> ShownFrame
    ensures { result ≡ shown_as frame.now }
{
    ShownFrame {
        pc: frame.regs.columns[16],
        sp: frame.regs.columns[7],
        address: frame.address,
    }
}

/// Walks from a frame to its callers, a line for each from this frame on, as long as there is room.
/// The frame is afterwards the last one shown, or the next where there was no room for it: so a
/// walk from there goes on. It takes no memory.
pub fn walk<N: ModuleList, M: WordSource, L: WalkLine>(
    modules: &N,
    memory: &M,
    frame: &mut Frame,
    lines: &mut [L],
) -> Walked
    requires { 0 < length lines.old }
    ensures walks { WalksStack (N.modules modules.now) (M.regions memory.now) frame.old
        (map L.shown (take result.count lines.new)) result.end frame.new }
    ensures count { result.count ≤ length lines.old }
    ensures others { drop result.count lines.new ≡ drop result.count lines.old }
    ensures length { length lines.new ≡ length lines.old }
{
    let mut count = 0;
    'frames: loop {
        lines[count] = L::of(&shown_as(frame));
        count += 1;
        if let Some(end) = modules.go_up(frame, memory) {
            return Walked { count, end };
        }
        if count == lines.len() {
            return Walked {
                count,
                end: WalkEnd::Room,
            };
        }
    }
}
