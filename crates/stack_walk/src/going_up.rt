//! From a frame to the one before.

ghost use Rattle.std.specs.Prelude.{◌≡◌, List, None, MatchOption};
ghost use Rattle.frame_expr.specs.Regions.{RegionData};
ghost use Rattle.frame_parse.specs.Sections.{SectionData, first_cover};
ghost use Rattle.stack_walk.specs.StackWalks.{ComesBy, GoesUp, look_of};

use crate::shown::WalkEnd;
use unwind_step::{AddressKind, FoundStep, Frame, Stepped};

/// A frame becomes the one before, by the step that came of it in a section. Where there is none,
/// it stays and the answer says why.
pub fn take_step(step: Option<FoundStep>, frame: &mut Frame) -> Option<WalkEnd>
    ensures { (s : SectionData) (memory : List RegionData)
        → MatchOption step (first_cover (look_of frame.old) s.fdes ≡ None)
        (λ found. ComesBy s memory frame.old found.signal found.outcome)
        → GoesUp s memory frame.old result frame.new }
{
    let Some(FoundStep { outcome, signal }) = step else {
        return Some(WalkEnd::NoFde);
    };
    match outcome {
        Stepped::Frame { regs } => {
            *frame = Frame {
                regs,
                address: AddressKind::before(signal),
            };
            None
        }
        Stepped::NoRow => Some(WalkEnd::NoRow),
        Stepped::Undefined => Some(WalkEnd::Undefined),
        Stepped::NoBytes { address } => Some(WalkEnd::NoBytes { address }),
    }
}
