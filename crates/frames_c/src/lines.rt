//! The lines of a walk, as C keeps them.

ghost use Rattle.std.specs.Prelude.{◌≡◌};
ghost use Rattle.frames_c.specs.FrameSteps.{address_told};
ghost use Rattle.frames_c.specs.StackLines.{line_shown};

use stack_walk::{ShownFrame, WalkLine};
use unwind_step::AddressKind;

/// A frame that a walk shows.
#[repr(C)]
#[derive(Clone, Copy)]
pub struct FramesLine {
    /// The frame's address, column 16.
    pub pc: u64,
    /// Its stack pointer, column 7.
    pub sp: u64,
    /// The address is that of the frame's instruction, and not one to which a call returns.
    pub at_instruction: u64,
}

/// 1 for the address of a frame's instruction.
pub(crate) fn told_address(address: AddressKind) -> u64
    ensures { address_told result ≡ address }
{
    match address {
        AddressKind::Return => 0,
        AddressKind::Instruction => 1,
    }
}

impl WalkLine for FramesLine {
    ghost shown = { line_shown };

    #[inline(always)]
    fn of(frame: &ShownFrame) -> FramesLine {
        FramesLine {
            pc: frame.pc,
            sp: frame.sp,
            at_instruction: told_address(frame.address),
        }
    }
}
