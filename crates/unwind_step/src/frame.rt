//! Frames, and the addresses at which they are looked up.

ghost use Rattle.std.specs.Prelude.{◌≡◌, slice_index};
ghost use Rattle.unwind_step.specs.Backtrace.{innermost, lookup_address, address_kind};

use frame_expr::Regs;

/// Which instruction a frame's address is that of.
#[derive(Clone, Copy, Debug, PartialEq, Eq)]
pub enum AddressKind {
    /// The one where the frame stopped: it is the innermost frame, or a signal interrupted it.
    Instruction,
    /// The one after a call, to which the call returns.
    Return,
}

/// The registers of a frame.
#[derive(Clone, Copy, Debug, PartialEq, Eq)]
pub struct Frame {
    pub regs: Regs,
    pub address: AddressKind,
}

impl AddressKind {
    /// Of a frame entered from one whose CIE says whether that is a signal's.
    pub fn before(signal: bool) -> AddressKind
        ensures { result ≡ address_kind signal }
    {
        if signal {
            AddressKind::Instruction
        } else {
            AddressKind::Return
        }
    }
}

impl Frame {
    /// The frame that was recorded.
    pub(crate) fn innermost(regs: &Regs) -> Frame
        ensures { result ≡ innermost regs.now }
    {
        Frame {
            regs: *regs,
            address: AddressKind::Instruction,
        }
    }

    /// The address at which the frame is looked up. A call may be the last instruction of its
    /// function, so that its return address lies after the function.
    pub fn look(&self) -> u64
        ensures { result ≡ lookup_address self.now.address (slice_index self.now.regs.columns 16) }
    {
        let pc = self.regs.columns[16];
        match self.address {
            AddressKind::Instruction => pc,
            AddressKind::Return => pc.wrapping_sub(1),
        }
    }
}
