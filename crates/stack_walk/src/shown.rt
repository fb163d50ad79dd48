//! What a walk shows.

ghost use Rattle.std.specs.Prelude.{◌≡◌};
ghost use Rattle.stack_walk.specs.declared.shown.ShownFrame.{ShownFrame};

use unwind_step::AddressKind;

/// A frame as a line shows it.
#[derive(Clone, Copy, Debug, PartialEq, Eq)]
pub struct ShownFrame {
    /// The frame's address, column 16.
    pub pc: u64,
    /// Its stack pointer, column 7.
    pub sp: u64,
    pub address: AddressKind,
}

/// Why a walk has no more lines.
#[derive(Clone, Copy, Debug, PartialEq, Eq)]
pub enum WalkEnd {
    /// No module has the address of the last frame.
    NoModule,
    /// One has it, and no FDE of its section covers it.
    NoFde,
    /// A record of its section that is refused claims the address, before any FDE that covers it.
    Refused,
    /// No rule says where the CFA is, or where the return address is.
    NoRow,
    /// The return address is undefined: it was the outermost frame.
    Undefined,
    /// The memory has no eight bytes at an address.
    NoBytes { address: u64 },
    /// There is another frame, and no room for its line.
    Room,
}

/// A line that whoever walks keeps of a frame.
pub trait WalkLine: Copy {
    /// The frame that it shows.
    ghost shown: { Self → ShownFrame };

    fn of(frame: &ShownFrame) -> Self
        ensures { shown result ≡ frame.now };
}

impl WalkLine for ShownFrame {
    ghost shown = { λ s. s };

    fn of(frame: &ShownFrame) -> ShownFrame {
        *frame
    }
}
