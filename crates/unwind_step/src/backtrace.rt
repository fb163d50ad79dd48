//! Traces as plain data.

use reg_model::Place;
use std::marker::Model;

/// What is told of a frame.
#[derive(Clone, Copy, Debug, PartialEq, Eq)]
pub struct FrameLine {
    /// The frame's address, column 16.
    pub pc: u64,
    /// Its stack pointer, column 7.
    pub sp: u64,
    /// The address at which it was looked up.
    pub look: u64,
    pub place: Place,
}

/// Why a trace has no more frames.
#[derive(Clone, Copy, Debug, PartialEq, Eq)]
pub enum End {
    /// No image has the address.
    NoObject,
    /// An image has it, and no FDE of its section covers it.
    NoFde,
    /// No rule says where the CFA is, or where the return address is.
    NoRow,
    /// The return address is undefined: this was the outermost frame.
    Undefined,
    /// The eight bytes at an address weren't recorded.
    NoBytes { address: u64 },
    /// There is another frame after the 256th.
    Long,
}

/// A backtrace: a line for each frame, the innermost first, and why it ends.
#[derive(Debug, Drop)]
pub struct Trace {
    pub frames: Vec<FrameLine>,
    pub end: End,
}

impl Model for Trace {
    ghost use Rattle.unwind_step.specs.Backtrace.{TraceData};

    ghost Value = { TraceData };

    ghost view = { λ t. record { frames = t.frames.items; end = t.end } };
}
