//! Why the bytes are no section.

ghost use Rattle.std.specs.Prelude.{◌≡◌};
ghost use Rattle.frame_parse.specs.Records.{fault_in};
ghost use Rattle.frame_parse.specs.declared.fault.FrameFault.TheVariants.{NoMemory};

use std::alloc::{AllocError, AllocFailed};

/// The first refusal of a section. `start` is the place of the record's first byte, and `at` the
/// place that is refused.
#[derive(Clone, Copy, Debug, PartialEq, Eq)]
pub enum FrameFault {
    /// A record, a field, a text, data or a block isn't whole.
    Short {
        start: usize,
        at: usize,
    },
    /// A whole LEB128 number doesn't fit 64 bits.
    TooWide {
        start: usize,
        at: usize,
    },
    /// A pointer encoding isn't accepted in its place.
    Encoding {
        start: usize,
        at: usize,
        byte: u8,
    },
    /// The record doesn't lead back to an earlier CIE.
    NoCie {
        start: usize,
        at: usize,
    },
    /// The version of a CIE is neither 1 nor 3.
    Version {
        start: usize,
        at: usize,
        byte: u8,
    },
    /// The augmentation isn't empty, and isn't `z` with letters that are known, each once.
    Augmentation {
        start: usize,
        at: usize,
    },
    /// A column above 16, or a return address in another column than 16.
    Column {
        start: usize,
        at: usize,
        column: u64,
    },
    /// The range of an FDE is negative or leads past the last address.
    Range {
        start: usize,
        at: usize,
    },
    /// No instruction begins with the byte.
    Opcode {
        start: usize,
        at: usize,
        byte: u8,
    },
    /// An instruction moves the location in a CIE, back, or past the last address.
    Location {
        start: usize,
        at: usize,
    },
    /// A state is restored that wasn't remembered, or a ninth one is remembered.
    Remember {
        start: usize,
        at: usize,
    },
    /// No operation of an expression begins with the byte.
    Operation {
        start: usize,
        at: usize,
        byte: u8,
    },
    /// An operation finds too few numbers on the stack or leaves too many.
    Depth {
        start: usize,
        at: usize,
    },
    /// A part of the CFA rule is changed where it isn't a column plus an offset.
    CfaRule {
        start: usize,
        at: usize,
    },
    /// Memory ran out, which says nothing of the bytes.
    NoMemory,
}

/// A refusal inside a record: `at` is the place that is refused. The causes are those of
/// `FrameFault`.
#[derive(Clone, Copy, Debug, PartialEq, Eq)]
pub enum RecordFault {
    Short { at: usize },
    TooWide { at: usize },
    Encoding { at: usize, byte: u8 },
    NoCie { at: usize },
    Version { at: usize, byte: u8 },
    Augmentation { at: usize },
    Column { at: usize, column: u64 },
    Range { at: usize },
    Opcode { at: usize, byte: u8 },
    Location { at: usize },
    Remember { at: usize },
    Operation { at: usize, byte: u8 },
    Depth { at: usize },
    CfaRule { at: usize },
}

impl RecordFault {
    /// The refusal of the record that begins at a place.
    pub(crate) fn in_record(self, start: usize) -> FrameFault
        ensures { result ≡ fault_in start self }
    {
        match self {
            RecordFault::Short { at } => FrameFault::Short { start, at },
            RecordFault::TooWide { at } => FrameFault::TooWide { start, at },
            RecordFault::Encoding { at, byte } => FrameFault::Encoding { start, at, byte },
            RecordFault::NoCie { at } => FrameFault::NoCie { start, at },
            RecordFault::Version { at, byte } => FrameFault::Version { start, at, byte },
            RecordFault::Augmentation { at } => FrameFault::Augmentation { start, at },
            RecordFault::Column { at, column } => FrameFault::Column { start, at, column },
            RecordFault::Range { at } => FrameFault::Range { start, at },
            RecordFault::Opcode { at, byte } => FrameFault::Opcode { start, at, byte },
            RecordFault::Location { at } => FrameFault::Location { start, at },
            RecordFault::Remember { at } => FrameFault::Remember { start, at },
            RecordFault::Operation { at, byte } => FrameFault::Operation { start, at, byte },
            RecordFault::Depth { at } => FrameFault::Depth { start, at },
            RecordFault::CfaRule { at } => FrameFault::CfaRule { start, at },
        }
    }
}

impl From<AllocError> for FrameFault {
    ghost from_gives = { λ _ e. e ≡ NoMemory };

    fn from(_e: AllocError) -> FrameFault {
        FrameFault::NoMemory
    }
}

impl<T: Drop> From<AllocFailed<T>> for FrameFault {
    ghost from_gives = { λ _ e. e ≡ NoMemory };

    fn from(_e: AllocFailed<T>) -> FrameFault {
        FrameFault::NoMemory
    }
}
