//! Why there is no section, as C is told.

ghost use Rattle.std.specs.Prelude.{◌≡◌};
ghost use Rattle.c_sections.specs.Refusals.{refusal_told, load_told};

use frame_parse::FrameFault;

/// A refusal: its kind, the place of the record's first byte, the place that is refused, and the
/// byte or the column that is, where the kind has one.
#[repr(C)]
#[derive(Clone, Copy, Debug, PartialEq, Eq)]
pub struct FramesRefusal {
    pub kind: u64,
    pub start: u64,
    pub at: u64,
    pub detail: u64,
}

/// Why there is no section.
#[derive(Clone, Copy, Debug, PartialEq, Eq)]
pub enum LoadFault {
    /// It has 2^32 bytes or more.
    Long,
    Frames(FrameFault),
}

impl FramesRefusal {
    fn new(kind: u64, start: usize, at: usize, detail: u64) -> FramesRefusal
        ensures { result ≡ record { kind = kind; start = start; at = at; detail = detail } }
    {
        FramesRefusal {
            kind,
            start: start as u64,
            at: at as u64,
            detail,
        }
    }

    fn of(fault: FrameFault) -> FramesRefusal
        ensures { result ≡ refusal_told fault }
    {
        match fault {
            FrameFault::NoMemory => FramesRefusal::new(0, 0, 0, 0),
            FrameFault::Short { start, at } => FramesRefusal::new(1, start, at, 0),
            FrameFault::TooWide { start, at } => FramesRefusal::new(2, start, at, 0),
            FrameFault::Encoding { start, at, byte } => {
                FramesRefusal::new(3, start, at, byte as u64)
            }
            FrameFault::NoCie { start, at } => FramesRefusal::new(4, start, at, 0),
            FrameFault::Version { start, at, byte } => {
                FramesRefusal::new(5, start, at, byte as u64)
            }
            FrameFault::Augmentation { start, at } => FramesRefusal::new(6, start, at, 0),
            FrameFault::Column { start, at, column } => FramesRefusal::new(7, start, at, column),
            FrameFault::Range { start, at } => FramesRefusal::new(8, start, at, 0),
            FrameFault::Opcode { start, at, byte } => {
                FramesRefusal::new(9, start, at, byte as u64)
            }
            FrameFault::Location { start, at } => FramesRefusal::new(10, start, at, 0),
            FrameFault::Remember { start, at } => FramesRefusal::new(11, start, at, 0),
            FrameFault::Operation { start, at, byte } => {
                FramesRefusal::new(12, start, at, byte as u64)
            }
            FrameFault::Depth { start, at } => FramesRefusal::new(13, start, at, 0),
            FrameFault::CfaRule { start, at } => FramesRefusal::new(14, start, at, 0),
        }
    }

    /// What C is told of it.
    pub fn of_load(fault: LoadFault) -> FramesRefusal
        ensures { result ≡ load_told fault }
    {
        match fault {
            LoadFault::Long => FramesRefusal::new(15, 0, 0, 0),
            LoadFault::Frames(fault) => FramesRefusal::of(fault),
        }
    }
}
