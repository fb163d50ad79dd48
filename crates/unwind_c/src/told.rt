//! What C is told of a call that registers a section, gives one up or moves one.

ghost use Rattle.std.specs.Prelude.{◌≡◌};
ghost use Rattle.unwind_c.specs.Answers.{bytes_told, deregistration_told, far_told};
ghost use Rattle.unwind_c.specs.Answers.{fault_told, kind_told};
ghost use Rattle.unwind_c.specs.Answers.{kind_told_with, moving_told, placed_told};
ghost use Rattle.unwind_c.specs.Answers.{refused_move_told};
ghost use Rattle.unwind_c.specs.Answers.{refused_told, registration_told};

use crate::kinds::{
    SECTION_DONE, SECTION_FAR, SECTION_FULL, SECTION_INTO_STUCK, SECTION_LEFT, SECTION_NO_MEMORY,
    SECTION_OVERLAP, SECTION_REFUSED, SECTION_SPENT, SECTION_STUCK, SECTION_UNKNOWN,
};
use crate::outcome::SectionOutcome;
use crate::reach::AddressReach;
use c_sections::{FramesRefusal, LoadFault};
use fde_writer::{Deregistration, Moving, Numbers, Registration};
use frame_parse::FrameFault;

/// A kind; the numbers of the first and the last update that put a section or took it away; the
/// note with which it was registered; how far an FDE is from its code; the least address of what
/// was registered, and the one after the greatest; and why bytes are refused. What isn't told is
/// 0.
#[repr(C)]
#[derive(Clone, Copy)]
pub struct UnwindTold {
    pub kind: u32,
    pub first_number: u32,
    pub last_number: u32,
    pub note: u64,
    pub distance: u64,
    pub lowest: u64,
    pub end: u64,
    pub refusal: FramesRefusal,
}

const NO_REFUSAL: FramesRefusal = FramesRefusal {
    kind: 0,
    start: 0,
    at: 0,
    detail: 0,
};

impl UnwindTold {
    fn of_kind(kind: u32) -> UnwindTold
        ensures { result ≡ kind_told kind }
    {
        UnwindTold {
            kind,
            first_number: 0,
            last_number: 0,
            note: 0,
            distance: 0,
            lowest: 0,
            end: 0,
            refusal: NO_REFUSAL,
        }
    }

    fn numbered(kind: u32, numbers: Numbers, note: u64) -> UnwindTold
        ensures { result ≡ kind_told_with kind numbers note }
    {
        let mut told = UnwindTold::of_kind(kind);
        told.first_number = numbers.first;
        told.last_number = numbers.last;
        told.note = note;
        told
    }

    fn far(distance: u64) -> UnwindTold
        ensures { result ≡ far_told distance }
    {
        let mut told = UnwindTold::of_kind(SECTION_FAR);
        told.distance = distance;
        told
    }

    fn refused(fault: LoadFault) -> UnwindTold
        ensures { result ≡ refused_told fault }
    {
        let mut told = UnwindTold::of_kind(SECTION_REFUSED);
        told.refusal = FramesRefusal::of_load(fault);
        told
    }

    fn of_registration(answer: Registration) -> UnwindTold
        ensures { result ≡ registration_told answer }
    {
        match answer {
            Registration::Done { numbers } => UnwindTold::numbered(SECTION_DONE, numbers, 0),
            Registration::Far { distance } => UnwindTold::far(distance),
            Registration::Spent => UnwindTold::of_kind(SECTION_SPENT),
            Registration::NoMemory => UnwindTold::of_kind(SECTION_NO_MEMORY),
            Registration::Overlap => UnwindTold::of_kind(SECTION_OVERLAP),
            Registration::Full => UnwindTold::of_kind(SECTION_FULL),
            Registration::Stuck => UnwindTold::of_kind(SECTION_STUCK),
        }
    }

    /// Of a section that has these addresses.
    fn of_placed(answer: Registration, reach: AddressReach) -> UnwindTold
        ensures { result ≡ placed_told answer reach }
    {
        match answer {
            Registration::Done { numbers } => {
                let mut told = UnwindTold::numbered(SECTION_DONE, numbers, 0);
                told.lowest = reach.lowest;
                told.end = reach.end;
                told
            }
            answer => UnwindTold::of_registration(answer),
        }
    }

    pub(crate) fn of_bytes(answer: Result<SectionOutcome, LoadFault>) -> UnwindTold
        ensures { result ≡ bytes_told answer }
    {
        match answer {
            Ok(placed) => UnwindTold::of_placed(placed.answer, placed.reach),
            Err(fault) => UnwindTold::of_fault(fault),
        }
    }

    pub(crate) fn of_deregistration(answer: Deregistration) -> UnwindTold
        ensures { result ≡ deregistration_told answer }
    {
        match answer {
            Deregistration::Done { note, numbers } => UnwindTold::numbered(
                SECTION_DONE,
                numbers,
                note,
            ),
            Deregistration::Unknown => UnwindTold::of_kind(SECTION_UNKNOWN),
            Deregistration::Stuck => UnwindTold::of_kind(SECTION_STUCK),
        }
    }

    /// Of a section that another writer refused.
    fn of_refusal(why: Registration) -> UnwindTold
        ensures { result ≡ refused_move_told why }
    {
        match why {
            Registration::Stuck => UnwindTold::of_kind(SECTION_INTO_STUCK),
            why => UnwindTold::of_registration(why),
        }
    }

    pub(crate) fn of_moving(answer: Moving) -> UnwindTold
        ensures { result ≡ moving_told answer }
    {
        match answer {
            Moving::Done { note, numbers } => UnwindTold::numbered(SECTION_DONE, numbers, note),
            Moving::Left { numbers } => UnwindTold::numbered(SECTION_LEFT, numbers, 0),
            Moving::Unknown => UnwindTold::of_kind(SECTION_UNKNOWN),
            Moving::Refused { why } => UnwindTold::of_refusal(why),
            Moving::Stuck => UnwindTold::of_kind(SECTION_STUCK),
        }
    }

    /// Of bytes that aren't read: want of memory is told as that, and not as theirs.
    fn of_fault(fault: LoadFault) -> UnwindTold
        ensures { result ≡ fault_told fault }
    {
        match fault {
            LoadFault::Frames(FrameFault::NoMemory) => UnwindTold::of_kind(SECTION_NO_MEMORY),
            LoadFault::Frames(frames) => UnwindTold::refused(LoadFault::Frames(frames)),
            LoadFault::Long => UnwindTold::refused(LoadFault::Long),
        }
    }
}
