//! What was refused in a section.

ghost use Rattle.std.specs.Prelude.{◌≡◌};
ghost use Rattle.c_handle.specs.Handles.{LeadsNowhere, LeadsSomewhere};
ghost use Rattle.c_sections.specs.Refusals.{refusal_told};
ghost use Rattle.frames_c.specs.Claims.{claim_first, claim_range, claim_told, refusals_told};
ghost use Rattle.frames_c.specs.Claims.{AnswersClaim};
ghost use Rattle.frames_c.specs.Held.{claim_in, held_loaded};

use crate::handles::SectionHandle;
use crate::share::LoadedSection;
use c_sections::{FramesRefusal, LoadFault};
use frame_parse::FrameFault;
use sound_records::{Claim, RefusedRecord};
use std::alloc::Global;

/// How many records are refused, and the refusal of the first one in order of bytes; 0 where none
/// is.
#[repr(C)]
#[derive(Clone, Copy)]
pub struct FramesRefused {
    pub count: u64,
    pub first: FramesRefusal,
}

/// A refused record: the addresses that it claims, and its refusal.
#[repr(C)]
#[derive(Clone, Copy)]
pub struct FramesClaim {
    pub first: u64,
    pub range: u64,
    pub refusal: FramesRefusal,
}

/// A refusal, as C is told.
fn refusal(fault: FrameFault) -> FramesRefusal
    ensures { result ≡ refusal_told fault }
{
    FramesRefusal::of_load(LoadFault::Frames(fault))
}

impl FramesRefused {
    /// What C is told of the records that are refused.
    pub(crate) fn of(refused: &[RefusedRecord]) -> FramesRefused
        ensures { result ≡ refusals_told refused.now }
    {
        match refused {
            [] => FramesRefused {
                count: 0,
                first: FramesRefusal {
                    kind: 0,
                    start: 0,
                    at: 0,
                    detail: 0,
                },
            },
            [first, ..] => FramesRefused {
                count: refused.len() as u64,
                first: refusal(first.fault),
            },
        }
    }
}

/// The addresses of a claim: the first, and how many.
fn addresses(claim: Option<Claim>) -> (u64, u64)
    ensures first { result.0 ≡ claim_first claim }
    ensures range { result.1 ≡ claim_range claim }
{
    match claim {
        None => (0, 0),
        Some(claim) => (claim.first, claim.range),
    }
}

impl FramesClaim {
    fn of(refused: RefusedRecord) -> FramesClaim
        ensures { result ≡ claim_told refused }
    {
        let (first, range) = addresses(refused.claim);
        FramesClaim {
            first,
            range,
            refusal: refusal(refused.fault),
        }
    }
}

/// Writes the refused record that answers at an address, where one does.
fn claim(section: &LoadedSection, pc: u64, out: &mut FramesClaim) -> bool
    ensures { AnswersClaim (claim_in pc section.now) result out.old out.new }
{
    match section.claim_at(pc) {
        None => false,
        Some(record) => {
            *out = FramesClaim::of(record);
            true
        }
    }
}

/// The refused record that claims an address before any FDE that covers it; false where none does,
/// and then nothing is written. Where one does, no other call answers by an FDE.
#[unsafe(no_mangle)]
pub extern "C" fn frames_c_claim(
    alloc: Global,
    section: SectionHandle,
    pc: u64,
    out: &mut FramesClaim,
    back: &mut SectionHandle,
) -> bool
    requires held { LeadsSomewhere section.held }
    requires back { LeadsNowhere back.old.held }
    ensures back { back.new.held ≡ section.held }
    ensures claim { AnswersClaim (claim_in pc (held_loaded section.held)) result out.old out.new }
{
    let share = section.open(alloc);
    let found = claim(share.get(), pc, out);
    *back = SectionHandle::of(share);
    found
}
