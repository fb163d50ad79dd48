//! The FDE of an address.

ghost use Rattle.std.specs.Prelude.{◌≡◌, ◌<◌, ◌^◌};
ghost use Rattle.c_handle.specs.Handles.{LeadsNowhere, LeadsSomewhere};
ghost use Rattle.frame_parse.specs.Sections.{first_cover};
ghost use Rattle.frames_c.specs.Held.{claim_in, held_loaded, held_section};
ghost use Rattle.frames_c.specs.Held.{unless_claimed};
ghost use Rattle.frames_c.specs.Fdes.{fde_told, flag, AnswersFde};

use crate::handles::SectionHandle;
use crate::share::LoadedSection;
use frame_parse::Fde;
use std::alloc::Global;

/// An FDE. What it hasn't is 0, and its flag too.
#[repr(C)]
#[derive(Clone, Copy)]
pub struct FramesFde {
    pub first: u64,
    pub range: u64,
    pub lsda: u64,
    pub personality: u64,
    pub has_lsda: u8,
    pub has_personality: u8,
    pub signal: u8,
    /// The place of its first byte among those of the section.
    pub place: u32,
}

impl FramesFde {
    fn of(fde: &Fde<'_>) -> FramesFde
        requires { fde.now.entry.start < 2 ^ 32 }
        ensures { result ≡ fde_told fde.now.entry }
    {
        let (lsda, personality) = (fde.lsda(), fde.personality());
        FramesFde {
            first: fde.first(),
            range: fde.range(),
            lsda: lsda.unwrap_or(0),
            personality: personality.unwrap_or(0),
            has_lsda: flag(lsda.is_some()),
            has_personality: flag(personality.is_some()),
            signal: flag(fde.signal()),
            place: fde.place() as u32,
        }
    }
}

fn flag(holds: bool) -> u8
    ensures { result ≡ flag holds }
{
    u8::from(holds)
}

/// Writes the FDE of an address, where there is one.
fn find_fde(section: &LoadedSection, pc: u64, out: &mut FramesFde) -> bool
    ensures { AnswersFde (first_cover pc section.now.section.fdes) result out.old out.new }
{
    match section.fde_at(pc) {
        None => false,
        Some(fde) => {
            *out = FramesFde::of(&fde);
            true
        }
    }
}

/// The same, unless a refused record answers.
fn find(section: &LoadedSection, pc: u64, out: &mut FramesFde) -> bool
    ensures { AnswersFde (unless_claimed (claim_in pc section.now)
        (first_cover pc section.now.section.fdes)) result out.old out.new }
{
    match section.claim_at(pc) {
        Some(_) => false,
        None => find_fde(section, pc, out),
    }
}

/// The first FDE in order of bytes that covers an address; false where none does, or a refused
/// record answers, and then nothing is written.
#[unsafe(no_mangle)]
pub extern "C" fn frames_c_find(
    alloc: Global,
    section: SectionHandle,
    pc: u64,
    out: &mut FramesFde,
    back: &mut SectionHandle,
) -> bool
    requires held { LeadsSomewhere section.held }
    requires back { LeadsNowhere back.old.held }
    ensures back { back.new.held ≡ section.held }
    ensures fde { AnswersFde (unless_claimed (claim_in pc (held_loaded section.held))
        (first_cover pc (held_section section.held).fdes)) result out.old out.new }
{
    let share = section.open(alloc);
    let found = find(share.get(), pc, out);
    *back = SectionHandle::of(share);
    found
}
