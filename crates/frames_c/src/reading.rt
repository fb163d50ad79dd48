//! Sections are read.

ghost use Rattle.std.specs.Prelude.{◌≡◌, ◌<◌, ◌^◌, [], length, true, false, None, IfOk, IfErr};
ghost use Rattle.c_handle.specs.Handles.{LeadsNowhere, LeadsSomewhere};
ghost use Rattle.frame_parse.specs.declared.fault.FrameFault.TheVariants.{NoMemory};
ghost use Rattle.sound_records.specs.Items.{items_of, refused_in};
ghost use Rattle.sound_records.specs.Sections.{sound_section};
ghost use Rattle.c_sections.specs.declared.refusal.LoadFault.TheVariants.{Frames};
ghost use Rattle.c_sections.specs.Loads.{IsLoaded};
ghost use Rattle.c_sections.specs.Refusals.{IsLoadFault, IsToldRefusal, load_told};
ghost use Rattle.frames_c.specs.Claims.{refusals_told, IsToldUnread, IsUnread};
ghost use Rattle.frames_c.specs.Claims.{LeadsToSound};
ghost use Rattle.frames_c.specs.Held.{held_section, loaded_with};
ghost use Rattle.frames_c.specs.Loads.{LeadsToLoaded, HasNothingRefused, HasNoTable};

use crate::claims::FramesRefused;
use crate::handles::SectionHandle;
use crate::share::LoadedSection;
use c_handle::Shared;
use c_sections::{FramesRefusal, LoadFault, read_section};
use frame_parse::FrameFault;
use sound_records::SoundSection;
use std::alloc::Global;

/// The first share of a section, in a box of its own.
pub(crate) fn shared(
    alloc: Global,
    loaded: LoadedSection,
) -> Result<Box<Shared<LoadedSection>, Global>, LoadFault>
    ensures share { IfOk result (λ share. share.value ≡ loaded) }
    ensures fault { IfErr result (λ f. f ≡ Frames NoMemory) }
{
    let share = match Shared::new(alloc, loaded) {
        Ok(share) => share,
        Err(_) => return Err(LoadFault::Frames(FrameFault::NoMemory)),
    };
    match Box::new(alloc, share) {
        Ok(boxed) => Ok(boxed),
        Err(_) => Err(LoadFault::Frames(FrameFault::NoMemory)),
    }
}

/// Tells why there is no section.
pub(crate) fn refuse(fault: LoadFault, refusal: &mut FramesRefusal) -> bool
    ensures none { result ≡ false }
    ensures told { refusal.new ≡ load_told fault }
{
    *refusal = FramesRefusal::of_load(fault);
    false
}

fn load(
    alloc: Global,
    address: u64,
    bytes: &[u8],
) -> Result<Box<Shared<LoadedSection>, Global>, LoadFault>
    ensures loaded { IfOk result (λ share. IsLoaded address bytes.now share.value.section) }
    ensures sound { IfOk result (λ share. share.value.refused ≡ []) }
    ensures table { IfOk result (λ share. share.value.table ≡ None) }
    ensures fault { IfErr result (IsLoadFault address bytes.now) }
{
    let section = read_section(alloc, address, bytes)?;
    shared(alloc, LoadedSection::strict(alloc, section, None))
}

/// Reads the section whose bytes stand at an address. The bytes are copied.
#[unsafe(no_mangle)]
pub extern "C" fn frames_c_read(
    alloc: Global,
    address: u64,
    bytes: &[u8],
    refusal: &mut FramesRefusal,
    out: &mut SectionHandle,
) -> bool
    requires out { LeadsNowhere out.old.held }
    ensures section { result ≡ true → LeadsToLoaded address bytes.now out.new.held }
    ensures sound { result ≡ true → HasNothingRefused out.new.held }
    ensures table { result ≡ true → HasNoTable out.new.held }
    ensures unrefused { result ≡ true → refusal.new ≡ refusal.old }
    ensures refusal { result ≡ false → IsToldRefusal address bytes.now refusal.new }
    ensures nothing { result ≡ false → LeadsNowhere out.new.held }
{
    match load(alloc, address, bytes) {
        Ok(share) => {
            *out = SectionHandle::of(share);
            true
        }
        Err(fault) => refuse(fault, refusal),
    }
}

/// The section of the sound records of these bytes, beside those that are refused.
fn load_sound(
    alloc: Global,
    address: u64,
    bytes: &[u8],
) -> Result<Box<Shared<LoadedSection>, Global>, LoadFault>
    ensures loaded { IfOk result
        (λ share. share.value ≡ loaded_with (sound_section address bytes.now) None) }
    ensures short { IfOk result (λ _. length bytes.now < 2 ^ 32) }
    ensures fault { IfErr result (IsUnread bytes.now) }
{
    if bytes.len() > u32::MAX as usize {
        return Err(LoadFault::Long);
    }
    match SoundSection::read(alloc, address, bytes) {
        Ok(sound) => shared(alloc, LoadedSection::new(sound, None)),
        Err(_) => Err(LoadFault::Frames(FrameFault::NoMemory)),
    }
}

/// Reads the section whose bytes stand at an address so that a bad record costs itself alone, and a
/// bad CIE those that lead to it. Where there is a section, what was refused in it is told.
#[unsafe(no_mangle)]
pub extern "C" fn frames_c_read_sound(
    alloc: Global,
    address: u64,
    bytes: &[u8],
    refusal: &mut FramesRefusal,
    told: &mut FramesRefused,
    out: &mut SectionHandle,
) -> bool
    requires out { LeadsNowhere out.old.held }
    ensures section { result ≡ true → LeadsToSound address bytes.now out.new.held }
    ensures refused { result ≡ true
        → told.new ≡ refusals_told (refused_in (items_of address bytes.now)) }
    ensures unrefused { result ≡ true → refusal.new ≡ refusal.old }
    ensures refusal { result ≡ false → IsToldUnread bytes.now refusal.new }
    ensures untold { result ≡ false → told.new ≡ told.old }
    ensures nothing { result ≡ false → LeadsNowhere out.new.held }
{
    match load_sound(alloc, address, bytes) {
        Ok(share) => {
            *told = FramesRefused::of(share.get().refused());
            *out = SectionHandle::of(share);
            true
        }
        Err(fault) => refuse(fault, refusal),
    }
}

/// How many FDEs a section has.
#[unsafe(no_mangle)]
pub extern "C" fn frames_c_count(
    alloc: Global,
    section: SectionHandle,
    back: &mut SectionHandle,
) -> usize
    requires held { LeadsSomewhere section.held }
    requires back { LeadsNowhere back.old.held }
    ensures back { back.new.held ≡ section.held }
    ensures count { result ≡ length (held_section section.held).fdes }
{
    let share = section.open(alloc);
    let count = share.get().section().count();
    *back = SectionHandle::of(share);
    count
}
