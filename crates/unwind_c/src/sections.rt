//! Sections are registered, given up and moved.

ghost use Rattle.std.specs.Prelude.{IsSomeAnd};
ghost use Rattle.c_handle.specs.Handles.{HandsBack, LeadsNowhere, LeadsSomewhere};
ghost use Rattle.fde_writer.specs.Outcomes.{IsDeregistration};
ghost use Rattle.unwind_c.specs.Answers.{RegistersBytes, TellsMove, TellsSection, bytes_told};
ghost use Rattle.unwind_c.specs.Answers.{deregistration_told};

use crate::handles::FdeWriterHandle;
use crate::outcome::SectionOutcome;
use crate::reach::AddressReach;
use crate::told::UnwindTold;
use c_sections::{LoadFault, read_section};
use fde_writer::{FdeWriter, Registration};
use std::alloc::Global;

/// What C gives with a section's bytes: the key under which it is to stand, the program's own note,
/// and where the bytes stand.
#[derive(Clone, Copy)]
struct Given {
    key: u64,
    note: u64,
    address: u64,
}

/// Registers the section of bytes.
fn register(
    writer: &mut FdeWriter,
    alloc: Global,
    given: &Given,
    bytes: &[u8],
) -> Result<SectionOutcome, LoadFault>
    ensures { RegistersBytes given.now.key given.now.note given.now.address bytes.now writer.old
        writer.new result }
{
    let section = match read_section(alloc, given.address, bytes) {
        Ok(section) => section,
        Err(fault) => return Err(fault),
    };
    let reach = AddressReach::of(&section);
    let answer = writer.register(given.key, given.note, &section);
    Ok(SectionOutcome { answer, reach })
}

/// Registers the section whose bytes stand at an address, all of its FDEs that have addresses or
/// none, under a key and with a note of the program's own.
#[unsafe(no_mangle)]
pub extern "C" fn unwind_c_register(
    alloc: Global,
    writer: FdeWriterHandle,
    key: u64,
    note: u64,
    address: u64,
    bytes: &[u8],
    told: &mut UnwindTold,
    back: &mut FdeWriterHandle,
)
    requires writer { LeadsSomewhere writer.held }
    requires back { LeadsNowhere back.old.held }
    ensures { HandsBack (TellsSection (RegistersBytes key note address bytes.now) bytes_told
        told.new) writer.held back.new.held }
{
    let given = Given { key, note, address };
    let mut open = writer.open(alloc);
    *told = UnwindTold::of_bytes(register(&mut open, alloc, &given, bytes));
    *back = FdeWriterHandle::of(open);
}

/// Gives up the section that was registered last under a key.
#[unsafe(no_mangle)]
pub extern "C" fn unwind_c_deregister(
    alloc: Global,
    writer: FdeWriterHandle,
    key: u64,
    told: &mut UnwindTold,
    back: &mut FdeWriterHandle,
)
    requires writer { LeadsSomewhere writer.held }
    requires back { LeadsNowhere back.old.held }
    ensures { HandsBack (TellsSection (IsDeregistration key) deregistration_told told.new)
        writer.held back.new.held }
{
    let mut open = writer.open(alloc);
    *told = UnwindTold::of_deregistration(open.deregister(key));
    *back = FdeWriterHandle::of(open);
}

/// Moves the section that was registered last under a key to another library, where it then stands
/// under the same key.
#[unsafe(no_mangle)]
pub extern "C" fn unwind_c_move(
    alloc: Global,
    writer: FdeWriterHandle,
    into: FdeWriterHandle,
    key: u64,
    told: &mut UnwindTold,
    back: &mut FdeWriterHandle,
    into_back: &mut FdeWriterHandle,
)
    requires writer { LeadsSomewhere writer.held }
    requires back { LeadsNowhere back.old.held }
    requires into { LeadsSomewhere into.held }
    requires into_back { LeadsNowhere into_back.old.held }
    ensures { IsSomeAnd into.held (λ v. IsSomeAnd into_back.new.held
        (λ v'. HandsBack (TellsMove key v v' told.new) writer.held back.new.held)) }
{
    let mut open = writer.open(alloc);
    let mut other = into.open(alloc);
    *told = UnwindTold::of_moving(open.move_to(&mut other, key));
    *back = FdeWriterHandle::of(open);
    *into_back = FdeWriterHandle::of(other);
}
