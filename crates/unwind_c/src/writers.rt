//! Libraries are made and dropped.

ghost use Rattle.std.specs.Prelude.{◌≡◌, IsSomeAnd, MatchResult, Ok, Err};
ghost use Rattle.c_handle.specs.Handles.{LeadsNowhere, LeadsSomewhere};
ghost use Rattle.fde_writer.specs.Sections.{members_due};
ghost use Rattle.unwind_c.specs.Limits.{IsNewLibrary, TellsNewLibrary};

use crate::handles::FdeWriterHandle;
use crate::limits::{NewFault, UnwindLimits};
use c_handle::check_size;
use fde_writer::FdeWriter;
use std::alloc::Global;

/// The writer of a new library.
fn new_writer(alloc: Global, limits: &UnwindLimits) -> Result<Box<FdeWriter, Global>, NewFault>
    ensures { MatchResult result (λ writer. IsNewLibrary limits.now (Ok writer.value))
        (λ fault. IsNewLibrary limits.now (Err fault)) }
{
    match check_size(limits.nodes, limits.loads) {
        Ok(()) => {}
        Err(fault) => return Err(NewFault::Size(fault)),
    }
    let Ok(writer) = FdeWriter::new(alloc, limits.nodes, limits.loads, limits.low) else {
        return Err(NewFault::NoMemory);
    };
    match Box::new(alloc, writer) {
        Ok(writer) => Ok(writer),
        Err(_) => Err(NewFault::NoMemory),
    }
}

/// Makes a library without sections, and its writer. What came of it: 0 that `out` has it, 1 that
/// memory ran out, 2 that there may not be so many nodes, 3 not so many loads.
#[unsafe(no_mangle)]
pub extern "C" fn unwind_c_new(
    alloc: Global,
    limits: &UnwindLimits,
    out: &mut FdeWriterHandle,
) -> u64
    requires out { LeadsNowhere out.old.held }
    ensures { TellsNewLibrary limits.now result out.new.held }
{
    match new_writer(alloc, limits) {
        Ok(writer) => {
            *out = FdeWriterHandle::of(writer);
            0
        }
        Err(NewFault::NoMemory) => 1,
        Err(NewFault::Size(fault)) => fault.told(),
    }
}

/// How many update calls are left.
#[unsafe(no_mangle)]
pub extern "C" fn unwind_c_left(
    alloc: Global,
    writer: FdeWriterHandle,
    back: &mut FdeWriterHandle,
) -> u32
    requires writer { LeadsSomewhere writer.held }
    requires back { LeadsNowhere back.old.held }
    ensures left { IsSomeAnd writer.held (λ u. result ≡ u.client.me.left) }
    ensures back { back.new.held ≡ writer.held }
{
    let open = writer.open(alloc);
    let left = open.left();
    *back = FdeWriterHandle::of(open);
    left
}

/// How many of them are due to what stands: one for each range.
#[unsafe(no_mangle)]
pub extern "C" fn unwind_c_due(
    alloc: Global,
    writer: FdeWriterHandle,
    back: &mut FdeWriterHandle,
) -> u32
    requires writer { LeadsSomewhere writer.held }
    requires back { LeadsNowhere back.old.held }
    ensures due { IsSomeAnd writer.held (λ u. result ≡ members_due u) }
    ensures back { back.new.held ≡ writer.held }
{
    let open = writer.open(alloc);
    let due = open.due();
    *back = FdeWriterHandle::of(open);
    due
}

/// Frees a writer, and the library with the last of it and its readers.
#[unsafe(no_mangle)]
pub extern "C" fn unwind_c_drop(alloc: Global, writer: FdeWriterHandle)
    requires { LeadsSomewhere writer.held }
{
    drop(writer.open(alloc));
}
