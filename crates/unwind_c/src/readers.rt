//! Readers are made, look up, and are dropped.

ghost use Rattle.std.specs.Prelude.{◌≡◌, IsSomeAnd, length};
ghost use Rattle.c_handle.specs.Handles.{HandsBack, LeadsNowhere, LeadsSomewhere};
ghost use Rattle.unwind_c.specs.Finds.{TellsFde};
ghost use Rattle.unwind_c.specs.Readers.{MakesFdeReaderAgain};
ghost use Rattle.unwind_c.specs.Writers.{MakesFdeReader};

use crate::found::UnwindFound;
use crate::handles::{FdeReaderHandle, FdeWriterHandle};
use fde_reader::FdeReader;
use fde_writer::FdeWriter;
use std::alloc::Global;

fn make_reader(writer: &mut FdeWriter, alloc: Global, out: &mut FdeReaderHandle) -> bool
    requires { LeadsNowhere out.old.held }
    ensures { MakesFdeReader result out.new.held writer.old writer.new }
{
    let Ok(registry) = writer.share() else {
        return false;
    };
    let me = writer.reader();
    let reader = FdeReader::of(registry, me, writer.low());
    match Box::new(alloc, reader) {
        Ok(reader) => {
            *out = FdeReaderHandle::of(reader);
            true
        }
        Err(_) => false,
    }
}

fn make_another(reader: &mut FdeReader, alloc: Global, out: &mut FdeReaderHandle) -> bool
    requires { LeadsNowhere out.old.held }
    ensures { MakesFdeReaderAgain result out.new.held reader.old reader.new }
{
    let Ok(other) = reader.another() else {
        return false;
    };
    match Box::new(alloc, other) {
        Ok(other) => {
            *out = FdeReaderHandle::of(other);
            true
        }
        Err(_) => false,
    }
}

/// Makes a reader that has seen what the writer has, which stays as it was. Whether `out` has it:
/// it hasn't where memory ran out.
#[unsafe(no_mangle)]
pub extern "C" fn unwind_c_reader(
    alloc: Global,
    writer: FdeWriterHandle,
    out: &mut FdeReaderHandle,
    back: &mut FdeWriterHandle,
) -> bool
    requires writer { LeadsSomewhere writer.held }
    requires back { LeadsNowhere back.old.held }
    requires out { LeadsNowhere out.old.held }
    ensures { HandsBack (MakesFdeReader result out.new.held) writer.held back.new.held }
{
    let mut open = writer.open(alloc);
    let made = make_reader(&mut open, alloc, out);
    *back = FdeWriterHandle::of(open);
    made
}

/// Makes another reader, which has seen what one has. Whether `out` has it: it hasn't where memory
/// ran out.
#[unsafe(no_mangle)]
pub extern "C" fn unwind_c_reader_again(
    alloc: Global,
    reader: FdeReaderHandle,
    out: &mut FdeReaderHandle,
    back: &mut FdeReaderHandle,
) -> bool
    requires reader { LeadsSomewhere reader.held }
    requires back { LeadsNowhere back.old.held }
    requires out { LeadsNowhere out.old.held }
    ensures { HandsBack (MakesFdeReaderAgain result out.new.held) reader.held back.new.held }
{
    let mut open = reader.open(alloc);
    let made = make_another(&mut open, alloc, out);
    *back = FdeReaderHandle::of(open);
    made
}

/// Frees a reader, and the registry with the last of its writer and readers. Tells how many updates
/// it had seen.
#[unsafe(no_mangle)]
pub extern "C" fn unwind_c_reader_drop(alloc: Global, reader: FdeReaderHandle) -> u32
    requires { LeadsSomewhere reader.held }
    ensures { IsSomeAnd reader.held (λ r. result ≡ length r.me.log.past) }
{
    let open = reader.open(alloc);
    open.seen()
}

/// Looks an address up once in the registered half, and where that misses, once in the loaded one.
#[unsafe(no_mangle)]
pub extern "C" fn unwind_c_find(
    alloc: Global,
    reader: FdeReaderHandle,
    pc: u64,
    found: &mut UnwindFound,
    back: &mut FdeReaderHandle,
)
    requires reader { LeadsSomewhere reader.held }
    requires back { LeadsNowhere back.old.held }
    ensures { HandsBack (TellsFde pc found.new) reader.held back.new.held }
{
    let mut open = reader.open(alloc);
    *found = UnwindFound::of(open.find(pc));
    *back = FdeReaderHandle::of(open);
}
