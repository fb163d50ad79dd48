//! Readers are made and dropped, and look up.

ghost use Rattle.std.specs.Prelude.{◌≡◌, IsSomeAnd, length};
ghost use Rattle.c_handle.specs.Handles.{HandsBack, LeadsNowhere, LeadsSomewhere};
ghost use Rattle.registry_client.specs.Finds.{TellsFind, found_told, place_told};
ghost use Rattle.registry_client.specs.Readers.{MakesAnother, MakesReader};
ghost use Rattle.registry_client.specs.Readers.{ReaderAsksLoaded, ReaderAsksRegistered};
ghost use Rattle.registry_client.specs.Readers.{ReaderFinds};

use crate::handles::{ClientHandle, ReaderHandle};
use registry_client::{Client, RegistryFound, RegistryPlace, RegistryReader};
use std::alloc::Global;

/// Makes a reader of a client, and writes its handle, where there is one.
fn make_reader(client: &mut Client, alloc: Global, out: &mut ReaderHandle) -> bool
    requires { LeadsNowhere out.old.held }
    ensures { MakesReader result out.new.held client.old client.new }
{
    match client.reader(alloc) {
        Ok(reader) => {
            *out = ReaderHandle::of(reader);
            true
        }
        Err(_) => false,
    }
}

fn make_another(reader: &mut RegistryReader, alloc: Global, out: &mut ReaderHandle) -> bool
    requires { LeadsNowhere out.old.held }
    ensures { MakesAnother result out.new.held reader.old reader.new }
{
    match reader.another(alloc) {
        Ok(other) => {
            *out = ReaderHandle::of(other);
            true
        }
        Err(_) => false,
    }
}

/// Makes a reader that has seen what a client has, which stays as it was. Whether `out` has it: it
/// hasn't where memory ran out.
#[unsafe(no_mangle)]
pub extern "C" fn registry_c_reader(
    alloc: Global,
    client: ClientHandle,
    out: &mut ReaderHandle,
    back: &mut ClientHandle,
) -> bool
    requires client { LeadsSomewhere client.held }
    requires back { LeadsNowhere back.old.held }
    requires out { LeadsNowhere out.old.held }
    ensures { HandsBack (MakesReader result out.new.held) client.held back.new.held }
{
    let mut open = client.open(alloc);
    let made = make_reader(&mut open, alloc, out);
    *back = ClientHandle::of(open);
    made
}

/// Makes another reader, which has seen what one has. Whether `out` has it: it hasn't where memory
/// ran out.
#[unsafe(no_mangle)]
pub extern "C" fn registry_c_reader_again(
    alloc: Global,
    reader: ReaderHandle,
    out: &mut ReaderHandle,
    back: &mut ReaderHandle,
) -> bool
    requires reader { LeadsSomewhere reader.held }
    requires back { LeadsNowhere back.old.held }
    requires out { LeadsNowhere out.old.held }
    ensures { HandsBack (MakesAnother result out.new.held) reader.held back.new.held }
{
    let mut open = reader.open(alloc);
    let made = make_another(&mut open, alloc, out);
    *back = ReaderHandle::of(open);
    made
}

/// Frees a reader, and the registry with the last of its clients and readers. Tells how many
/// updates it had seen.
#[unsafe(no_mangle)]
pub extern "C" fn registry_c_reader_drop(alloc: Global, reader: ReaderHandle) -> u32
    requires { LeadsSomewhere reader.held }
    ensures { IsSomeAnd reader.held (λ r. result ≡ length r.me.log.past) }
{
    let open = reader.open(alloc);
    open.seen()
}

/// Looks an address up once among the registered members: a miss or a hit at a stamp, or again
/// where the tree was changed or locked on the way.
#[unsafe(no_mangle)]
pub extern "C" fn registry_c_reader_try_registered(
    alloc: Global,
    reader: ReaderHandle,
    pc: u64,
    found: &mut RegistryFound,
    back: &mut ReaderHandle,
)
    requires reader { LeadsSomewhere reader.held }
    requires back { LeadsNowhere back.old.held }
    ensures { HandsBack (TellsFind ReaderAsksRegistered found_told pc found.new) reader.held
        back.new.held }
{
    let mut open = reader.open(alloc);
    *found = RegistryFound::of(open.try_registered(pc));
    *back = ReaderHandle::of(open);
}

/// Looks an address up once among the fixed and the loaded members: a miss or a hit at a stamp, or
/// again where the loader published meanwhile.
#[unsafe(no_mangle)]
pub extern "C" fn registry_c_reader_try_loaded(
    alloc: Global,
    reader: ReaderHandle,
    pc: u64,
    found: &mut RegistryFound,
    back: &mut ReaderHandle,
)
    requires reader { LeadsSomewhere reader.held }
    requires back { LeadsNowhere back.old.held }
    ensures { HandsBack (TellsFind ReaderAsksLoaded found_told pc found.new) reader.held
        back.new.held }
{
    let mut open = reader.open(alloc);
    *found = RegistryFound::of(open.try_loaded(pc));
    *back = ReaderHandle::of(open);
}

/// Looks an address up once among the registered members, and where none has it once among the
/// fixed and the loaded ones.
#[unsafe(no_mangle)]
pub extern "C" fn registry_c_reader_find(
    alloc: Global,
    reader: ReaderHandle,
    pc: u64,
    place: &mut RegistryPlace,
    back: &mut ReaderHandle,
)
    requires reader { LeadsSomewhere reader.held }
    requires back { LeadsNowhere back.old.held }
    ensures { HandsBack (TellsFind ReaderFinds place_told pc place.new) reader.held back.new.held }
{
    let mut open = reader.open(alloc);
    *place = RegistryPlace::of(open.find(pc));
    *back = ReaderHandle::of(open);
}
