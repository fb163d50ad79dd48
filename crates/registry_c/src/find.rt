//! Lookups: each is one try, takes no lock, counts no share, and stores nothing that is shared.

ghost use Rattle.c_handle.specs.Handles.{HandsBack, LeadsNowhere, LeadsSomewhere};
ghost use Rattle.registry_client.specs.Finds.{AsksLoaded, AsksRegistered, FindsOnce, TellsFind};
ghost use Rattle.registry_client.specs.Finds.{found_told, place_told};
ghost use Rattle.registry_client.specs.declared.find.LookupBy.{LookupBy};

use crate::handles::ClientHandle;
use registry_client::{LookupBy, RegistryFound, RegistryPlace};
use std::alloc::Global;

/// Looks an address up once among the registered members: a miss or a hit at a stamp, or again
/// where the tree was changed or locked on the way.
#[unsafe(no_mangle)]
pub extern "C" fn registry_c_try_registered(
    alloc: Global,
    client: ClientHandle,
    pc: u64,
    found: &mut RegistryFound,
    back: &mut ClientHandle,
)
    requires client { LeadsSomewhere client.held }
    requires back { LeadsNowhere back.old.held }
    ensures { HandsBack (TellsFind AsksRegistered found_told pc found.new) client.held
        back.new.held }
{
    let mut open = client.open(alloc);
    *found = RegistryFound::of(open.try_registered(pc));
    *back = ClientHandle::of(open);
}

/// Looks an address up once among the fixed and the loaded members: a miss or a hit at a stamp, or
/// again where the loader published meanwhile.
#[unsafe(no_mangle)]
pub extern "C" fn registry_c_try_loaded(
    alloc: Global,
    client: ClientHandle,
    pc: u64,
    found: &mut RegistryFound,
    back: &mut ClientHandle,
)
    requires client { LeadsSomewhere client.held }
    requires back { LeadsNowhere back.old.held }
    ensures { HandsBack (TellsFind AsksLoaded found_told pc found.new) client.held back.new.held }
{
    let mut open = client.open(alloc);
    *found = RegistryFound::of(open.try_loaded(pc));
    *back = ClientHandle::of(open);
}

/// Looks an address up once among the registered members, and where none has it once among the
/// fixed and the loaded ones.
#[unsafe(no_mangle)]
pub extern "C" fn registry_c_find(
    alloc: Global,
    client: ClientHandle,
    pc: u64,
    place: &mut RegistryPlace,
    back: &mut ClientHandle,
)
    requires client { LeadsSomewhere client.held }
    requires back { LeadsNowhere back.old.held }
    ensures { HandsBack (TellsFind (FindsOnce LookupBy.Tables) place_told pc place.new) client.held
        back.new.held }
{
    let mut open = client.open(alloc);
    *place = RegistryPlace::of(open.find(LookupBy::Tables, pc));
    *back = ClientHandle::of(open);
}

/// As `registry_c_find`, but each half is asked by the client's last eight hits in it first: where
/// nothing was accepted since they were found, one that has the address is the answer, by one load.
#[unsafe(no_mangle)]
pub extern "C" fn registry_c_find_cached(
    alloc: Global,
    client: ClientHandle,
    pc: u64,
    place: &mut RegistryPlace,
    back: &mut ClientHandle,
)
    requires client { LeadsSomewhere client.held }
    requires back { LeadsNowhere back.old.held }
    ensures { HandsBack (TellsFind (FindsOnce LookupBy.Caches) place_told pc place.new) client.held
        back.new.held }
{
    let mut open = client.open(alloc);
    *place = RegistryPlace::of(open.find(LookupBy::Caches, pc));
    *back = ClientHandle::of(open);
}
