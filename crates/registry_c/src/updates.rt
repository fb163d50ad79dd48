//! Tries of updates. Each takes locks by one step or not at all, and wakes nobody.

ghost use Rattle.c_handle.specs.Handles.{HandsBack, LeadsNowhere, LeadsSomewhere};
ghost use Rattle.registry_client.specs.Answers.{TellsAttempt, insertion_told, loading_told};
ghost use Rattle.registry_client.specs.Answers.{removal_told, replacement_told};
ghost use Rattle.registry_client.specs.Updates.{Deregisters, Loads, Registers, Replaces, Unloads};

use crate::handles::ClientHandle;
use registry_client::{RegistryAnswer, RegistryMember};
use std::alloc::Global;

/// Tries to register a member.
#[unsafe(no_mangle)]
pub extern "C" fn registry_c_register(
    alloc: Global,
    client: ClientHandle,
    member: &RegistryMember,
    answer: &mut RegistryAnswer,
    back: &mut ClientHandle,
)
    requires client { LeadsSomewhere client.held }
    requires back { LeadsNowhere back.old.held }
    ensures { HandsBack (TellsAttempt (Registers member.now) insertion_told answer.new) client.held
        back.new.held }
{
    let mut open = client.open(alloc);
    *answer = RegistryAnswer::of_insertion(open.register(member).answer());
    *back = ClientHandle::of(open);
}

/// Tries to remove the registered member that begins at an address.
#[unsafe(no_mangle)]
pub extern "C" fn registry_c_deregister(
    alloc: Global,
    client: ClientHandle,
    base: u64,
    answer: &mut RegistryAnswer,
    back: &mut ClientHandle,
)
    requires client { LeadsSomewhere client.held }
    requires back { LeadsNowhere back.old.held }
    ensures { HandsBack (TellsAttempt (Deregisters base) removal_told answer.new) client.held
        back.new.held }
{
    let mut open = client.open(alloc);
    *answer = RegistryAnswer::of_removal(open.deregister(base).answer());
    *back = ClientHandle::of(open);
}

/// Tries to give the registered member of a span another payload.
#[unsafe(no_mangle)]
pub extern "C" fn registry_c_replace(
    alloc: Global,
    client: ClientHandle,
    member: &RegistryMember,
    answer: &mut RegistryAnswer,
    back: &mut ClientHandle,
)
    requires client { LeadsSomewhere client.held }
    requires back { LeadsNowhere back.old.held }
    ensures { HandsBack
        (TellsAttempt (Replaces member.now) (replacement_told member.now) answer.new)
        client.held back.new.held }
{
    let mut open = client.open(alloc);
    *answer = RegistryAnswer::of_replacement(member, open.replace(member).answer());
    *back = ClientHandle::of(open);
}

/// Tries to load a member.
#[unsafe(no_mangle)]
pub extern "C" fn registry_c_load(
    alloc: Global,
    client: ClientHandle,
    member: &RegistryMember,
    answer: &mut RegistryAnswer,
    back: &mut ClientHandle,
)
    requires client { LeadsSomewhere client.held }
    requires back { LeadsNowhere back.old.held }
    ensures { HandsBack (TellsAttempt (Loads member.now) loading_told answer.new) client.held
        back.new.held }
{
    let mut open = client.open(alloc);
    *answer = RegistryAnswer::of_load(open.load(member).answer());
    *back = ClientHandle::of(open);
}

/// Tries to unload the loaded member that begins at an address.
#[unsafe(no_mangle)]
pub extern "C" fn registry_c_unload(
    alloc: Global,
    client: ClientHandle,
    base: u64,
    answer: &mut RegistryAnswer,
    back: &mut ClientHandle,
)
    requires client { LeadsSomewhere client.held }
    requires back { LeadsNowhere back.old.held }
    ensures { HandsBack (TellsAttempt (Unloads base) removal_told answer.new) client.held
        back.new.held }
{
    let mut open = client.open(alloc);
    *answer = RegistryAnswer::of_removal(open.unload(base).answer());
    *back = ClientHandle::of(open);
}
