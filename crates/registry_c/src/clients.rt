//! Clients are made, split off, joined and closed; and what one has left and has seen.

ghost use Rattle.std.specs.Prelude.{◌≡◌, ◌↔◌, IfSome, IsSomeAnd, length, true};
ghost use Rattle.word_rule.specs.Callers.{IsAlone};
ghost use Rattle.registry_core.specs.Rounds.{IsWholeWhereAlone};
ghost use Rattle.c_handle.specs.Handles.{HandsBack, LeadsNowhere, LeadsSomewhere};
ghost use Rattle.registry_client.specs.Limits.{TellsNew};
ghost use Rattle.registry_client.specs.Splits.{Joins, ShareByName, TellsJoin, TellsSplit};

use crate::handles::ClientHandle;
use registry_client::{Client, JoinAnswer, RegistryLimits, RegistryMember, SplitFault};
use std::alloc::Global;

/// Makes a registry, with members that are there for good, and its first client. What came of it: 0
/// that `out` has it, 1 that memory ran out, 2 that there may not be so many nodes, 3 not so many
/// loads, 4 that the fixed members aren't members, each above the one before.
#[unsafe(no_mangle)]
pub extern "C" fn registry_c_new(
    alloc: Global,
    limits: &RegistryLimits,
    fixed: &[RegistryMember],
    out: &mut ClientHandle,
) -> u64
    requires out { LeadsNowhere out.old.held }
    ensures { TellsNew limits.now fixed.now result out.new.held }
{
    match Client::new(alloc, limits, fixed) {
        Ok(client) => {
            *out = ClientHandle::of(client);
            0
        }
        Err(fault) => fault.told(),
    }
}

/// Splits off a client, and writes its handle, where there is one.
fn split(client: &mut Client, alloc: Global, give: u32, out: &mut ClientHandle) -> u64
    requires { LeadsNowhere out.old.held }
    ensures { TellsSplit give result out.new.held client.old client.new }
{
    match client.split(alloc, give) {
        Ok(other) => {
            *out = ClientHandle::of(other);
            0
        }
        Err(SplitFault::NoMemory) => 1,
        Err(SplitFault::Few) => 2,
    }
}

/// Splits off a client with so many of the update calls. What came of it: 0 that `out` has it, 1
/// that memory ran out, 2 that fewer are left.
#[unsafe(no_mangle)]
pub extern "C" fn registry_c_split(
    alloc: Global,
    client: ClientHandle,
    give: u32,
    out: &mut ClientHandle,
    back: &mut ClientHandle,
) -> u64
    requires client { LeadsSomewhere client.held }
    requires back { LeadsNowhere back.old.held }
    requires out { LeadsNowhere out.old.held }
    ensures { HandsBack (TellsSplit give result out.new.held) client.held back.new.held }
{
    let mut open = client.open(alloc);
    let told = split(&mut open, alloc, give, out);
    *back = ClientHandle::of(open);
    told
}

/// Joins another client, where its registry has the same name, and writes the handle of one that
/// comes back.
fn join(
    client: &mut Client,
    alloc: Global,
    other: Box<Client, Global>,
    back: &mut ClientHandle,
) -> JoinAnswer
    requires same { ShareByName other.value client.old }
    requires back { LeadsNowhere back.old.held }
    ensures { Joins other.value client.old client.new result back.new.held }
{
    if !client.has_name_of(&other) {
        *back = ClientHandle::of(other);
        return JoinAnswer::OtherRegistry;
    }
    match client.join(alloc, other) {
        Ok(()) => JoinAnswer::Joined,
        Err(Some(other)) => {
            *back = ClientHandle::of(other);
            JoinAnswer::NoMemoryToJoin
        }
        Err(None) => JoinAnswer::NoMemoryToJoin,
    }
}

/// Joins another client of the same registry into one. What came of it: 0 that it was joined; 1
/// that memory ran out, and then `other_back` has it again, or nothing, where it is lost; 2 that
/// its registry has another name, and then `other_back` has it again.
#[unsafe(no_mangle)]
pub extern "C" fn registry_c_join(
    alloc: Global,
    client: ClientHandle,
    other: ClientHandle,
    back: &mut ClientHandle,
    other_back: &mut ClientHandle,
) -> u64
    requires client { LeadsSomewhere client.held }
    requires back { LeadsNowhere back.old.held }
    requires other { LeadsSomewhere other.held }
    requires other_back { LeadsNowhere other_back.old.held }
    requires same { IfSome client.held (λ c. IfSome other.held (λ o. ShareByName o c)) }
    ensures { IsSomeAnd other.held
        (λ o. HandsBack (TellsJoin o result other_back.new.held) client.held back.new.held) }
{
    let mut open = client.open(alloc);
    let other = other.open(alloc);
    let answer = join(&mut open, alloc, other, other_back);
    *back = ClientHandle::of(open);
    answer.told()
}

/// Frees a client, and the registry with its last one. Tells how many updates it had seen, and
/// whether every other client was joined into it: then it has seen all that were accepted.
#[unsafe(no_mangle)]
pub extern "C" fn registry_c_close(alloc: Global, client: ClientHandle, seen: &mut u32) -> bool
    requires client { LeadsSomewhere client.held }
    ensures seen { IsSomeAnd client.held (λ c. seen.new ≡ length c.me.log.past) }
    ensures alone { IsSomeAnd client.held (λ c. (result ≡ true) ↔ IsAlone c.me.log.lineage) }
    ensures whole { IsSomeAnd client.held (λ c. IsWholeWhereAlone c.me.log) }
{
    let mut open = client.open(alloc);
    open.confirm();
    *seen = open.seen();
    open.alone()
}

/// How many update calls a client may still begin.
#[unsafe(no_mangle)]
pub extern "C" fn registry_c_left(
    alloc: Global,
    client: ClientHandle,
    back: &mut ClientHandle,
) -> u32
    requires client { LeadsSomewhere client.held }
    requires back { LeadsNowhere back.old.held }
    ensures left { IsSomeAnd client.held (λ c. result ≡ c.me.left) }
    ensures back { back.new.held ≡ client.held }
{
    let open = client.open(alloc);
    let left = open.left();
    *back = ClientHandle::of(open);
    left
}

/// How many updates a client has seen.
#[unsafe(no_mangle)]
pub extern "C" fn registry_c_seen(
    alloc: Global,
    client: ClientHandle,
    back: &mut ClientHandle,
) -> u32
    requires client { LeadsSomewhere client.held }
    requires back { LeadsNowhere back.old.held }
    ensures seen { IsSomeAnd client.held (λ c. result ≡ length c.me.log.past) }
    ensures back { back.new.held ≡ client.held }
{
    let open = client.open(alloc);
    let seen = open.seen();
    *back = ClientHandle::of(open);
    seen
}
