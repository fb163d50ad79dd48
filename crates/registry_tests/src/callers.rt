//! A registry with two callers, and whether one is answered so.

ghost use Rattle.std.specs.Prelude.{◌≡◌, ◌<◌, ◌≤◌, IfSome, None};
ghost use Rattle.word_rule.specs.CallerData.{surplus};
ghost use Rattle.word_rule.specs.Callers.{IsIdle};

use reg_model::{Found, Inserted, Loading, Member, Place, Removed, Replaced, Span};
use registry_core::Registry;
use std::alloc::Global;
use std::sync::Wait;
use word_rule::Caller;

// So many addresses from a base on, with a payload.
pub(crate) fn member(base: u64, size: u64, payload: u32) -> Option<Member>
    ensures { IfSome result (λ m. m.payload ≡ payload) }
{
    let span = Span::new(base, size)?;
    Some(Member { span, payload })
}

// The member that tests begin with, at another base: its payload is the only one that there is.
pub(crate) fn range(base: u64) -> Option<Member>
    ensures { IfSome result (λ m. m.payload ≡ 0) }
{
    member(base, 0x20, 0)
}

// A registry of sixteen nodes, its first caller, and one with so many update calls.
pub(crate) fn two_callers(alloc: Global, calls: u32) -> Option<(Registry, Caller, Caller)>
    requires { calls ≤ 8 }
    ensures terms { IfSome result (λ made. (made.0.terms.payloads ≡ 9)
        × (made.0.terms.nodes ≡ 16)) }
    ensures tables { IfSome result (λ made. (made.1.table ≡ made.0.table)
        × (made.2.table ≡ made.0.table)) }
    ensures idle { IfSome result (λ made. IsIdle made.1.log × IsIdle made.2.log) }
    ensures spare { IfSome result (λ made. 0 < surplus made.1) }
{
    let (registry, mut first) = Registry::new(alloc, 16, 9, 9, Vec::new(alloc)).ok()?;
    let other = registry.words().split(&mut first, calls).ok()?;
    Some((registry, first, other))
}

// The stamp of the registered half's miss, and the payload and stamp of the loader's hit.
pub(crate) fn loaded(place: Place) -> Option<(u32, u32, u32)> {
    match (place.registered, place.loaded) {
        (Found::Miss { stamp }, Some(Found::Hit { member, stamp: at })) => {
            Some((stamp, member.payload, at))
        }
        _ => None,
    }
}

// An update call, and what it is to answer.
#[derive(Clone, Copy)]
pub(crate) enum Wanted {
    Registers(Inserted),
    Deregisters(Removed),
    Replaces(Replaced),
    Loads(Loading),
    Unloads(Removed),
}

// Whether a caller's call is answered so, of a member or of the one at its first address.
pub(crate) fn answers<R: Wait>(
    rt: &R,
    registry: &Registry,
    me: &mut Caller,
    told: &Member,
    wanted: Wanted,
) -> bool
    requires table { me.old.table ≡ registry.now.table }
    requires idle { IsIdle me.old.log }
    requires payload { told.now.payload < registry.now.terms.payloads }
    ensures table { me.new.table ≡ me.old.table }
    ensures idle { IsIdle me.new.log }
{
    let base = told.span.first();
    match wanted {
        Wanted::Registers(answer) => registry.register(rt, me, *told) == answer,
        Wanted::Deregisters(answer) => registry.deregister(rt, me, base) == answer,
        Wanted::Replaces(answer) => registry.replace(rt, me, *told) == answer,
        Wanted::Loads(answer) => registry.load(rt, me, *told) == answer,
        Wanted::Unloads(answer) => registry.unload(rt, me, base) == answer,
    }
}

// Whether a caller finds this at an address.
pub(crate) fn is_found<R: Wait>(
    rt: &R,
    registry: &Registry,
    me: &mut Caller,
    pc: u64,
    wanted: Place,
) -> bool
    requires table { me.old.table ≡ registry.now.table }
    requires idle { IsIdle me.old.log }
    ensures table { me.new.table ≡ me.old.table }
    ensures idle { IsIdle me.new.log }
{
    registry.find(rt, me, pc) == wanted
}

// Neither half has the address.
pub(crate) fn nowhere(stamp: u32) -> Place {
    Place {
        registered: Found::Miss { stamp },
        loaded: Some(Found::Miss { stamp }),
    }
}
