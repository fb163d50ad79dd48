//! Tries beside a lock that is taken: each is Busy, and done behind it.

ghost use Rattle.std.specs.Prelude.{◌≡◌, ◌<◌, ◌≤◌, IsTrue};
ghost use Rattle.word_rule.specs.Callers.{IsIdle};
ghost use Rattle.word_rule.specs.CallerData.{due, surplus};
ghost use Rattle.word_rule.specs.VersionLocks.{IsHeldClean, IsLock};
ghost use Rattle.node_store.specs.Sights.{IsKept};

use crate::callers::range;
use node_store::{Busy, Sight, Trying, check, lock, peek, unlock};
use reg_model::{Again, Found, Inserted, Loading, Removed, Replaced};
use registry_core::Registry;
use std::sync::Wait;
use word_rule::{Caller, LockId};

const ROOT: LockId = LockId::Node { node: 0 };

// An update call.
#[derive(Clone, Copy)]
enum TriedChange {
    Register,
    Deregister,
    Replace,
    Load,
    Unload,
}

// Whether a caller takes a lock, at a version.
fn takes(registry: &Registry, me: &mut Caller, lock: LockId, version: u64) -> bool
    requires table { me.old.table ≡ registry.now.table }
    requires lock { IsLock registry.now.terms lock }
    ensures table { me.new.table ≡ me.old.table }
    ensures clean { IsTrue result → IsHeldClean lock me.new.log }
{
    matches!(registry.words().take(me, lock), Ok(taken) if taken == version)
}

// Whether a try of a call that was begun finds its half's lock taken.
fn is_busy(registry: &Registry, me: &mut Caller, change: TriedChange) -> bool
    requires table { me.old.table ≡ registry.now.table }
    requires idle { IsIdle me.old.log }
    requires begun { 0 < due me.old }
    requires payload { 0 < registry.now.terms.payloads }
    ensures table { me.new.table ≡ me.old.table }
    ensures idle { IsTrue result → IsIdle me.new.log }
    ensures begun { IsTrue result → (0 < due me.new) }
{
    let Some(member) = range(0x1000) else {
        return false;
    };
    let root = Busy::Taken { lock: ROOT };
    let lock = LockId::Loader;
    let loader = Busy::Taken { lock };
    match change {
        TriedChange::Register => registry.register_by(&Trying, me, member) == Err(root),
        TriedChange::Deregister => registry.deregister_by(&Trying, me, 0x1000) == Err(root),
        TriedChange::Replace => registry.replace_by(&Trying, me, member) == Err(root),
        TriedChange::Load => registry.load_by(&Trying, me, member) == Err(loader),
        TriedChange::Unload => registry.unload_by(&Trying, me, 0x1000) == Err(loader),
    }
}

// Whether a call that one begins is Busy while another holds its half's lock, from this version on.
fn waits(
    registry: &Registry,
    holder: &mut Caller,
    me: &mut Caller,
    change: TriedChange,
    version: u64,
) -> bool
    requires tables { (holder.old.table ≡ registry.now.table)
        × (me.old.table ≡ registry.now.table) }
    requires nodes { 0 < registry.now.terms.nodes }
    requires idle { IsIdle me.old.log }
    requires payload { 0 < registry.now.terms.payloads }
    requires version { version ≤ 4 }
    ensures tables { (holder.new.table ≡ holder.old.table) × (me.new.table ≡ me.old.table) }
    ensures idle { IsTrue result → IsIdle me.new.log }
    ensures begun { IsTrue result → (0 < due me.new) }
{
    let lock = match change {
        TriedChange::Load | TriedChange::Unload => LockId::Loader,
        _ => ROOT,
    };
    takes(registry, holder, lock, version)
        && me.use_one()
        && is_busy(registry, me, change)
        && registry.words().release_same(holder, lock) == version + 1
}

// Whether a try of a lookup is answered so.
fn is_told(registry: &Registry, me: &mut Caller, wanted: Result<Found, Again>) -> bool
    requires { me.old.table ≡ registry.now.table }
    ensures { me.new.table ≡ me.old.table }
{
    registry.try_registered(me, 5) == wanted
}

// Whether a node that was seen has changed since.
fn has_changed(registry: &Registry, me: &mut Caller, sight: &Sight, wanted: Again) -> bool
    requires table { me.old.table ≡ registry.now.table }
    requires inside { sight.now.node < registry.now.terms.nodes }
    requires kept { IsKept me.old.log sight.now }
{
    matches!(check(registry.words(), me, sight), Err(again) if again == wanted)
}

// While one holds the root, a lookup by another is told so; and a sight of the root from before has
// changed behind it.
pub(crate) fn is_tried_beside_the_root<R: Wait>(
    rt: &R,
    registry: &Registry,
    holder: &mut Caller,
    me: &mut Caller,
) -> bool
    requires tables { (holder.old.table ≡ registry.now.table)
        × (me.old.table ≡ registry.now.table) }
    requires nodes { registry.now.terms.nodes ≡ 16 }
    requires surplus { 0 < surplus holder.old }
{
    let words = registry.words();
    let Ok(mut watcher) = words.split(me, 0) else {
        return false;
    };
    let Ok(sight) = peek(words, &mut watcher, 0) else {
        return false;
    };
    lock(rt, words, holder, ROOT);
    let told = is_told(registry, me, Err(Again::Locked { word: 4, seen: 1 }));
    unlock(rt, words, holder, ROOT);
    // It was let go with the next version.
    let changed = Again::Changed {
        word: 4,
        first: 0,
        second: 4,
    };
    told && sight.version == 0
        && has_changed(registry, &mut watcher, &sight, changed)
        && is_told(registry, me, Ok(Found::Miss { stamp: 0 }))
}

// Each update is begun beside its half's lock, and done behind it.
pub(crate) fn is_tried_beside_each_lock(
    registry: &Registry,
    holder: &mut Caller,
    me: &mut Caller,
) -> bool
    requires tables { (holder.old.table ≡ registry.now.table)
        × (me.old.table ≡ registry.now.table) }
    requires nodes { 0 < registry.now.terms.nodes }
    requires idle { IsIdle me.old.log }
    requires payload { 0 < registry.now.terms.payloads }
{
    let Some(one) = range(0x1000) else {
        return false;
    };
    let told = &one;
    let removed = |number: u32| -> Removed {
        Removed::Done {
            number,
            member: *told,
        }
    };
    let came = Inserted::Done { number: 1 };
    let (number, payload) = (2, 0);
    let same = Replaced::Done { number, payload };
    let loaded = Loading::Done { number: 4 };
    waits(registry, holder, me, TriedChange::Register, 0)
        && registry.register_by(&Trying, me, *told) == Ok(came)
        && waits(registry, holder, me, TriedChange::Replace, 4)
        && registry.replace_by(&Trying, me, *told) == Ok(same)
        && waits(registry, holder, me, TriedChange::Deregister, 4)
        && registry.deregister_by(&Trying, me, 0x1000) == Ok(removed(3))
        && waits(registry, holder, me, TriedChange::Load, 0)
        && registry.load_by(&Trying, me, *told) == Ok(loaded)
        && waits(registry, holder, me, TriedChange::Unload, 4)
        && registry.unload_by(&Trying, me, 0x1000) == Ok(removed(5))
}
