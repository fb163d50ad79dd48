//! The entries of a cache in front of either half, and their order.
ghost use Rattle.std.specs.Prelude.{◌≡◌, ◌<◌, ◌≤◌};
ghost use Rattle.frame_cache.specs.Cached.{FitsCaller};
ghost use Rattle.word_rule.specs.Callers.{IsIdle};

use crate::callers::{member, two_callers};
use frame_cache::FrameCache;
use reg_model::{Again, Found, Half, Inserted, Loading, Member};
use registry_core::Registry;
use std::alloc::Global;
use std::sync::Wait;
use word_rule::Caller;

// Registers or loads a member, and answers its number.
fn put<R: Wait>(
    rt: &R,
    registry: &Registry,
    me: &mut Caller,
    half: Half,
    member: Member,
) -> Option<u32>
    requires table { me.old.table ≡ registry.now.table }
    requires idle { IsIdle me.old.log }
    requires payload { member.payload < registry.now.terms.payloads }
    ensures table { me.new.table ≡ me.old.table }
    ensures idle { IsIdle me.new.log }
{
    match half {
        Half::Registered => match registry.register(rt, me, member) {
            Inserted::Done { number } => Some(number),
            _ => None,
        },
        Half::Loaded => match registry.load(rt, me, member) {
            Loading::Done { number } => Some(number),
            _ => None,
        },
    }
}

// The payload and the stamp of what was found.
fn told(answer: Result<Found, Again>) -> Option<(Option<u32>, u32)> {
    match answer {
        Ok(Found::Hit { member, stamp }) => Some((Some(member.payload), stamp)),
        Ok(Found::Miss { stamp }) => Some((None, stamp)),
        Err(_) => None,
    }
}

// What the cache answers.
fn cached(
    cache: &mut FrameCache,
    registry: &Registry,
    me: &mut Caller,
    pc: u64,
) -> Option<(Option<u32>, u32)>
    requires table { me.old.table ≡ registry.now.table }
    requires fits { FitsCaller cache.old me.old.log }
    ensures table { me.new.table ≡ me.old.table }
    ensures fits { FitsCaller cache.new me.new.log }
{
    told(cache.try_cached(registry, me, pc))
}

// The payloads of the entries, in order, as decimal digits.
fn order(cache: &FrameCache) -> u32 {
    let mut digits = 0;
    for index in 0..cache.entries() {
        digits = digits % 10_000_000 * 10 + cache.entry(index).payload % 10;
    }
    digits
}

// Nine members, each looked up once: the last eight are kept, in order; one moves to the front, and
// a miss changes nothing.
fn nine_members<R: Wait>(
    rt: &R,
    registry: &Registry,
    a: &mut Caller,
    b: &mut Caller,
    half: Half,
) -> bool
    requires tables { (a.old.table ≡ registry.now.table) × (b.old.table ≡ registry.now.table) }
    requires idle { IsIdle a.old.log }
    requires payloads { 9 ≤ registry.now.terms.payloads }
{
    let mut all = true;
    for number in 0..9 {
        let Some(frames) = member(0x1000 + 0x100 * number as u64, 0x10, number) else {
            return false;
        };
        all = all && put(rt, registry, a, half, frames) == Some(number + 1);
    }
    let mut cache = FrameCache::new(half);
    for number in 0..9 {
        let pc = 0x1008 + 0x100 * number as u64;
        all = all && cached(&mut cache, registry, b, pc) == Some((Some(number), 9));
    }
    let eight = cache.entries() == 8 && order(&cache) == 87_654_321;
    let moved = cached(&mut cache, registry, b, 0x1108) == Some((Some(1), 9));
    let front = order(&cache) == 18_765_432;
    let miss = cached(&mut cache, registry, b, 0x1010) == Some((None, 9));
    all && eight && moved && front && miss && order(&cache) == 18_765_432
}

// What the entries say is told: none at first, one at its stamp, and none after a later update.
fn one_entry<R: Wait>(
    rt: &R,
    registry: &Registry,
    a: &mut Caller,
    b: &mut Caller,
    half: Half,
) -> bool
    requires tables { (a.old.table ≡ registry.now.table) × (b.old.table ≡ registry.now.table) }
    requires idle { IsIdle a.old.log }
    requires payloads { 2 ≤ registry.now.terms.payloads }
{
    let (Some(frames), Some(more)) = (member(0x1000, 0x20, 0), member(0x2000, 0x20, 1)) else {
        return false;
    };
    let mut cache = FrameCache::new(half);
    put(rt, registry, a, half, frames) == Some(1)
        && cache.entries() == 0
        && cached(&mut cache, registry, b, 0x1010) == Some((Some(0), 1))
        && cache.entries() == 1
        && cache.stamp() == 1
        && put(rt, registry, a, half, more) == Some(2)
        && cached(&mut cache, registry, b, 0x1800) == Some((None, 2))
        && cache.entries() == 0
}

#[derive(Clone, Copy)]
enum Entries {
    One,
    Nine,
}

// Whether this is right of a cache in front of a half.
fn are_right<R: Wait>(rt: &R, alloc: Global, half: Half, entries: Entries) -> bool {
    let Some((registry, mut a, mut b)) = two_callers(alloc, 0) else {
        return false;
    };
    match entries {
        Entries::One => one_entry(rt, &registry, &mut a, &mut b, half),
        Entries::Nine => nine_members(rt, &registry, &mut a, &mut b, half),
    }
}

#[test]
fn an_entry_that_an_update_makes_void(rt: HostRuntime) {
    for half in [Half::Registered, Half::Loaded] {
        assert!(rt; are_right(&rt, rt.alloc(), half, Entries::One));
    }
}

#[test]
fn eight_of_nine_members_in_order(rt: HostRuntime) {
    for half in [Half::Registered, Half::Loaded] {
        assert!(rt; are_right(&rt, rt.alloc(), half, Entries::Nine));
    }
}
