//! What is asked of a registry with two callers: a payload that is exchanged, a load that another
//! learns of by a note, and tries beside locks.

ghost use Rattle.std.specs.Prelude.{◌≡◌, ◌<◌, ◌≤◌, IfSome, None};
ghost use Rattle.word_rule.specs.CallerData.{surplus};
ghost use Rattle.word_rule.specs.Callers.{IsIdle};

use crate::callers::{Wanted, answers, is_found, loaded, member, nowhere, range, two_callers};
use crate::tries::{is_tried_beside_each_lock, is_tried_beside_the_root};
use reg_model::{Found, Inserted, Loading, Place, Removed, Replaced};
use registry_core::Registry;
use std::alloc::Global;
use std::sync::Wait;
use word_rule::Caller;

// A member of a span gets another payload, and one of a part of it is absent.
fn exchanges<R: Wait>(rt: &R, registry: &Registry, me: &mut Caller) -> bool
    requires table { me.old.table ≡ registry.now.table }
    requires idle { IsIdle me.old.log }
    requires payloads { registry.now.terms.payloads ≡ 9 }
{
    let (Some(old), Some(new)) = (member(0x1000, 0x30, 0), member(0x1000, 0x30, 1)) else {
        return false;
    };
    let Some(part) = member(0x1000, 0x20, 2) else {
        return false;
    };
    let (number, payload) = (2, 0);
    let found = Place {
        registered: Found::Hit {
            member: new,
            stamp: number,
        },
        loaded: None,
    };
    let gone = Removed::Done {
        number: 3,
        member: new,
    };
    let absent = |stamp: u32| -> Wanted { Wanted::Replaces(Replaced::NotFound { stamp }) };
    let came = Wanted::Registers(Inserted::Done { number: 1 });
    let done = Wanted::Replaces(Replaced::Done { number, payload });
    answers(rt, registry, me, &old, absent(0))
        && answers(rt, registry, me, &old, came)
        && answers(rt, registry, me, &new, done)
        && is_found(rt, registry, me, 0x1010, found)
        && answers(rt, registry, me, &part, absent(2))
        && answers(rt, registry, me, &new, Wanted::Deregisters(gone))
}

// Loads a range, and tells another caller of it by a note.
fn loads_and_tells<R: Wait>(rt: &R, registry: &Registry, a: &mut Caller, b: &mut Caller) -> bool
    requires tables { (a.old.table ≡ registry.now.table) × (b.old.table ≡ registry.now.table) }
    requires idle { IsIdle a.old.log × IsIdle b.old.log }
    requires payload { 0 < registry.now.terms.payloads }
    ensures tables { (a.new.table ≡ a.old.table) × (b.new.table ≡ b.old.table) }
    ensures idle { IsIdle a.new.log × IsIdle b.new.log }
{
    let Some(member) = range(0x1000) else {
        return false;
    };
    let came = Wanted::Loads(Loading::Done { number: 1 });
    if !is_found(rt, registry, a, 0x1010, nowhere(0)) || !answers(rt, registry, a, &member, came) {
        return false;
    }
    let Ok(note) = registry.words().note(a) else {
        return false;
    };
    note.seen() == 1 && b.seen() == 0 && registry.words().learn(b, note).is_ok()
}

// The other one has seen it then, and keeps its calls.
fn learns_of_a_load<R: Wait>(rt: &R, registry: &Registry, a: &mut Caller, b: &mut Caller) -> bool
    requires tables { (a.old.table ≡ registry.now.table) × (b.old.table ≡ registry.now.table) }
    requires idle { IsIdle a.old.log × IsIdle b.old.log }
    requires payload { 0 < registry.now.terms.payloads }
{
    loads_and_tells(rt, registry, a, b)
        && b.seen() == 1
        && b.left() == 5
        && !b.alone()
        && loaded(registry.find(rt, b, 0x101f)) == Some((1, 0, 1))
        && is_found(rt, registry, b, 0x1020, nowhere(1))
}

#[derive(Clone, Copy)]
enum Question {
    Exchange,
    Note,
    RootsLock,
    EachLock,
}

// Whether this is right of a new registry and its two callers.
fn is_right<R: Wait>(rt: &R, alloc: Global, asked: Question) -> bool {
    let Some((registry, mut a, mut b)) = two_callers(alloc, 5) else {
        return false;
    };
    match asked {
        Question::Exchange => exchanges(rt, &registry, &mut a),
        Question::Note => learns_of_a_load(rt, &registry, &mut a, &mut b),
        Question::RootsLock => is_tried_beside_the_root(rt, &registry, &mut a, &mut b),
        Question::EachLock => is_tried_beside_each_lock(&registry, &mut a, &mut b),
    }
}

#[test]
fn a_payload_is_exchanged_in_place(rt: HostRuntime) {
    assert!(rt; is_right(&rt, rt.alloc(), Question::Exchange));
}

#[test]
fn a_caller_learns_what_another_loaded(rt: HostRuntime) {
    assert!(rt; is_right(&rt, rt.alloc(), Question::Note));
}

#[test]
fn a_try_beside_a_locked_root(rt: HostRuntime) {
    assert!(rt; is_right(&rt, rt.alloc(), Question::RootsLock));
}

#[test]
fn each_try_to_update_beside_a_lock(rt: HostRuntime) {
    assert!(rt; is_right(&rt, rt.alloc(), Question::EachLock));
}
