//! Callers that are split off and joined, with their notes, and each step on a lock.

ghost use Rattle.std.specs.Prelude.{◌≡◌, ◌<◌, ◌≤◌, IsTrue};
ghost use Rattle.word_rule.specs.CallerData.{surplus};
ghost use Rattle.word_rule.specs.Callers.{IsIdle};
ghost use Rattle.word_rule.specs.VersionLocks.{IsHeldClean, IsLock};

use crate::locks::four_nodes;
use std::alloc::Global;
use std::sync::Wait;
use std::test::Fail;
use word_rule::{Ask, Caller, LockId, Words};

const ALLOWANCE: u32 = 67_108_864;

const ROOT: LockId = LockId::Node { node: 0 };

// Words of four nodes and their first caller, as they are made.
fn is_new(words: &Words, me: &Caller) -> bool {
    words.nodes() == 4
        && words.loads() == 1
        && words.fixed().is_empty()
        && me.seen() == 0
        && me.left() == ALLOWANCE
        && me.alone()
}

// A caller and one that was split off with one call.
fn are_apart(me: &Caller, other: &Caller) -> bool {
    me.left() == ALLOWANCE - 1
        && other.left() == 1
        && other.seen() == 0
        && !me.alone()
        && !other.alone()
}

// Nothing was seen, and the other learns it.
fn tells_nothing(words: &Words, me: &mut Caller, other: &mut Caller) -> bool
    requires tables { (me.old.table ≡ words.now.table) × (other.old.table ≡ words.now.table) }
    requires idle { IsIdle me.old.log × IsIdle other.old.log }
    ensures tables { (me.new.table ≡ me.old.table) × (other.new.table ≡ other.old.table) }
    ensures idle { IsIdle me.new.log × IsIdle other.new.log }
{
    let Ok(note) = words.note(me) else {
        return false;
    };
    let unseen = note.seen() == 0 && !me.alone();
    let learnt = words.learn(other, note).is_ok();
    unseen && learnt && other.seen() == 0 && other.left() == 1 && !other.alone()
}

fn uses_its_only_call(me: &mut Caller) -> bool
    ensures { (me.new.table ≡ me.old.table) × (me.new.log ≡ me.old.log) }
{
    me.use_one() && me.left() == 0 && !me.use_one() && me.left() == 0
}

// Another is split off, learns, uses its call, and is joined again.
fn one_comes_and_goes(words: &Words, me: &mut Caller) -> bool
    requires table { me.old.table ≡ words.now.table }
    requires idle { IsIdle me.old.log }
    requires left { 1 ≤ me.old.left }
    ensures table { me.new.table ≡ me.old.table }
    ensures idle { IsIdle me.new.log }
{
    let Ok(mut other) = words.split(me, 1) else {
        return false;
    };
    let apart = are_apart(me, &other) && tells_nothing(words, me, &mut other);
    let used = uses_its_only_call(&mut other);
    let joined = words.join(me, other).is_ok();
    words.confirm(me);
    apart && used && joined && me.left() == ALLOWANCE - 1 && me.seen() == 0 && me.may_try()
}

#[test]
fn callers_come_and_go(rt: HostRuntime) -> Result<(), Fail> {
    let (words, mut a) = four_nodes(rt.alloc())?;
    assert!(rt; is_new(&words, &a) && one_comes_and_goes(&words, &mut a));
    let alone = a.alone();
    assert!(rt; alone);
    assert!(rt; words.close(a) == 0);
    Ok(())
}

fn takes_in(words: &Words, me: &mut Caller, other: Caller) -> bool
    requires tables { (me.old.table ≡ words.now.table) × (other.table ≡ words.now.table) }
    requires idle { IsIdle other.log }
    ensures table { me.new.table ≡ me.old.table }
{
    words.join(me, other).is_ok()
}

// One that is split off makes a note: its maker is alone when both were taken in and the note is
// learnt.
fn learns_of_its_own(words: &Words, me: &mut Caller, mut other: Caller) -> bool
    requires tables { (me.old.table ≡ words.now.table) × (other.table ≡ words.now.table) }
    requires idle { IsIdle other.log }
    ensures table { me.new.table ≡ me.old.table }
{
    let Ok(note) = words.note(&mut other) else {
        return false;
    };
    let taken = takes_in(words, me, other) && me.left() == ALLOWANCE && !me.alone();
    taken && words.learn(me, note).is_ok() && me.alone()
}

fn is_alone_behind_its_note(words: &Words, me: &mut Caller) -> bool
    requires table { me.old.table ≡ words.now.table }
    requires idle { IsIdle me.old.log }
    requires left { 2 ≤ me.old.left }
{
    let Ok(mut between) = words.split(me, 2) else {
        return false;
    };
    let Ok(last) = words.split(&mut between, 1) else {
        return false;
    };
    takes_in(words, me, between) && learns_of_its_own(words, me, last)
}

// Whether a free lock is taken at version 0 and marked, and each only then.
fn takes_and_marks(words: &Words, me: &mut Caller, lock: LockId) -> bool
    requires table { me.old.table ≡ words.now.table }
    requires lock { IsLock words.now.terms lock }
    ensures table { me.new.table ≡ me.old.table }
    ensures surplus { surplus me.new ≡ surplus me.old }
    ensures clean { IsTrue result → IsHeldClean lock me.new.log }
{
    words.try_lock(me, lock, 4) == Err(0)
        && words.mark_sleeping(me, lock, 1) == Err(0)
        && words.try_lock(me, lock, 0) == Ok(())
        && words.load_version(me, lock, Ask::Nothing) == 1
        && words.mark_sleeping(me, lock, 1) == Ok(())
}

// The loader's lock is let go of with its next version, though one was said to sleep.
fn lets_go_of_sleepers<R: Wait>(rt: &R, words: &Words, me: &mut Caller) -> bool
    requires table { me.old.table ≡ words.now.table }
    requires surplus { 0 < surplus me.old }
    ensures table { me.new.table ≡ me.old.table }
{
    let lock = LockId::Loader;
    if words.load_version(me, lock, Ask::Nothing) != 0 || !takes_and_marks(words, me, lock) {
        return false;
    }
    words.sleep(rt, lock, 5);
    let marked = words.load_version(me, lock, Ask::Nothing) == 3;
    let before = words.release(me, lock);
    words.wake(lock);
    marked && before == 3 && words.load_version(me, lock, Ask::Nothing) == 4
}

// It is taken at that version and let go of unchanged, once with sleepers.
fn lets_go_unchanged(words: &Words, me: &mut Caller) -> bool
    requires table { me.old.table ≡ words.now.table }
    ensures table { me.new.table ≡ me.old.table }
{
    let lock = LockId::Loader;
    words.try_lock(me, lock, 4) == Ok(())
        && words.release_same(me, lock) == 5
        && words.load_version(me, lock, Ask::Nothing) == 4
        && words.try_lock(me, lock, 4) == Ok(())
        && words.mark_sleeping(me, lock, 5) == Ok(())
        && words.release_same(me, lock) == 7
}

// It is taken in one step.
fn takes_at_once(words: &Words, me: &mut Caller) -> bool
    requires table { me.old.table ≡ words.now.table }
{
    let lock = LockId::Loader;
    words.take(me, lock) == Ok(4)
        && words.load_version(me, lock, Ask::Nothing) == 5
        && words.release_same(me, lock) == 5
        && words.load_version(me, lock, Ask::Nothing) == 4
}

fn steps_on_the_loaders_lock<R: Wait>(rt: &R, words: &Words, me: &mut Caller) -> bool
    requires table { me.old.table ≡ words.now.table }
    requires surplus { 0 < surplus me.old }
{
    lets_go_of_sleepers(rt, words, me) && lets_go_unchanged(words, me) && takes_at_once(words, me)
}

// The words of the empty root.
fn loads_of_the_root(words: &Words, me: &mut Caller) -> bool
    requires table { me.old.table ≡ words.now.table }
    requires nodes { words.now.terms.nodes ≡ 4 }
    ensures table { me.new.table ≡ me.old.table }
    ensures surplus { surplus me.new ≡ surplus me.old }
{
    words.load_version(me, ROOT, Ask::Nothing) == 0
        && words.load_node(me, 0, 1) == 1
        && words.load_node(me, 0, 2) == 0
        && words.load_node(me, 0, 4) == u64::MAX
        && words.load_node(me, 0, 5) == 0
}

// The words of free nodes, and which is the first.
fn loads_of_free_nodes(words: &Words, me: &mut Caller) -> bool
    requires table { me.old.table ≡ words.now.table }
    requires nodes { words.now.terms.nodes ≡ 4 }
    ensures table { me.new.table ≡ me.old.table }
    ensures surplus { surplus me.new ≡ surplus me.old }
{
    words.load_node(me, 1, 1) == 2
        && words.load_node(me, 1, 6) == 2
        && words.load_node(me, 3, 6) == 0
        && words.load_head(me) == 1
}

// The root is let go of with its next version.
fn lets_go_of_the_root(words: &Words, me: &mut Caller) -> bool
    requires table { me.old.table ≡ words.now.table }
    requires nodes { words.now.terms.nodes ≡ 4 }
    requires surplus { 0 < surplus me.old }
{
    words.load_version(me, ROOT, Ask::Registered { pc: 5 }) == 0
        && words.take(me, ROOT) == Ok(0)
        && words.release(me, ROOT) == 1
        && words.load_version(me, ROOT, Ask::Nothing) == 4
}

fn steps_on_nodes(words: &Words, me: &mut Caller) -> bool
    requires table { me.old.table ≡ words.now.table }
    requires nodes { words.now.terms.nodes ≡ 4 }
    requires surplus { 0 < surplus me.old }
{
    loads_of_the_root(words, me) && loads_of_free_nodes(words, me) && lets_go_of_the_root(words, me)
}

fn steps_on_a_nodes_lock<R: Wait>(rt: &R, words: &Words, me: &mut Caller) -> bool
    requires table { me.old.table ≡ words.now.table }
    requires nodes { words.now.terms.nodes ≡ 4 }
{
    let lock = LockId::Node { node: 3 };
    if !takes_and_marks(words, me, lock) {
        return false;
    }
    words.sleep(rt, lock, 5);
    let held = words.load_node(me, 3, 1) == 2 && words.take(me, lock) == Err(3);
    if !held || words.release_same(me, lock) != 3 {
        return false;
    }
    words.wake(lock);
    words.take(me, lock) == Ok(0) && words.release_same(me, lock) == 1
}

fn begins_a_sight_anew(words: &Words, me: &mut Caller) -> bool
    requires table { me.old.table ≡ words.now.table }
    requires nodes { words.now.terms.nodes ≡ 4 }
{
    words.begin_sight(me, 0) == 0
        && words.load_node(me, 0, 2) == 0
        && words.take(me, ROOT) == Ok(0)
        && words.begin_sight(me, 0) == 1
        && words.release_same(me, ROOT) == 1
        && words.begin_sight(me, 0) == 0
}

fn locks_the_root_by_its_sight(words: &Words, me: &mut Caller) -> bool
    requires table { me.old.table ≡ words.now.table }
    requires nodes { words.now.terms.nodes ≡ 4 }
{
    words.begin_sight(me, 0) == 0
        && words.lock_seen(me, 0, 4) == Err(0)
        && words.lock_seen(me, 0, 0) == Ok(())
        && words.release_same(me, ROOT) == 1
}

#[derive(Clone, Copy)]
enum Steps {
    Notes,
    LoadersLock,
    Nodes,
    NodesLock,
    Sight,
    LockBySight,
}

// Whether these steps on new words are as they should be.
fn are_right<R: Wait>(rt: &R, alloc: Global, steps: Steps) -> bool {
    let Ok((words, mut a)) = four_nodes(alloc) else {
        return false;
    };
    match steps {
        Steps::Notes => is_alone_behind_its_note(&words, &mut a),
        Steps::LoadersLock => steps_on_the_loaders_lock(rt, &words, &mut a),
        Steps::Nodes => steps_on_nodes(&words, &mut a),
        Steps::NodesLock => steps_on_a_nodes_lock(rt, &words, &mut a),
        Steps::Sight => begins_a_sight_anew(&words, &mut a),
        Steps::LockBySight => locks_the_root_by_its_sight(&words, &mut a),
    }
}

#[test]
fn one_with_a_note_out_is_not_alone(rt: HostRuntime) {
    assert!(rt; are_right(&rt, rt.alloc(), Steps::Notes));
}

#[test]
fn each_step_on_the_loaders_lock(rt: HostRuntime) {
    assert!(rt; are_right(&rt, rt.alloc(), Steps::LoadersLock));
}

#[test]
fn each_load_of_a_node_and_its_release(rt: HostRuntime) {
    assert!(rt; are_right(&rt, rt.alloc(), Steps::Nodes));
}

#[test]
fn each_step_on_a_nodes_lock(rt: HostRuntime) {
    assert!(rt; are_right(&rt, rt.alloc(), Steps::NodesLock));
}

#[test]
fn a_sight_begins_anew(rt: HostRuntime) {
    assert!(rt; are_right(&rt, rt.alloc(), Steps::Sight));
}

#[test]
fn a_lock_of_the_root_by_its_sight(rt: HostRuntime) {
    assert!(rt; are_right(&rt, rt.alloc(), Steps::LockBySight));
}
