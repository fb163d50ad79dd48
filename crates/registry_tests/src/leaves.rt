//! One leaf of a tree of three levels: updates that try beside its lock, which they don't get by
//! sight, and then name on the root's way; and a payload that is the same.

ghost use Rattle.std.specs.Prelude.{◌≡◌, ◌<◌, ◌≤◌, IfOk, IfSome, IsTrue};
ghost use Rattle.word_rule.specs.Callers.{IsIdle};
ghost use Rattle.word_rule.specs.Logs.{first_log};
ghost use Rattle.word_rule.specs.Places.{ALLOWANCE};

use crate::callers::member;
use btree_change::{insert, insert_by, remove, remove_by, replace, replace_by};
use node_store::{Busy, Trying, lock, unlock_same};
use reg_model::{Inserted, NoMemory, Removed, Replaced};
use std::alloc::Global;
use std::sync::Wait;
use word_rule::places::{FIRST, LEVEL};
use word_rule::{Ask, Caller, LockId, Words};

// The words of an empty tree of so many nodes, with two payloads, and their first caller.
pub(crate) fn empty_tree(alloc: Global, nodes: u32) -> Result<(Words, Caller), NoMemory>
    requires { (4 ≤ nodes) × (nodes ≤ 16384) }
    ensures nodes { IfOk result (λ made. made.0.terms.nodes ≡ nodes) }
    ensures payloads { IfOk result (λ made. made.0.terms.payloads ≡ 2) }
    ensures caller { IfOk result
        (λ made. made.1
        ≡ record { table = made.0.table; left = ALLOWANCE; log = first_log made.0.terms }) }
{
    Words::new(alloc, nodes, 1, 2, Vec::new(alloc))
}

// Registers so many members of 16 addresses, 256 apart; whether they got the numbers from 1 on.
pub(crate) fn insert_many<R: Wait>(rt: &R, words: &Words, me: &mut Caller, count: u32) -> bool
    requires table { me.old.table ≡ words.now.table }
    requires idle { IsIdle me.old.log }
    requires payloads { 0 < words.now.terms.payloads }
    ensures table { me.new.table ≡ me.old.table }
    ensures idle { IsIdle me.new.log }
{
    let mut all = true;
    for at in 0..count {
        let Some(m) = member(0x1000 + 0x100 * at as u64, 0x10, 0) else {
            return false;
        };
        let done = Inserted::Done { number: at + 1 };
        all = all && insert(rt, words, me, m) == done;
    }
    all
}

// The leaf of the lowest addresses, and the node above it.
#[derive(Clone, Copy)]
pub(crate) struct Leftmost {
    pub(crate) parent: u32,
    pub(crate) leaf: u32,
}

pub(crate) fn find_leftmost(words: &Words, me: &mut Caller) -> Option<Leftmost>
    requires table { me.old.table ≡ words.now.table }
    requires idle { IsIdle me.old.log }
    ensures table { me.new.table ≡ me.old.table }
    ensures idle { IsIdle me.new.log }
    ensures inside { IfSome result (λ found. (found.parent < words.now.terms.nodes)
        × (found.leaf < words.now.terms.nodes)) }
{
    let nodes = words.nodes();
    let mut parent = 0;
    let mut leaf = 0;
    for _ in 0..13u32 {
        if words.load_node(me, leaf, LEVEL) == 0 {
            return Some(Leftmost { parent, leaf });
        }
        let child = words.load_node(me, leaf, FIRST);
        if child >= nodes as u64 {
            return None;
        }
        parent = leaf;
        leaf = child as u32;
    }
    None
}

// Whether a try of an insertion finds this lock taken.
fn inserts_beside(words: &Words, me: &mut Caller, taken: LockId) -> bool
    requires table { me.old.table ≡ words.now.table }
    requires idle { IsIdle me.old.log }
    requires payloads { 0 < words.now.terms.payloads }
    ensures table { me.new.table ≡ me.old.table }
    ensures idle { IsTrue result → IsIdle me.new.log }
{
    let Some(one) = member(0x1020, 0x10, 0) else {
        return false;
    };
    let busy = Busy::Taken { lock: taken };
    me.use_one() && insert_by(&Trying, words, me, one) == Err(busy)
}

// Whether one of a removal does.
fn removes_beside(words: &Words, me: &mut Caller, taken: LockId) -> bool
    requires table { me.old.table ≡ words.now.table }
    requires idle { IsIdle me.old.log }
    ensures table { me.new.table ≡ me.old.table }
    ensures idle { IsTrue result → IsIdle me.new.log }
{
    let busy = Busy::Taken { lock: taken };
    me.use_one() && remove_by(&Trying, words, me, 0x1000) == Err(busy)
}

// Whether one of a replacement does.
fn replaces_beside(words: &Words, me: &mut Caller, taken: LockId) -> bool
    requires table { me.old.table ≡ words.now.table }
    requires idle { IsIdle me.old.log }
    requires payloads { 1 < words.now.terms.payloads }
    ensures table { me.new.table ≡ me.old.table }
    ensures idle { IsTrue result → IsIdle me.new.log }
{
    let Some(one) = member(0x1000, 0x10, 1) else {
        return false;
    };
    let busy = Busy::Taken { lock: taken };
    me.use_one() && replace_by(&Trying, words, me, one) == Err(busy)
}

// Registers a member and removes it again.
fn comes_and_goes<R: Wait>(rt: &R, words: &Words, me: &mut Caller) -> bool
    requires table { me.old.table ≡ words.now.table }
    requires idle { IsIdle me.old.log }
    requires payloads { 0 < words.now.terms.payloads }
{
    let Some(one) = member(0x1020, 0x10, 0) else {
        return false;
    };
    let Some(gone) = member(0x1020, 0x10, 0) else {
        return false;
    };
    let went = Removed::Done {
        number: 102,
        member: gone,
    };
    insert(rt, words, me, one) == (Inserted::Done { number: 101 })
        && remove(rt, words, me, 0x1020) == went
}

// While one holds the leaf each try of another names its lock, and behind it updates are done.
fn are_tried_beside<R: Wait>(
    rt: &R,
    words: &Words,
    holder: &mut Caller,
    me: &mut Caller,
    leaf: u32,
) -> bool
    requires tables { (holder.old.table ≡ words.now.table) × (me.old.table ≡ words.now.table) }
    requires idle { IsIdle holder.old.log × IsIdle me.old.log }
    requires inside { leaf < words.now.terms.nodes }
    requires payloads { words.now.terms.payloads ≡ 2 }
{
    let taken = LockId::Node { node: leaf };
    lock(rt, words, holder, taken);
    let busy = inserts_beside(words, me, taken)
        && removes_beside(words, me, taken)
        && replaces_beside(words, me, taken);
    unlock_same(rt, words, holder, taken);
    busy && comes_and_goes(rt, words, me)
}

// Gives the lowest member a payload: whether it is this update, and which payload it found.
fn exchanges<R: Wait>(rt: &R, words: &Words, me: &mut Caller, number: u32, payload: u32) -> bool
    requires table { me.old.table ≡ words.now.table }
    requires idle { IsIdle me.old.log }
    requires payloads { 1 < words.now.terms.payloads }
    ensures table { me.new.table ≡ me.old.table }
    ensures idle { IsIdle me.new.log }
{
    match member(0x1000, 0x10, 1) {
        Some(one) => replace(rt, words, me, one) == (Replaced::Done { number, payload }),
        None => false,
    }
}

// The same payload is an update that stores nothing in the leaf.
fn stores_nothing<R: Wait>(rt: &R, words: &Words, me: &mut Caller, leaf: u32) -> bool
    requires table { me.old.table ≡ words.now.table }
    requires idle { IsIdle me.old.log }
    requires inside { leaf < words.now.terms.nodes }
    requires payloads { 1 < words.now.terms.payloads }
{
    let leaf = LockId::Node { node: leaf };
    if !exchanges(rt, words, me, 101, 0) {
        return false;
    }
    let version = words.load_version(me, leaf, Ask::Nothing);
    exchanges(rt, words, me, 102, 1) && words.load_version(me, leaf, Ask::Nothing) == version
}

#[derive(Clone, Copy)]
enum InLeaf {
    Tries,
    SamePayload,
}

// Whether this is right of the lowest leaf of a hundred members.
fn is_right<R: Wait>(rt: &R, alloc: Global, asked: InLeaf) -> bool {
    let Ok((words, mut a)) = empty_tree(alloc, 64) else {
        return false;
    };
    let Ok(mut b) = words.split(&mut a, 5) else {
        return false;
    };
    if !insert_many(rt, &words, &mut a, 100) {
        return false;
    }
    let Some(found) = find_leftmost(&words, &mut a) else {
        return false;
    };
    match asked {
        InLeaf::Tries => are_tried_beside(rt, &words, &mut a, &mut b, found.leaf),
        InLeaf::SamePayload => stores_nothing(rt, &words, &mut a, found.leaf),
    }
}

#[test]
fn a_try_beside_a_locked_leaf_names_it(rt: HostRuntime) {
    assert!(rt; is_right(&rt, rt.alloc(), InLeaf::Tries));
}

#[test]
fn the_same_payload_is_an_update_that_stores_nothing(rt: HostRuntime) {
    assert!(rt; is_right(&rt, rt.alloc(), InLeaf::SamePayload));
}
