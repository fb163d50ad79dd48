//! Two writers: one waits for a leaf that the other holds, and the root is free meanwhile.
ghost use Rattle.std.specs.Prelude.{◌≡◌, ◌<◌};
ghost use Rattle.word_rule.specs.Callers.{IsIdle};
ghost use Rattle.word_rule.specs.VersionLocks.{IsHeldClean};

use crate::callers::member;
use crate::leaves::{Leftmost, empty_tree, find_leftmost, insert_many};
use btree_change::insert;
use node_store::{lock, unlock_same};
use reg_model::{Inserted, Member};
use std::sync::Wait;
use std::test::Fail;
use std::thread::{Threads, join};
use word_rule::places::LOCKED;
use word_rule::{Ask, Caller, LockId, Words};

// So many loads of a version are made until its bit is as it is waited for.
const TURNS: u64 = 1_000_000_000;

// Whether bit 0 of a node's version was seen to be this one.
fn sees_bit(words: &Words, me: &mut Caller, node: u32, bit: u64) -> bool
    requires table { me.old.table ≡ words.now.table }
    requires inside { node < words.now.terms.nodes }
    ensures table { me.new.table ≡ me.old.table }
    ensures holdings { me.new.log.holdings ≡ me.old.log.holdings }
    ensures loader { me.new.log.loader ≡ me.old.log.loader }
{
    for _ in 0..TURNS {
        if words.load_version(me, LockId::Node { node }, Ask::Nothing) % 2 == bit {
            return true;
        }
    }
    false
}

// While the leaf is held, whether the lock of its parent was seen taken, and then the root's free.
// The leaf is let go of.
fn watch<R: Wait>(rt: &R, words: &Words, me: &mut Caller, found: Leftmost) -> bool
    requires table { me.old.table ≡ words.now.table }
    requires inside { (found.parent < words.now.terms.nodes)
        × (found.leaf < words.now.terms.nodes) }
    requires held { IsHeldClean (LockId.Node found.leaf) me.old.log }
{
    let _nodes = words.nodes();
    let taken = sees_bit(words, me, found.parent, LOCKED);
    let free = sees_bit(words, me, 0, 0);
    unlock_same(rt, words, me, LockId::Node { node: found.leaf });
    taken && free
}

// One holds a leaf and watches, while another registers a member there: whether the first saw what
// it waited for, and what the second was told.
fn watch_and_insert<R: Threads + Wait + Sync>(
    rt: &R,
    words: &Words,
    callers: (Caller, Caller),
    found: Leftmost,
    between: Member,
) -> (bool, Inserted)
    requires tables { (callers.0.table ≡ words.now.table) × (callers.1.table ≡ words.now.table) }
    requires inside { (found.parent < words.now.terms.nodes)
        × (found.leaf < words.now.terms.nodes) }
    requires held { IsHeldClean (LockId.Node found.leaf) callers.0.log }
    requires idle { IsIdle callers.1.log }
    requires payload { between.payload < words.now.terms.payloads }
{
    let (mut watcher, mut writer) = callers;
    join(
        rt,
        || -> bool
            requires { (watcher.table ≡ words.now.table) × (found.parent < words.now.terms.nodes)
                × (found.leaf < words.now.terms.nodes)
                × IsHeldClean (LockId.Node found.leaf) watcher.log }
        { watch(rt, words, &mut watcher, found) },
        || -> Inserted
            requires { (writer.table ≡ words.now.table) × IsIdle writer.log
                × (between.payload < words.now.terms.payloads) }
        { insert(rt, words, &mut writer, between) },
    )
}

#[test]
fn a_writer_that_waits_for_a_leaf_holds_the_parent_and_not_the_root(
    rt: HostRuntime,
) -> Result<(), Fail> {
    let (words, mut a) = empty_tree(rt.alloc(), 64)?;
    let b = words.split(&mut a, 1)?;
    assert!(rt; insert_many(&rt, &words, &mut a, 100));
    let (Some(found), Some(between)) = (find_leftmost(&words, &mut a), member(0x1020, 0x10, 0))
    else {
        panic!(rt; "a tree of three levels")
    };
    assert!(rt; found.parent != 0);
    lock(&rt, &words, &mut a, LockId::Node { node: found.leaf });
    let (seen, answer) = watch_and_insert(&rt, &words, (a, b), found, between);
    assert!(rt; seen && answer == Inserted::Done { number: 101 });
    Ok(())
}
