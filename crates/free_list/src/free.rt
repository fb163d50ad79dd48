//! Nodes that are taken off the free list and given back, by any number of writers side by side.
//!
//! Either is an exchange at the head, in rounds: one that finds another head is tried again. Only
//! who holds the first node's lock may take it off, so while it is held nobody else does, and its
//! link is the next head for as long as it stays the first one.
ghost use Rattle.std.specs.Prelude.{◌≡◌, ◌≢◌, ◌+◌, ◌<◌, ◌≤◌, ◌^◌, None, length, IsSome};
ghost use Rattle.std.specs.Prelude.{IsTrue, IsSomeAnd, MatchBool, OnOk, IfErr, true, ℕ};
ghost use Rattle.tree_laws.specs.Numbers.{is_among};
ghost use Rattle.word_rule.specs.CallerData.{surplus};
ghost use Rattle.word_rule.specs.Held.{held_of};
ghost use Rattle.word_rule.specs.NodeTells.{HolderTells, OutTells};
ghost use Rattle.word_rule.specs.Spelling.{spelled};
ghost use Rattle.word_rule.specs.Steps.{after_head_load, after_node_store, after_push};
ghost use Rattle.free_list.specs.Free.{EndsRound, GivesFree, IsFreeTaken, IsSettled, IsUnlinked};
ghost use Rattle.free_list.specs.Free.{LeavesLocked, LeavesOthers, LosesNode, PopsLocked};
ghost use Rattle.free_list.specs.Free.{PushesNode, StaysOut, after_setting};

use version_locks::{Busy, Locking};
use word_rule::exchange::exchange_decided;
use word_rule::places::{FREE, KIND, LEVEL, LINK};
use word_rule::{Caller, LockId, Words};

// Takes a node that was just locked off the list, where it is free and still the first one.
fn pop_locked(words: &Words, me: &mut Caller, node: u32) -> bool
    requires table { me.old.table ≡ words.now.table }
    requires inside { node < words.now.terms.nodes }
    requires other { node ≢ 0 }
    requires held { IsSomeAnd (held_of node me.old.log.holdings.held)
        (λ h. IsSome (spelled h.words)) }
    requires room { length me.old.log.holdings.out < 4 }
    ensures { MatchBool result (PopsLocked node me.old me.new) (LeavesLocked node me.old me.new) }
{
    if words.load_node(me, node, KIND) != FREE {
        return false;
    }
    let next = words.load_node(me, node, LINK);
    match words.pop(me, node, next) {
        Ok(()) => true,
        Err(_) => false,
    }
}

// A round: the first node is locked by one step, in every form, since it may lie above what is
// held by now: who slept on it could close a circle.
fn take_first<L: Locking>(locking: &L, words: &Words, me: &mut Caller) -> Result<Option<u32>, Busy>
    requires table { me.old.table ≡ words.now.table }
    requires room { length me.old.log.holdings.out < 4 }
    ensures { EndsRound me.old me.new result }
{
    let head = words.load_head(me);
    if head == 0 {
        return Ok(None);
    }
    let node = head as u32;
    let lock = LockId::Node { node };
    match words.take(me, lock) {
        Err(_) => Err(Busy::Taken { lock }),
        Ok(_) => {
            if pop_locked(words, me, node) {
                return Ok(Some(node));
            }
            locking.let_go_same(words, me, lock);
            Err(Busy::Raced)
        }
    }
}

/// Takes the first node off the free list and gives it out locked, or None where there is none. It
/// is Busy where that failed in as many rounds as `locking` has: the first node was locked by
/// another, or wasn't the first one any more.
pub fn take_free<L: Locking>(
    locking: &L,
    words: &Words,
    me: &mut Caller,
) -> Result<Option<u32>, Busy>
    requires table { me.old.table ≡ words.now.table }
    requires room { length me.old.log.holdings.out < 4 }
    ensures { IsFreeTaken L.gives_up me.old me.new result }
{
    let mut lost = match take_first(locking, words, me) {
        Ok(found) => return Ok(found),
        Err(busy) => busy,
    };
    for _ in 1..locking.rounds() {
        match take_first(locking, words, me) {
            Ok(found) => return Ok(found),
            Err(busy) => lost = busy,
        }
    }
    locking.give_up();
    Err(lost)
}

// Makes a word of a node that is out this one: it is stored where it is another.
fn set_word(words: &Words, me: &mut Caller, node: u32, at: u32, value: u64)
    requires table { me.old.table ≡ words.now.table }
    requires inside { node < words.now.terms.nodes }
    requires word { (1 ≤ at) × (at ≤ 35) }
    requires held { IsSome (held_of node me.old.log.holdings.held) }
    requires out { IsTrue (is_among me.old.log.holdings.out node) }
    ensures log { me.new ≡ record me.old { log = after_setting node at value me.old.log } }
    ensures holder { HolderTells node me.old.log }
    ensures out { OutTells node me.old.log }
{
    if words.load_node(me, node, at) != value {
        words.store_node(me, node, at, value);
    }
}

// Links a node to a head and puts it onto the list, where that is still the head.
fn push_to(words: &Words, me: &mut Caller, node: u32, head: u64) -> Result<(), u64>
    requires table { me.old.table ≡ words.now.table }
    requires inside { node < words.now.terms.nodes }
    requires free { IsUnlinked node me.old.log }
    requires short { head < 2 ^ 32 }
    ensures ok { OnOk result (me.new
        ≡ record me.old { log = after_push node (after_node_store node 6 head me.old.log) }) }
    ensures err { IfErr result (λ found. (found ≢ head) × (found < 2 ^ 32)
        × (me.new ≡ record me.old {
          log = after_head_load found (after_node_store node 6 head me.old.log);
        })) }
{
    words.store_node(me, node, LINK, head);
    words.push(me, node, head)
}

// Puts a node onto the list, in as many rounds as there are: each links it to the head that was
// found last.
fn push_free<L: Locking>(locking: &L, words: &Words, me: &mut Caller, node: u32) -> bool
    requires table { me.old.table ≡ words.now.table }
    requires inside { node < words.now.terms.nodes }
    requires free { IsUnlinked node me.old.log }
    ensures { MatchBool result (PushesNode node me.old me.new)
        ((found : ℕ) × StaysOut node found me.old me.new × (L.gives_up ≡ true)) }
{
    let first = words.load_head(me);
    let mut head = match push_to(words, me, node, first) {
        Ok(()) => return true,
        Err(found) => found,
    };
    for _ in 1..locking.rounds_back() {
        match push_to(words, me, node, head) {
            Ok(()) => return true,
            Err(found) => head = found,
        }
    }
    locking.give_up();
    false
}

/// Puts a node that the caller holds and has out onto the free list, as the first one, and lets go
/// of it. Lost where `locking` has too few rounds for that: then it is let go of and stays out.
pub fn give_free<L: Locking>(
    locking: &L,
    words: &Words,
    me: &mut Caller,
    node: u32,
) -> Result<(), Busy>
    requires table { me.old.table ≡ words.now.table }
    requires inside { node < words.now.terms.nodes }
    requires held { IsSome (held_of node me.old.log.holdings.held) }
    requires out { IsTrue (is_among me.old.log.holdings.out node) }
    requires surplus { 0 < surplus me.old }
    ensures gives { OnOk result (GivesFree node me.old me.new) }
    ensures lost { IfErr result (λ busy. LosesNode node busy me.old me.new × (L.gives_up ≡ true)) }
    ensures unlocked { held_of node me.new.log.holdings.held ≡ None }
    ensures spends { surplus me.old ≡ surplus me.new + 1 }
    ensures others { IsSettled me.old.log
        → OnOk result (LeavesOthers node me.old.log me.new.log) }
{
    exchange_decided();
    set_word(words, me, node, KIND, FREE);
    set_word(words, me, node, LEVEL, 0);
    let lock = LockId::Node { node };
    if push_free(locking, words, me, node) {
        locking.let_go(words, me, lock);
        Ok(())
    } else {
        locking.let_go(words, me, lock);
        Err(Busy::Lost)
    }
}
