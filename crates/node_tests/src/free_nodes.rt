ghost use Rattle.std.specs.Prelude.{◌≡◌, ◌+◌, ◌<◌, ◌≤◌, [], ◌∷◌, ◌++◌, length, true, IsTrue};
ghost use Rattle.std.specs.Option.{option_to_list};
ghost use Rattle.tree_laws.specs.Numbers.{is_among};
ghost use Rattle.word_rule.specs.CallerData.{surplus};
ghost use Rattle.word_rule.specs.Held.{all_but};
ghost use Rattle.free_list.specs.Free.{HoldsOut};

use node_store::{Waiting, give_free, take_free};
use std::sync::Wait;
use std::test::Fail;
use word_rule::{Ask, Caller, LockId, Words};

// The first free node, taken, where there is one.
pub(crate) fn taken<R: Wait>(rt: &R, words: &Words, me: &mut Caller) -> Option<u32>
    requires table { me.old.table ≡ words.now.table }
    requires holds { HoldsOut me.old.log }
    requires room { length me.old.log.holdings.out < 4 }
    ensures table { me.new.table ≡ me.old.table }
    ensures surplus { surplus me.new ≡ surplus me.old }
    ensures holds { HoldsOut me.new.log }
    ensures out { me.new.log.holdings.out ≡ option_to_list result ++ me.old.log.holdings.out }
{
    match take_free(&Waiting { rt }, words, me) {
        Ok(node) => node,
        Err(_) => unreachable!(),
    }
}

// Puts a node back that is out.
pub(crate) fn gives<R: Wait>(rt: &R, words: &Words, me: &mut Caller, node: u32)
    requires table { me.old.table ≡ words.now.table }
    requires inside { node < words.now.terms.nodes }
    requires holds { HoldsOut me.old.log }
    requires out { IsTrue (is_among me.old.log.holdings.out node) }
    requires surplus { 0 < surplus me.old }
    ensures table { me.new.table ≡ me.old.table }
    ensures surplus { surplus me.old ≡ surplus me.new + 1 }
    ensures holds { HoldsOut me.new.log }
    ensures out { me.new.log.holdings.out ≡ all_but node me.old.log.holdings.out }
{
    match give_free(&Waiting { rt }, words, me, node) {
        Ok(()) => (),
        Err(_) => unreachable!(),
    }
}

// Takes the three free nodes of four, and finds no other.
fn takes_all<R: Wait>(rt: &R, words: &Words, me: &mut Caller) -> bool
    requires table { me.old.table ≡ words.now.table }
    requires holds { HoldsOut me.old.log }
    requires out { me.old.log.holdings.out ≡ [] }
    ensures table { me.new.table ≡ me.old.table }
    ensures surplus { surplus me.new ≡ surplus me.old }
    ensures holds { HoldsOut me.new.log }
    ensures out { result ≡ true → me.new.log.holdings.out ≡ 3 ∷ 2 ∷ 1 ∷ [] }
{
    taken(rt, words, me) == Some(1)
        && taken(rt, words, me) == Some(2)
        && taken(rt, words, me) == Some(3)
        && taken(rt, words, me) == None
}

// Puts node 2 back and takes it again.
fn takes_again<R: Wait>(rt: &R, words: &Words, me: &mut Caller) -> bool
    requires table { me.old.table ≡ words.now.table }
    requires nodes { words.now.terms.nodes ≡ 4 }
    requires holds { HoldsOut me.old.log }
    requires out { me.old.log.holdings.out ≡ 3 ∷ 2 ∷ 1 ∷ [] }
    requires surplus { 0 < surplus me.old }
    ensures table { me.new.table ≡ me.old.table }
    ensures surplus { surplus me.old ≡ surplus me.new + 1 }
    ensures holds { HoldsOut me.new.log }
    ensures out { result ≡ true → me.new.log.holdings.out ≡ 2 ∷ 3 ∷ 1 ∷ [] }
{
    gives(rt, words, me, 2);
    taken(rt, words, me) == Some(2)
}

fn gives_all<R: Wait>(rt: &R, words: &Words, me: &mut Caller)
    requires table { me.old.table ≡ words.now.table }
    requires nodes { words.now.terms.nodes ≡ 4 }
    requires holds { HoldsOut me.old.log }
    requires out { me.old.log.holdings.out ≡ 2 ∷ 3 ∷ 1 ∷ [] }
    requires surplus { 3 ≤ surplus me.old }
    ensures table { me.new.table ≡ me.old.table }
    ensures holds { HoldsOut me.new.log }
{
    gives(rt, words, me, 1);
    gives(rt, words, me, 2);
    gives(rt, words, me, 3);
}

#[test]
fn free_nodes_are_taken_and_given_back(rt: HostRuntime) -> Result<(), Fail> {
    let alloc = rt.alloc();
    let (words, mut a) = Words::new(alloc, 4, 1, 1, Vec::new(alloc))?;
    assert!(rt; takes_all(&rt, &words, &mut a));
    assert!(rt; takes_again(&rt, &words, &mut a));
    gives_all(&rt, &words, &mut a);
    assert!(rt; words.load_head(&mut a) == 3);
    assert!(rt; words.load_version(&mut a, LockId::Node { node: 2 }, Ask::Nothing) == 8);
    assert!(rt; words.load_version(&mut a, LockId::Node { node: 0 }, Ask::Nothing) == 0);
    Ok(())
}
