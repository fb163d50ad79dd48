//! Callers that are handed over, and callers that are split off one another.

ghost use Rattle.std.specs.Prelude.{◌≡◌, ◌≤◌, IfSome};
ghost use Rattle.word_rule.specs.Callers.{IsIdle};

use crate::locks::four_nodes;
use std::test::Fail;
use word_rule::{Caller, Words};

// One is split off, takes in the one that it was split off, and goes on in its place.
fn handed_over(words: &Words, mut me: Caller) -> Option<Caller>
    requires table { me.table ≡ words.now.table }
    requires idle { IsIdle me.log }
    ensures table { IfSome result (λ other. other.table ≡ words.now.table) }
    ensures idle { IfSome result (λ other. IsIdle other.log) }
{
    let mut other = words.split(&mut me, 0).ok()?;
    words.join(&mut other, me).ok()?;
    Some(other)
}

// The same so often.
fn handed_on(words: &Words, mut me: Caller, times: u32) -> Option<Caller>
    requires table { me.table ≡ words.now.table }
    requires idle { IsIdle me.log }
    ensures table { IfSome result (λ other. other.table ≡ words.now.table) }
    ensures idle { IfSome result (λ other. IsIdle other.log) }
{
    for _turn in 0..times {
        me = handed_over(words, me)?;
    }
    Some(me)
}

#[test]
fn a_chain_of_hand_overs_stays_alone(rt: HostRuntime) -> Result<(), Fail> {
    let (words, a) = four_nodes(rt.alloc())?;
    let all = a.left();
    let Some(last) = handed_on(&words, a, 100_000) else {
        panic!(rt; "each can be split off")
    };
    let alone = last.alone();
    assert!(rt; alone && last.left() == all);
    let accepted = words.close(last);
    assert!(rt; accepted == 0);
    Ok(())
}

// How many are split off one another, up to so many, each the next one; all are joined again.
fn depth(words: &Words, me: &mut Caller, most: u32) -> u32
    requires table { me.old.table ≡ words.now.table }
    requires idle { IsIdle me.old.log }
    ensures most { result ≤ most }
    ensures table { me.new.table ≡ words.now.table }
    ensures idle { IsIdle me.new.log }
{
    if most == 0 {
        return 0;
    }
    let Ok(mut other) = words.split(me, 0) else {
        return 0;
    };
    let below = depth(words, &mut other, most - 1);
    match words.join(me, other) {
        Ok(()) => below + 1,
        Err(_) => 0,
    }
}

#[test]
fn makers_stand_thirty_two_deep(rt: HostRuntime) -> Result<(), Fail> {
    let (words, mut a) = four_nodes(rt.alloc())?;
    assert!(rt; depth(&words, &mut a, 100) == 32);
    let alone = a.alone();
    assert!(rt; alone);
    assert!(rt; depth(&words, &mut a, 20) == 20);
    Ok(())
}
