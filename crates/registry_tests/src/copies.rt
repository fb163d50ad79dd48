//! The two copies of the loaded members, of which each publication makes the other one active.

ghost use Rattle.std.specs.Prelude.{◌≡◌, ◌≤◌, [], None};
ghost use Rattle.array_publish.specs.Update.{IsFreeAgain};

use crate::callers::member;
use array_publish::{load, unload};
use reg_model::{Loading, Removed};
use std::sync::Wait;
use std::test::Fail;
use word_rule::{Caller, Words};

// Loads images 0 to 16, sixteen addresses each, and says whether each was the next update.
fn load_images<R: Wait>(rt: &R, words: &Words, me: &mut Caller) -> bool
    requires table { me.old.table ≡ words.now.table }
    requires free { me.old.log.loader ≡ None }
    requires payloads { 17 ≤ words.now.terms.payloads }
    ensures { IsFreeAgain me.old me.new }
{
    for image in 0..17 {
        let Some(one) = member(0x1000 + 0x100 * image as u64, 16, image) else {
            return false;
        };
        let done = Loading::Done { number: image + 1 };
        if load(rt, words, me, one) != done {
            return false;
        }
    }
    true
}

// After seventeen publications the second copy is active, with two segments and seventeen members;
// after the next one the first, with one segment and sixteen.
fn take_turns<R: Wait>(rt: &R, words: &Words, me: &mut Caller) -> bool
    requires table { me.old.table ≡ words.now.table }
    requires free { me.old.log.loader ≡ None }
    requires terms { words.now.terms
        ≡ record { nodes = 16; loads = 40; payloads = 17; fixed = [] } }
{
    let Some(first) = member(0x1000, 16, 0) else {
        return false;
    };
    let gone = Removed::Done {
        number: 18,
        member: first,
    };
    load_images(rt, words, me)
        && words.load_copy(me, 732) == 2
        && words.load_copy(me, 733) == 17
        && unload(rt, words, me, 0x1000) == gone
        && words.load_copy(me, 580) == 1
        && words.load_copy(me, 581) == 16
}

#[test]
fn seventeen_members_stand_in_two_segments(rt: HostRuntime) -> Result<(), Fail> {
    let alloc = rt.alloc();
    let (words, mut a) = Words::new(alloc, 16, 40, 17, Vec::new(alloc))?;
    assert!(rt; take_turns(&rt, &words, &mut a));
    Ok(())
}
