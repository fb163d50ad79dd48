//! What the copy that isn't active lists before it is written: it is one publication behind the
//! active one, so one of both has one member more, and below that one's place they are the same.
ghost use Rattle.std.specs.Prelude.{◌≡◌, ◌<◌, ◌≤◌, ◌↔◌, IsTrue, slice_index};
ghost use Rattle.word_rule.specs.Copies.{IsBehind};
ghost use Rattle.word_rule.specs.Places.{copy_words};
ghost use Rattle.array_publish.specs.Holders.{IsHolder, MayWork, LoadsHeld, active_words};
ghost use Rattle.array_publish.specs.Holders.{member_in, spare_words};
ghost use Rattle.array_publish.specs.Other.{IsOneApart};

use crate::active::{ActiveCopy, CopyStarts, active_word};
use crate::copies::{COUNT, place_of_member};
use word_rule::{Caller, Words};

/// How many members the other copy lists, and the place from which on they aren't those of the
/// active copy.
#[derive(Clone, Copy)]
pub struct OtherCopy {
    pub count: u32,
    pub place: u32,
}

/// Loads a word of the other copy, counted from its first.
#[inline(always)]
fn other_word(words: &Words, me: &mut Caller, starts: &CopyStarts, at: u32) -> u64
    requires work { MayWork words.now starts.now me.old }
    requires inside { at < copy_words words.now.terms }
    ensures loads { LoadsHeld me.old me.new }
    ensures value { result ≡ slice_index (spare_words me.old.log.loader) at }
{
    words.load_copy(me, starts.spare + at)
}

/// Whether the members with this index begin at one address in both copies.
#[inline(always)]
fn begin_alike(words: &Words, me: &mut Caller, starts: &CopyStarts, index: u32) -> bool
    requires work { MayWork words.now starts.now me.old }
    requires inside { index < words.now.terms.loads }
    ensures loads { LoadsHeld me.old me.new }
    ensures alike { IsTrue result ↔ ((member_in (active_words me.old.log.loader) index).span.first
        ≡ (member_in (spare_words me.old.log.loader) index).span.first) }
{
    let place = place_of_member(index);
    let first = active_word(words, me, starts, place);
    let other = other_word(words, me, starts, place);
    first == other
}

/// What the other copy lists, as long as nothing was stored in it. Half of the members that are
/// left are passed by at a time.
pub fn other_copy(words: &Words, me: &mut Caller, active: &ActiveCopy) -> OtherCopy
    requires work { MayWork words.now active.now.starts me.old }
    requires count { active.now.count ≡ slice_index (active_words me.old.log.loader) 1 }
    requires room { active.now.count ≤ words.now.terms.loads }
    requires behind { IsBehind words.now.terms (active_words me.old.log.loader)
        (spare_words me.old.log.loader) }
    ensures loads { LoadsHeld me.old me.new }
    ensures holder { IsHolder words.now active.now.starts.copy me.new }
    ensures room { result.count ≤ words.now.terms.loads }
    ensures apart { IsOneApart (active_words me.old.log.loader) (spare_words me.old.log.loader)
        active.now.count result }
{
    let count = other_word(words, me, &active.starts, COUNT) as u32;
    let mut low = 0;
    let mut high = active.count.min(count);
    while low < high {
        let index = low + (high - low) / 2;
        if begin_alike(words, me, &active.starts, index) {
            low = index + 1;
        } else {
            high = index;
        }
    }
    OtherCopy { count, place: low }
}
