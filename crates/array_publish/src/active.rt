//! The active copy, read under the loader's lock.
ghost use Rattle.std.specs.Prelude.{◌≡◌, ◌<◌, ◌≤◌, slice_index};
ghost use Rattle.word_rule.specs.Callers.{AreTerms, IsMemberOf};
ghost use Rattle.word_rule.specs.Places.{copy_words};
ghost use Rattle.array_publish.specs.Holders.{HasStarts, LoadsHeld, MayWork};
ghost use Rattle.array_publish.specs.Holders.{active_words, member_in};
ghost use Rattle.array_publish.specs.Search.{listed_member};
ghost use Rattle.array_publish.specs.Writing.{EndsBelow, EndsFrom};

use crate::copies::{Listed, place_of_copy, place_of_member};
use reg_model::Member;
use word_rule::{Caller, Words};

/// Which copy is active, and where in the table it and the other one begin.
#[derive(Clone, Copy)]
pub struct CopyStarts {
    pub copy: u32,
    pub active: u32,
    pub spare: u32,
}

/// The active copy, and how many members it lists.
#[derive(Clone, Copy)]
pub struct ActiveCopy {
    pub starts: CopyStarts,
    pub count: u32,
}

/// Where both copies begin, of which this one is active. It takes products, so an update works it
/// out once.
pub fn starts_of(words: &Words, copy: u32) -> CopyStarts
    requires valid { AreTerms words.now.terms }
    requires one { copy < 2 }
    ensures copy { result.copy ≡ copy }
    ensures starts { HasStarts words.now.terms result }
{
    CopyStarts {
        copy,
        active: place_of_copy(words, copy),
        spare: place_of_copy(words, 1 - copy),
    }
}

/// Loads a word of the active copy, counted from its first.
#[inline(always)]
pub fn active_word(words: &Words, me: &mut Caller, starts: &CopyStarts, at: u32) -> u64
    requires work { MayWork words.now starts.now me.old }
    requires inside { at < copy_words words.now.terms }
    ensures loads { LoadsHeld me.old me.new }
    ensures value { result ≡ slice_index (active_words me.old.log.loader) at }
{
    words.load_copy(me, starts.active + at)
}

/// What the active copy says of the member with this index: three words, of which no member is
/// made where they are only written again.
#[inline(always)]
pub fn active_listed(words: &Words, me: &mut Caller, starts: &CopyStarts, index: u32) -> Listed
    requires work { MayWork words.now starts.now me.old }
    requires inside { index < words.now.terms.loads }
    ensures loads { LoadsHeld me.old me.new }
    ensures value { listed_member result ≡ member_in (active_words me.old.log.loader) index }
{
    let place = place_of_member(index);
    let first = active_word(words, me, starts, place);
    let last = active_word(words, me, starts, place + 1);
    let payload = active_word(words, me, starts, place + 2);
    Listed {
        first,
        last,
        payload,
    }
}

/// The member of the active copy with this index.
pub fn active_member(words: &Words, me: &mut Caller, starts: &CopyStarts, index: u32) -> Member
    requires work { MayWork words.now starts.now me.old }
    requires inside { index < words.now.terms.loads }
    requires known { IsMemberOf words.now.terms (member_in (active_words me.old.log.loader) index) }
    ensures loads { LoadsHeld me.old me.new }
    ensures value { result ≡ member_in (active_words me.old.log.loader) index }
{
    let listed = active_listed(words, me, starts, index);
    listed.member()
}

/// How many members of the active copy end below the address. Half of those that are left are
/// passed by at a time.
pub fn ending_below(words: &Words, me: &mut Caller, active: &ActiveCopy, address: u64) -> u32
    requires work { MayWork words.now active.now.starts me.old }
    requires room { active.now.count ≤ words.now.terms.loads }
    ensures loads { LoadsHeld me.old me.new }
    ensures inside { result ≤ active.now.count }
    ensures below { EndsBelow (active_words me.old.log.loader) address result }
    ensures above { EndsFrom (active_words me.old.log.loader) address active.now.count result }
{
    let mut low = 0;
    let mut high = active.count;
    while low < high {
        let index = low + (high - low) / 2;
        let last = active_word(words, me, &active.starts, place_of_member(index) + 1);
        if last < address {
            low = index + 1;
        } else {
            high = index;
        }
    }
    low
}
