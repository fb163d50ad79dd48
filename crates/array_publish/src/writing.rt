//! The copy that isn't active, written under the loader's lock. It is one publication behind the
//! active one, so what it is to list differs from what it lists by two changes: only the members
//! between both, and only words that differ, are written.
ghost use Rattle.std.specs.Prelude.{◌≡◌, ℕ, ◌*◌, ◌<◌, ◌≤◌, length, slice_index, slice_set};
ghost use Rattle.word_rule.specs.Places.{copy_words, segments};
ghost use Rattle.array_publish.specs.Holders.{IsHolder, MayWork, Spells, active_words};
ghost use Rattle.array_publish.specs.Holders.{spare_words};
ghost use Rattle.array_publish.specs.Search.{listed_member};
ghost use Rattle.array_publish.specs.Update.{MayWrite};
ghost use Rattle.array_publish.specs.Writing.{HasMembers, HasPlace};
ghost use Rattle.array_publish.specs.Writing.{AreRightBeside, HaveHeaders, IsWritten, SameHeaders};
ghost use Rattle.array_publish.specs.Writing.{SameMembers, changed_count, change_place, wanted};
ghost use Rattle.array_publish.specs.Writing.{with_header, with_member, with_totals};
ghost use Rattle.word_rule.specs.Copies.{count_in};

use crate::active::{ActiveCopy, CopyStarts, active_listed};
use crate::copies::{COUNT, FULL, HEAD, Listed, place_of_member, place_of_segment};
use crate::other::{OtherCopy, other_copy};
use reg_model::Member;
use segment_array::segments_for;
use word_rule::{Caller, Words};

/// What an update makes of a list of members: one more, which comes to stand at a place, or the one
/// there less.
#[derive(Drop)]
pub enum ListChange {
    Put { place: u32, member: Member },
    Take { place: u32 },
}

/// The members of a copy that may have to change: from one index on, and before another one.
#[derive(Clone, Copy)]
pub struct Stretch {
    pub from: u32,
    pub to: u32,
}

/// Brings a word of the other copy to a value.
#[inline(always)]
fn store_word(words: &Words, me: &mut Caller, starts: &CopyStarts, at: u32, value: u64)
    requires work { MayWork words.now starts.now me.old }
    requires inside { at < copy_words words.now.terms }
    ensures spells { Spells (slice_set (spare_words me.old.log.loader) at value) me.old me.new }
    ensures kept { slice_index (spare_words me.old.log.loader) at ≡ value
        → me.new.log.trace.writes ≡ me.old.log.trace.writes }
{
    let place = starts.spare + at;
    if words.load_copy(me, place) != value {
        words.store_copy(me, place, value);
    }
}

/// Writes what is said of a member into its place.
#[inline(always)]
fn store_listed(words: &Words, me: &mut Caller, starts: &CopyStarts, index: u32, listed: Listed)
    requires work { MayWork words.now starts.now me.old }
    requires inside { index < words.now.terms.loads }
    ensures { Spells (with_member index (listed_member listed) (spare_words me.old.log.loader))
        me.old me.new }
{
    let place = place_of_member(index);
    store_word(words, me, starts, place, listed.first);
    store_word(words, me, starts, place + 1, listed.last);
    store_word(words, me, starts, place + 2, listed.payload);
}

/// What is said of the member with this index after a change.
#[inline(always)]
fn changed_listed(
    words: &Words,
    me: &mut Caller,
    active: &ActiveCopy,
    change: &ListChange,
    index: u32,
) -> Listed
    requires work { MayWork words.now active.now.starts me.old }
    requires place { HasPlace change.now active.now.count }
    requires room { active.now.count ≤ words.now.terms.loads }
    requires inside { index < changed_count change.now active.now.count }
    ensures same { Spells (spare_words me.old.log.loader) me.old me.new }
    ensures value { listed_member result
        ≡ wanted change.now (active_words me.old.log.loader) index }
{
    match change {
        ListChange::Put { place, member } => {
            if index < *place {
                active_listed(words, me, &active.starts, index)
            } else if index == *place {
                Listed::of(member)
            } else {
                active_listed(words, me, &active.starts, index - 1)
            }
        }
        ListChange::Take { place } => {
            if index < *place {
                active_listed(words, me, &active.starts, index)
            } else {
                active_listed(words, me, &active.starts, index + 1)
            }
        }
    }
}

/// The place of a change.
fn change_place(change: &ListChange) -> u32
    ensures { result ≡ change_place change.now }
{
    match change {
        ListChange::Put { place, .. } => *place,
        ListChange::Take { place } => *place,
    }
}

/// Which members of the other copy may have to change, where so many are to be listed: those from
/// the place of the last change or of this one on, up to the later one where one of both put and
/// the other one takes, so that those behind stand where they are to.
fn places_to_write(change: &ListChange, other: OtherCopy, count: u32) -> Stretch
    ensures inside { result.to ≤ count }
    ensures below { (i : ℕ) → i < result.from → (i < change_place change.now) × (i < other.place) }
    ensures above { (i : ℕ) → result.to ≤ i → i < count
        → (other.count ≡ count) × (change_place change.now < i) × (other.place < i) }
{
    let place = change_place(change);
    let from = place.min(other.place);
    if other.count != count {
        return Stretch { from, to: count };
    }
    let last = place.max(other.place);
    let to = if last < count { last + 1 } else { count };
    Stretch { from, to }
}

/// Writes these members as they are after a change, where all others of so many are so already.
fn write_members(
    words: &Words,
    me: &mut Caller,
    active: &ActiveCopy,
    change: &ListChange,
    at: Stretch,
)
    requires work { MayWork words.now active.now.starts me.old }
    requires place { HasPlace change.now active.now.count }
    requires before { active.now.count ≤ words.now.terms.loads }
    requires inside { at.to ≤ changed_count change.now active.now.count }
    requires room { changed_count change.now active.now.count ≤ words.now.terms.loads }
    requires rest { AreRightBeside change.now (active_words me.old.log.loader)
        (spare_words me.old.log.loader) (changed_count change.now active.now.count) at }
    ensures same { Spells (spare_words me.new.log.loader) me.old me.new }
    ensures holder { IsHolder words.now active.now.starts.copy me.new }
    ensures members { HasMembers change.now (active_words me.old.log.loader)
        (spare_words me.new.log.loader) (changed_count change.now active.now.count) }
    ensures headers { SameHeaders (spare_words me.old.log.loader) (spare_words me.new.log.loader) }
{
    for index in at.from..at.to {
        let listed = changed_listed(words, me, active, change, index);
        store_listed(words, me, &active.starts, index, listed);
    }
}

/// Says of a segment which is below it, and how many of so many members it has.
fn store_header(words: &Words, me: &mut Caller, starts: &CopyStarts, segment: u32, count: u32)
    requires work { MayWork words.now starts.now me.old }
    requires inside { segment < segments words.now.terms.loads }
    requires some { FULL * segment ≤ count }
    ensures { Spells (with_header segment (count_in count segment) (spare_words me.old.log.loader))
        me.old me.new }
{
    let place = place_of_segment(segment);
    store_word(words, me, starts, place, segment as u64);
    let members = FULL.min(count - FULL * segment);
    store_word(words, me, starts, place + 1, members as u64);
}

/// Says of each segment from this one on which is below it, and how many members it has. Those
/// below it say so already.
fn write_headers(words: &Words, me: &mut Caller, starts: &CopyStarts, first: u32, count: u32)
    requires work { MayWork words.now starts.now me.old }
    requires room { count ≤ words.now.terms.loads }
    requires below { HaveHeaders (spare_words me.old.log.loader) count first }
    ensures same { Spells (spare_words me.new.log.loader) me.old me.new }
    ensures holder { IsHolder words.now starts.now.copy me.new }
    ensures headers { HaveHeaders (spare_words me.new.log.loader) count (segments count) }
    ensures members { SameMembers (spare_words me.old.log.loader) (spare_words me.new.log.loader) }
{
    for segment in first..segments_for(count) {
        store_header(words, me, starts, segment, count);
    }
}

/// Says how many segments are in use, and how many members there are.
fn store_totals(words: &Words, me: &mut Caller, starts: &CopyStarts, count: u32)
    requires work { MayWork words.now starts.now me.old }
    ensures { Spells (with_totals count (spare_words me.old.log.loader)) me.old me.new }
{
    store_word(words, me, starts, HEAD, segments_for(count) as u64);
    store_word(words, me, starts, COUNT, count as u64);
}

/// Writes the copy that isn't active, in which nothing was stored yet: what the active one lists,
/// after a change.
pub fn write_copy(
    words: &Words,
    me: &mut Caller,
    active: &ActiveCopy,
    change: &ListChange,
    count: u32,
)
    requires may { MayWrite words.now active.now me.old }
    requires place { HasPlace change.now active.now.count }
    requires count { count ≡ changed_count change.now active.now.count }
    requires room { count ≤ words.now.terms.loads }
    ensures same { Spells (spare_words me.new.log.loader) me.old me.new }
    ensures wide { length (spare_words me.new.log.loader) ≡ copy_words words.now.terms }
    ensures written { IsWritten change.now (active_words me.old.log.loader) count
        (spare_words me.new.log.loader) }
{
    let other = other_copy(words, me, active);
    let places = places_to_write(change, other, count);
    write_members(words, me, active, change, places);
    let first = count.min(other.count) / FULL;
    write_headers(words, me, &active.starts, first, count);
    store_totals(words, me, &active.starts, count);
}
