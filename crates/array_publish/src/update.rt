//! Updates of the loader by who holds its lock, so one is made at a time; lookups go on.
ghost use Rattle.std.specs.Prelude.{◌≡◌, ◌≢◌, ◌<◌, ◌≤◌, ◌⊎◌, ◌++◌, List, IfSome, IfNone};
ghost use Rattle.reg_model.specs.State.{IsFree, IsLowestOverlap};
ghost use Rattle.reg_model.specs.declared.span.Member.{Member};
ghost use Rattle.segment_array.specs.Ascending.{AscendFrom};
ghost use Rattle.word_rule.specs.CallerData.{due};
ghost use Rattle.word_rule.specs.Copies.{IsBehind, ListsMembers};
ghost use Rattle.array_publish.specs.Holders.{LoadsHeld, active_words, member_in, spare_words};
ghost use Rattle.array_publish.specs.Writing.{EndsBelow, EndsFrom};
ghost use Rattle.array_publish.specs.Update.{AnswersLoad, AnswersUnload, HoldsCopies, IsClean};
ghost use Rattle.array_publish.specs.Update.{KnowsCopy, Works};

use crate::active::{ActiveCopy, active_member, active_word, ending_below, starts_of};
use crate::copies::COUNT;
use crate::writing::{ListChange, write_copy};
use reg_model::{Loading, Member, Removed, Span, Update};
use word_rule::places::{LOWER, updates_at};
use word_rule::{Ask, Caller, Words};

/// The active copy, and how many members it lists. The other one is a publication behind it, as
/// nothing was stored under the lock.
fn active_copy(words: &Words, me: &mut Caller) -> ActiveCopy
    requires table { me.old.table ≡ words.now.table }
    requires held { HoldsCopies me.old.log.terms me.old }
    requires clean { IsClean me.old }
    ensures works { Works me.old me.new }
    ensures kept { me.new.log.loader ≡ me.old.log.loader }
    ensures knows { KnowsCopy words.now result me.new }
    ensures behind { IsBehind words.now.terms (active_words me.old.log.loader)
        (spare_words me.old.log.loader) }
{
    let clock = words.load_clock(me, Ask::Nothing);
    let starts = starts_of(words, (clock / LOWER % 2) as u32);
    let count = active_word(words, me, &starts, COUNT) as u32;
    ActiveCopy { starts, count }
}

/// Of members that ascend, the first one that overlaps the span: the first that doesn't end below
/// it, or none. Half of those that are left are passed by at a time.
fn first_overlap(members: &[Member], span: &Span) -> Option<Member>
    requires { AscendFrom 0 members.now }
    ensures found { IfSome result (IsLowestOverlap span.now members.now) }
    ensures none { IfNone result (IsFree span.now members.now) }
{
    let first = span.first();
    let mut low = 0;
    let mut high = members.len();
    while low < high {
        let middle = low + (high - low) / 2;
        let member = &members[middle];
        if member.span.last() < first {
            low = middle + 1;
        } else {
            high = middle;
        }
    }
    if low == members.len() {
        return None;
    }
    let member = members[low];
    if member.span.overlaps(span) {
        Some(member)
    } else {
        None
    }
}

/// The lowest of the fixed and the loaded members that overlap a span, below which so many loaded
/// ones end.
fn lowest_overlap(
    words: &Words,
    me: &mut Caller,
    active: &ActiveCopy,
    place: u32,
    span: &Span,
) -> Option<Member>
    requires knows { KnowsCopy words.now active.now me.old }
    requires inside { place ≤ active.now.count }
    requires below { EndsBelow (active_words me.old.log.loader) span.now.first place }
    requires above { EndsFrom (active_words me.old.log.loader) span.now.first active.now.count
        place }
    ensures loads { LoadsHeld me.old me.new }
    ensures found { (xs : List Member) → ListsMembers (active_words me.old.log.loader) xs
        → IfSome result (IsLowestOverlap span.now (words.now.terms.fixed ++ xs)) }
    ensures none { IfNone result (IsFree span.now words.now.terms.fixed
        × ((place ≡ active.now.count)
        ⊎ (span.now.last < (member_in (active_words me.old.log.loader) place).span.first))) }
{
    let fixed = first_overlap(words.fixed(), span);
    if place == active.count {
        return fixed;
    }
    let member = active_member(words, me, &active.starts, place);
    if span.last() < member.span.first() {
        return fixed;
    }
    match fixed {
        None => Some(member),
        Some(low) => {
            if member.span.first() < low.span.first() {
                Some(member)
            } else {
                Some(low)
            }
        }
    }
}

/// The member of the active copy at a place, where it begins at the address.
fn beginning_at(
    words: &Words,
    me: &mut Caller,
    active: &ActiveCopy,
    place: u32,
    base: u64,
) -> Option<Member>
    requires knows { KnowsCopy words.now active.now me.old }
    requires inside { place ≤ active.now.count }
    ensures loads { LoadsHeld me.old me.new }
    ensures found { IfSome result (λ m. (place < active.now.count)
        × (m ≡ member_in (active_words me.old.log.loader) place) × (m.span.first ≡ base)) }
    ensures none { IfNone result ((place ≡ active.now.count)
        ⊎ ((member_in (active_words me.old.log.loader) place).span.first ≢ base)) }
{
    if place == active.count {
        return None;
    }
    let member = active_member(words, me, &active.starts, place);
    if member.span.first() == base {
        Some(member)
    } else {
        None
    }
}

/// Loads a member, by the holder of the loader's lock.
pub fn load_held(words: &Words, me: &mut Caller, member: &Member) -> Loading
    requires table { me.old.table ≡ words.now.table }
    requires held { HoldsCopies me.old.log.terms me.old }
    requires clean { IsClean me.old }
    requires due { 0 < due me.old }
    requires payload { member.now.payload < words.now.terms.payloads }
    ensures answer { AnswersLoad words.now.terms member.now me.old me.new result }
    ensures terms { me.old.log.terms ≡ words.now.terms }
{
    let active = active_copy(words, me);
    let place = ending_below(words, me, &active, member.span.first());
    let update = Update::Load { member: *member };
    if let Some(other) = lowest_overlap(words, me, &active, place, &member.span) {
        let clock = words.load_clock(me, Ask::Refused { update });
        return Loading::Overlap {
            member: other,
            stamp: updates_at(clock),
        };
    }
    if active.count == words.loads() {
        let clock = words.load_clock(me, Ask::Refused { update });
        return Loading::LoadFull {
            stamp: updates_at(clock),
        };
    }
    let change = ListChange::Put {
        place,
        member: *member,
    };
    write_copy(words, me, &active, &change, active.count + 1);
    let number = words.publish(me, update);
    Loading::Done { number }
}

/// Unloads the loaded member that begins at an address, by the holder of the loader's lock.
pub fn unload_held(words: &Words, me: &mut Caller, base: u64) -> Removed
    requires table { me.old.table ≡ words.now.table }
    requires held { HoldsCopies me.old.log.terms me.old }
    requires clean { IsClean me.old }
    requires due { 0 < due me.old }
    ensures answer { AnswersUnload words.now.terms base me.old me.new result }
    ensures terms { me.old.log.terms ≡ words.now.terms }
{
    let active = active_copy(words, me);
    let place = ending_below(words, me, &active, base);
    let update = Update::Unload { base };
    let Some(member) = beginning_at(words, me, &active, place, base) else {
        let clock = words.load_clock(me, Ask::Refused { update });
        return Removed::NotFound {
            stamp: updates_at(clock),
        };
    };
    let change = ListChange::Take { place };
    write_copy(words, me, &active, &change, active.count - 1);
    let number = words.publish(me, update);
    Removed::Done { number, member }
}
