//! A registry's state.

ghost use Rattle.std.specs.Prelude.{◌≡◌, ◌<◌, ◌≤◌, ◌↔◌, List, IsTrue, IfOk, OnOk, All, Contains};
ghost use Rattle.std.specs.Prelude.{length, IsSomeAnd};
ghost use Rattle.reg_model.specs.SpanData.{Overlaps};
ghost use Rattle.reg_model.specs.State.{State, opening, IsFree, IsLowestOverlap, objects};
ghost use Rattle.reg_model.specs.History.{Fits, after};
ghost use Rattle.reg_model.specs.Receipt.{IsRight, IsRightRemoval, IsRightReplacement, member_of};
ghost use Rattle.reg_model.specs.Query.{query};
ghost use Rattle.reg_model.specs.declared.span.Member.{Member};
ghost use Rattle.reg_model.specs.declared.answer.Receipt.TheVariants as receipt;
ghost use Rattle.receipt_check.specs.Maps.{Reflects, ShowsState};

use crate::member_map::MemberMap;
use crate::members::is_same;
use reg_model::{
    Found, Half, Inserted, Loading, Member, NoMemory, Receipt, Removed, Replaced, Span, Update,
};
use std::alloc::Global;

/// What is registered, what is loaded, what is there for good, and how many may be loaded.
#[derive(Drop)]
pub struct Lists {
    registered: MemberMap,
    loaded: MemberMap,
    fixed: MemberMap,
    loads: u32,
}

impl Lists {
    /// Nothing is registered or loaded yet.
    pub fn opening(alloc: Global, fixed: &[Member], loads: u32) -> Result<Self, NoMemory>
        ensures { IfOk result (λ lists. ShowsState lists (opening fixed.now loads)) }
    {
        Ok(Lists {
            registered: MemberMap::new(alloc),
            loaded: MemberMap::new(alloc),
            fixed: MemberMap::of(alloc, fixed)?,
            loads,
        })
    }

    /// Makes an update, whether it fits or not.
    pub fn make(&mut self, update: &Update) -> Result<(), NoMemory>
        ensures { OnOk result ((s : State) → ShowsState self.old s
            → ShowsState self.new (after update.now s)) }
    {
        match update {
            Update::Register { member } => return self.registered.push(member),
            Update::Deregister { base } => self.registered.remove(*base),
            Update::Replace { member } => return self.registered.replace(member),
            Update::Load { member } => return self.loaded.push(member),
            Update::Unload { base } => self.loaded.remove(*base),
        }
        Ok(())
    }

    /// How many are registered.
    pub fn registered_count(&self) -> usize
        ensures { (s : State) → ShowsState self.now s → result ≡ length s.registered }
    {
        self.registered.len()
    }

    /// Whether the update can be made.
    pub fn fits(&self, update: &Update) -> bool
        ensures { (s : State) → ShowsState self.now s → (IsTrue result ↔ Fits update.now s) }
    {
        match update {
            Update::Register { member } => self.registered.is_free(&member.span),
            Update::Deregister { base } => self.registered.with_base(*base).is_some(),
            Update::Replace { member } => self.registered.with_span(&member.span).is_some(),
            Update::Load { member } => { self.is_free_of_objects(&member.span) && self.has_room() }
            Update::Unload { base } => self.loaded.with_base(*base).is_some(),
        }
    }

    /// Whether one more may be loaded.
    fn has_room(&self) -> bool
        ensures { (s : State) → ShowsState self.now s
            → (IsTrue result ↔ (length s.loaded < s.loads)) }
    {
        self.loaded.len() < self.loads as usize
    }

    /// Whether as many are loaded as may be.
    fn is_full(&self) -> bool
        ensures { (s : State) → ShowsState self.now s
            → (IsTrue result ↔ (length s.loaded ≡ s.loads)) }
    {
        self.loaded.len() == self.loads as usize
    }

    /// Whether none of the loader's members overlaps the span.
    fn is_free_of_objects(&self, span: &Span) -> bool
        ensures { (s : State) → ShowsState self.now s
            → (IsTrue result ↔ IsFree span.now (objects s)) }
    {
        self.fixed.is_free(span) && self.loaded.is_free(span)
    }

    /// Whether the answer is right of this state.
    pub fn is_right(&self, receipt: &Receipt) -> bool
        ensures { (s : State) → ShowsState self.now s → (IsTrue result ↔ IsRight s receipt.now) }
    {
        match receipt {
            Receipt::Register { member, answer } => self.is_right_insertion(member, answer),
            Receipt::Deregister { base, answer } => {
                is_right_removal(&self.registered, *base, answer)
            }
            Receipt::Replace { member, answer } => {
                is_right_replacement(&self.registered, member, answer)
            }
            Receipt::Load { member, answer } => self.is_right_load(member, answer),
            Receipt::Unload { base, answer } => is_right_removal(&self.loaded, *base, answer),
            Receipt::Query { half, pc, found } => {
                is_same(self.asked(*half, *pc), member_in(found))
            }
        }
    }

    fn is_right_insertion(&self, member: &Member, answer: &Inserted) -> bool
        ensures { (s : State) → ShowsState self.now s
            → (IsTrue result ↔ IsRight s (receipt.Register member.now answer.now)) }
    {
        match answer {
            Inserted::Done { .. } => true,
            Inserted::Overlap { member: other, .. } => {
                is_lowest(&self.registered, &member.span, other)
            }
            Inserted::Full { .. } => self.registered.is_free(&member.span),
            Inserted::Spent => false,
        }
    }

    fn is_right_load(&self, member: &Member, answer: &Loading) -> bool
        ensures { (s : State) → ShowsState self.now s
            → (IsTrue result ↔ IsRight s (receipt.Load member.now answer.now)) }
    {
        match answer {
            Loading::Done { .. } => true,
            Loading::Overlap { member: other, .. } => self.is_lowest_object(&member.span, other),
            Loading::LoadFull { .. } => { self.is_free_of_objects(&member.span) && self.is_full() }
            Loading::Spent => false,
        }
    }

    /// Whether of the loader's members that overlap the span this one has the least first address.
    fn is_lowest_object(&self, span: &Span, member: &Member) -> bool
        ensures { (s : State) → ShowsState self.now s
            → (IsTrue result ↔ IsLowestOverlap span.now (objects s) member.now) }
    {
        if !self.is_object(member) {
            return false;
        }
        if !member.span.overlaps(span) {
            return false;
        }
        self.objects_begin_from(span, member.span.first())
    }

    /// Whether it is one of the loader's members.
    fn is_object(&self, member: &Member) -> bool
        ensures { (s : State) → ShowsState self.now s
            → (IsTrue result ↔ Contains (objects s) member.now) }
    {
        self.fixed.is_listed(member) || self.loaded.is_listed(member)
    }

    /// Whether none of the loader's members that overlaps the span begins below an address.
    fn objects_begin_from(&self, span: &Span, first: u64) -> bool
        ensures { (s : State) → ShowsState self.now s → (IsTrue result
            ↔ All (λ m. Overlaps m.span span.now → first ≤ m.span.first) (objects s)) }
    {
        self.fixed.all_begin_from(span, first) && self.loaded.all_begin_from(span, first)
    }

    /// The member of a half that contains the address.
    fn asked(&self, half: Half, pc: u64) -> Option<Member>
        ensures { (s : State) → ShowsState self.now s → result ≡ query half pc s }
    {
        match half {
            Half::Registered => self.registered.containing(pc),
            Half::Loaded => self.fixed.containing(pc).or(self.loaded.containing(pc)),
        }
    }
}

/// Whether of the members that overlap the span this one has the least first address.
fn is_lowest(members: &MemberMap, span: &Span, member: &Member) -> bool
    ensures { (list : List Member) → Reflects members.now list
        → (IsTrue result ↔ IsLowestOverlap span.now list member.now) }
{
    if !members.is_listed(member) {
        return false;
    }
    if !member.span.overlaps(span) {
        return false;
    }
    members.all_begin_from(span, member.span.first())
}

/// Whether the answer to a removal is right of these members.
fn is_right_removal(members: &MemberMap, base: u64, answer: &Removed) -> bool
    ensures { (list : List Member) → Reflects members.now list
        → (IsTrue result ↔ IsRightRemoval base list answer.now) }
{
    match answer {
        Removed::Done { member, .. } => is_same(members.with_base(base), Some(*member)),
        Removed::NotFound { .. } => members.with_base(base).is_none(),
        Removed::Spent => false,
    }
}

/// Whether the answer to a replacement is right of these members.
fn is_right_replacement(members: &MemberMap, member: &Member, answer: &Replaced) -> bool
    ensures { (list : List Member) → Reflects members.now list
        → (IsTrue result ↔ IsRightReplacement member.now.span list answer.now) }
{
    match answer {
        Replaced::Done { payload, .. } => has_payload(members.with_span(&member.span), *payload),
        Replaced::NotFound { .. } => members.with_span(&member.span).is_none(),
        Replaced::Spent => false,
    }
}

/// Whether there is a member, and it has this payload.
fn has_payload(member: Option<Member>, payload: u32) -> bool
    ensures { IsTrue result ↔ IsSomeAnd member (λ m. m.payload ≡ payload) }
{
    match member {
        Some(member) => member.payload == payload,
        None => false,
    }
}

/// The member that was found.
fn member_in(found: &Found) -> Option<Member>
    ensures { result ≡ member_of found.now }
{
    match found {
        Found::Hit { member, .. } => Some(*member),
        Found::Miss { .. } => None,
    }
}
