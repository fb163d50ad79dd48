//! Members by their first addresses.

ghost use Rattle.std.specs.Prelude.{◌≡◌, ℕ, ◌+◌, ◌++◌, [], ◌∷◌, ◌<◌, ◌≤◌, ◌↔◌, List, IsTrue, IfOk};
ghost use Rattle.std.specs.Prelude.{OnOk, All, Contains, length, Some, None, is_some, IsSome};
ghost use Rattle.std.specs.Prelude.{if◌then◌else◌};
ghost use Rattle.std.specs.BTreeMap.{get, btree_map_len};
ghost use Rattle.std.specs.Ordering.{nat_cmp};
ghost use Rattle.reg_model.specs.SpanData.{IsSpan, Overlaps, contains, is_same_span};
ghost use Rattle.reg_model.specs.State.{at_base, at_span, IsFree};
ghost use Rattle.reg_model.specs.History.{without, with_payload};
ghost use Rattle.reg_model.specs.Query.{member_at};
ghost use Rattle.reg_model.specs.declared.span.Member.{Member};
ghost use Rattle.receipt_check.specs.Maps.{IsMapOf, IsGreatestUpTo, Reflects};

use crate::members::{
    all_begin_from, containing, is_free, is_listed, is_same, remove_base, replace_in, with_base,
    with_span,
};
use reg_model::{Member, NoMemory, Span};
use std::alloc::Global;
use std::collections::BTreeMap;

/// A list of members. Those that overlap none before them stand in a map, so that a question is one
/// look at it; the first one that does, and what comes behind it, in a list. In a history whose
/// updates fit that list is empty.
#[derive(Drop)]
pub struct MemberMap {
    apart: BTreeMap<u64, Member>,
    rest: Vec<Member>,
}

impl MemberMap {
    pub fn new(alloc: Global) -> Self
        ensures { Reflects result [] }
    {
        MemberMap {
            apart: BTreeMap::new(alloc),
            rest: Vec::new(alloc),
        }
    }

    pub fn of(alloc: Global, members: &[Member]) -> Result<Self, NoMemory>
        ensures { IfOk result (λ map. Reflects map members.now) }
    {
        let mut map = MemberMap::new(alloc);
        for member in members {
            map.push(member)?;
        }
        Ok(map)
    }

    /// Adds a member at the end of the list.
    pub fn push(&mut self, member: &Member) -> Result<(), NoMemory>
        ensures { OnOk result ((list : List Member) → Reflects self.old list
            → Reflects self.new (list ++ member.now ∷ [])) }
    {
        if self.may_keep(&member.span) {
            self.keep(member)?;
            return Ok(());
        }
        self.rest.push(*member)?;
        Ok(())
    }

    /// Whether a member may stand in the map: no other stands behind it, and none overlaps it.
    fn may_keep(&self, span: &Span) -> bool
        ensures { (kept : List Member) → IsMapOf self.now.apart kept → IsTrue result
            → (self.now.rest.items ≡ []) × IsFree span.now kept }
    {
        if !self.rest.is_empty() {
            return false;
        }
        self.begin_above(span, span.last())
    }

    /// Keeps a member in the map.
    fn keep(&mut self, member: &Member) -> Result<(), NoMemory>
        ensures here { OnOk result
            (get nat_cmp self.new.apart member.now.span.first ≡ Some member.now) }
        ensures others { OnOk result ((base : ℕ) → (base ≡ member.now.span.first → ⊥)
            → get nat_cmp self.new.apart base ≡ get nat_cmp self.old.apart base) }
        ensures many { OnOk result (get nat_cmp self.old.apart member.now.span.first ≡ None
            → btree_map_len self.new.apart ≡ btree_map_len self.old.apart + 1) }
        ensures as_many { OnOk result (IsSome (get nat_cmp self.old.apart member.now.span.first)
            → btree_map_len self.new.apart ≡ btree_map_len self.old.apart) }
        ensures rest { OnOk result (self.new.rest.items ≡ self.old.rest.items) }
        ensures span { OnOk result (IsSpan member.now.span) }
    {
        self.apart.insert(member.span.first(), *member)?;
        Ok(())
    }

    /// Removes the members with this first address.
    pub fn remove(&mut self, base: u64)
        ensures { (list : List Member) → Reflects self.old list
            → Reflects self.new (without base list) }
    {
        self.let_go(base);
        remove_base(&mut self.rest, base);
    }

    /// Takes the one with this first address out of the map.
    fn let_go(&mut self, base: u64)
        ensures here { get nat_cmp self.new.apart base ≡ None }
        ensures others { (other : ℕ) → (other ≡ base → ⊥)
            → get nat_cmp self.new.apart other ≡ get nat_cmp self.old.apart other }
        ensures many { btree_map_len self.new.apart
            + (if (is_some (get nat_cmp self.old.apart base)) then 1 else 0)
            ≡ btree_map_len self.old.apart }
        ensures rest { self.new.rest.items ≡ self.old.rest.items }
    {
        self.apart.remove(&base);
    }

    /// Gives the members with this one's span its payload.
    pub fn replace(&mut self, member: &Member) -> Result<(), NoMemory>
        ensures { OnOk result ((list : List Member) → Reflects self.old list
            → Reflects self.new (with_payload member.now list)) }
    {
        self.replace_apart(member)?;
        replace_in(&mut self.rest, member);
        Ok(())
    }

    /// The same in the map.
    fn replace_apart(&mut self, member: &Member) -> Result<(), NoMemory>
        ensures apart { OnOk result ((kept : List Member) → IsMapOf self.old.apart kept
            → IsMapOf self.new.apart (with_payload member.now kept)) }
        ensures rest { OnOk result (self.new.rest.items ≡ self.old.rest.items) }
    {
        if self.apart_with(&member.span).is_none() {
            return Ok(());
        }
        self.keep(member)?;
        Ok(())
    }

    pub fn len(&self) -> usize
        ensures { (list : List Member) → Reflects self.now list → result ≡ length list }
    {
        self.apart.len() + self.rest.len()
    }

    /// The member that contains the address.
    pub fn containing(&self, pc: u64) -> Option<Member>
        ensures { (list : List Member) → Reflects self.now list → result ≡ member_at pc list }
    {
        self.apart_at(pc).or(containing(&self.rest, pc))
    }

    /// That of the map.
    fn apart_at(&self, pc: u64) -> Option<Member>
        ensures { (kept : List Member) → IsMapOf self.now.apart kept → result ≡ member_at pc kept }
    {
        match self.at_or_below(pc) {
            Some(member) => if_containing(member, pc),
            None => None,
        }
    }

    /// The member with this first address.
    pub fn with_base(&self, base: u64) -> Option<Member>
        ensures { (list : List Member) → Reflects self.now list → result ≡ at_base base list }
    {
        self.under(base).or(with_base(&self.rest, base))
    }

    /// The member with this whole span.
    pub fn with_span(&self, span: &Span) -> Option<Member>
        ensures { (list : List Member) → Reflects self.now list
            → result ≡ at_span span.now list }
    {
        self.apart_with(span).or(with_span(&self.rest, span))
    }

    /// That of the map.
    fn apart_with(&self, span: &Span) -> Option<Member>
        ensures { (kept : List Member) → IsMapOf self.now.apart kept
            → result ≡ at_span span.now kept }
    {
        match self.under(span.first()) {
            Some(member) => if_spanning(member, span),
            None => None,
        }
    }

    /// What stands in the map under a first address.
    fn under(&self, base: u64) -> Option<Member>
        ensures { result ≡ get nat_cmp self.now.apart base }
    {
        self.apart.get(&base).copied()
    }

    /// Whether no member overlaps the span.
    pub fn is_free(&self, span: &Span) -> bool
        ensures { (list : List Member) → Reflects self.now list
            → (IsTrue result ↔ IsFree span.now list) }
    {
        self.begin_above(span, span.last()) && is_free(&self.rest, span)
    }

    /// Whether none that overlaps the span begins below an address.
    pub fn all_begin_from(&self, span: &Span, first: u64) -> bool
        ensures { (list : List Member) → Reflects self.now list → (IsTrue result
            ↔ All (λ m. Overlaps m.span span.now → first ≤ m.span.first) list) }
    {
        self.begin_from(span, first) && all_begin_from(&self.rest, span, first)
    }

    /// The same of the map's.
    fn begin_from(&self, span: &Span, first: u64) -> bool
        ensures { (kept : List Member) → IsMapOf self.now.apart kept → (IsTrue result
            ↔ All (λ m. Overlaps m.span span.now → first ≤ m.span.first) kept) }
    {
        first == 0 || self.begin_above(span, first - 1)
    }

    /// Whether those of the map that overlap the span begin above an address. One look is enough:
    /// all before the last one up to there end below it.
    fn begin_above(&self, span: &Span, address: u64) -> bool
        ensures { (kept : List Member) → IsMapOf self.now.apart kept → (IsTrue result
            ↔ All (λ m. Overlaps m.span span.now → address < m.span.first) kept) }
    {
        match self.at_or_below(address.min(span.last())) {
            Some(member) => !member.span.overlaps(span),
            None => true,
        }
    }

    /// The last one of the map that begins at or below an address.
    fn at_or_below(&self, address: u64) -> Option<Member>
        ensures { IsGreatestUpTo self.now.apart address result }
    {
        match self.apart.range(..=address).next_back() {
            Some((_, member)) => Some(*member),
            None => None,
        }
    }

    /// Whether the member stands in the list.
    pub fn is_listed(&self, member: &Member) -> bool
        ensures { (list : List Member) → Reflects self.now list
            → (IsTrue result ↔ Contains list member.now) }
    {
        self.is_apart(member) || is_listed(&self.rest, member)
    }

    /// Whether it stands in the map.
    fn is_apart(&self, member: &Member) -> bool
        ensures { (kept : List Member) → IsMapOf self.now.apart kept
            → (IsTrue result ↔ Contains kept member.now) }
    {
        is_same(self.under(member.span.first()), Some(*member))
    }
}

/// The member, where it contains the address.
fn if_containing(member: Member, pc: u64) -> Option<Member>
    ensures { result ≡ (if (contains member.span pc) then (Some member) else None) }
{
    if member.span.contains(pc) {
        Some(member)
    } else {
        None
    }
}

/// The member, where this is its span.
fn if_spanning(member: Member, span: &Span) -> Option<Member>
    ensures { result ≡ (if (is_same_span member.span span.now) then (Some member) else None) }
{
    if member.span == *span {
        Some(member)
    } else {
        None
    }
}
