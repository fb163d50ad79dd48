//! A registry for one thread, over plain lists.

ghost use Rattle.std.specs.Prelude.{◌≡◌, ◌+◌, ◌^◌, ◌<◌, ◌≤◌, ◌↔◌, ◌==◌, ◌++◌, vec_len, not};
ghost use Rattle.std.specs.Prelude.{IsTrue, IfOk, IfSome, OnErr, MatchOption};
ghost use Rattle.reg_model.specs.State.{opening, at_base, at_span, IsFree, AreDisjoint};
ghost use Rattle.reg_model.specs.State.{IsLowestOverlap};
ghost use Rattle.reg_model.specs.History.{without, with_payload};
ghost use Rattle.reg_model.specs.Query.{member_at};
ghost use Rattle.reg_model.specs.PlainRegistryData.{Step, IsDoneOrOverlap};
ghost use Rattle.reg_model.specs.Receipt.{IsPlace};
ghost use Rattle.reg_model.specs.declared.answer.Receipt.TheVariants as receipt;
ghost use Rattle.reg_model.specs.declared.answer.Half.TheVariants as half;

use crate::answer::{Found, Inserted, Loading, NoMemory, Place, Removed, Replaced};
use crate::span::{Member, Span};
use std::alloc::Global;
use std::marker::Model;

/// The registered, the loaded and the fixed members, each in a list without order, and a count of
/// the updates.
///
/// A call costs a walk over a list: this is what the shared registry is measured against, not what
/// serves threads.
#[derive(Drop)]
pub struct PlainRegistry {
    registered: Vec<Member>,
    loaded: Vec<Member>,
    fixed: Vec<Member>,
    loads: u32,
    updates: u32,
}

impl Model for PlainRegistry {
    ghost use Rattle.std.specs.Prelude.{◌≤◌, vec_len};
    ghost use Rattle.reg_model.specs.PlainRegistryData.{PlainRegistryData};

    ghost Value = { PlainRegistryData };

    ghost view = { λ r. record {
      state = record {
        registered = r.registered.items;
        loaded = r.loaded.items;
        fixed = r.fixed.items;
        loads = r.loads;
      };
      updates = r.updates;
    } };

    ghost invariant = { λ r. vec_len r.loaded ≤ r.loads };
}

impl PlainRegistry {
    /// A registry with these fixed members, of which at most `loads` others may be loaded at a
    /// time. It takes no memory.
    pub fn new(alloc: Global, fixed: Vec<Member>, loads: u32) -> Self
        requires { AreDisjoint fixed.items }
        ensures { result ≡ record { state = opening fixed.items loads; updates = 0 } }
    {
        PlainRegistry {
            registered: Vec::new(alloc),
            loaded: Vec::new(alloc),
            fixed,
            loads,
            updates: 0,
        }
    }

    /// How many updates were accepted.
    pub fn updates(&self) -> u32
        ensures { result ≡ self.now.updates }
    {
        self.updates
    }

    /// Registers a member where no registered one overlaps it. The overlapping member with the
    /// least first address is named.
    pub fn register(&mut self, member: Member) -> Result<Inserted, NoMemory>
        requires { self.old.updates < 2 ^ 26 }
        ensures step { IfOk result
            (λ answer. Step self.old (receipt.Register member answer) self.new) }
        ensures answers { IfOk result IsDoneOrOverlap }
        ensures err { OnErr result (self.new ≡ self.old) }
    {
        let stamp = self.updates;
        if let Some(member) = lowest_overlap(&self.registered, &member.span) {
            return Ok(Inserted::Overlap { member, stamp });
        }
        self.registered.push(member)?;
        self.updates = stamp + 1;
        Ok(Inserted::Done { number: stamp + 1 })
    }

    /// Removes the registered member with this first address.
    pub fn deregister(&mut self, base: u64) -> Removed
        requires { self.old.updates < 2 ^ 26 }
        ensures step { Step self.old (receipt.Deregister base result) self.new }
    {
        let stamp = self.updates;
        match with_base(&self.registered, base) {
            None => Removed::NotFound { stamp },
            Some(member) => {
                remove_base(&mut self.registered, base);
                self.updates = stamp + 1;
                Removed::Done {
                    number: stamp + 1,
                    member,
                }
            }
        }
    }

    /// Gives the registered member that has this one's span its payload.
    pub fn replace(&mut self, member: Member) -> Replaced
        requires { self.old.updates < 2 ^ 26 }
        ensures step { Step self.old (receipt.Replace member result) self.new }
    {
        let stamp = self.updates;
        match exchange(&mut self.registered, &member) {
            None => Replaced::NotFound { stamp },
            Some(old) => {
                self.updates = stamp + 1;
                Replaced::Done {
                    number: stamp + 1,
                    payload: old.payload,
                }
            }
        }
    }

    /// Loads a member where no fixed or loaded one overlaps it, and fewer are loaded than may be.
    /// The overlapping member with the least first address is named, also where no more may be
    /// loaded.
    pub fn load(&mut self, member: Member) -> Result<Loading, NoMemory>
        requires { self.old.updates < 2 ^ 26 }
        ensures step { IfOk result (λ answer. Step self.old (receipt.Load member answer) self.new) }
        ensures err { OnErr result (self.new ≡ self.old) }
    {
        let stamp = self.updates;
        if let Some(member) = lowest_object(&self.fixed, &self.loaded, &member.span) {
            return Ok(Loading::Overlap { member, stamp });
        }
        if self.loaded.len() >= self.loads as usize {
            return Ok(Loading::LoadFull { stamp });
        }
        self.loaded.push(member)?;
        self.updates = stamp + 1;
        Ok(Loading::Done { number: stamp + 1 })
    }

    /// Takes out the loaded member with this first address. A fixed one stays.
    pub fn unload(&mut self, base: u64) -> Removed
        requires { self.old.updates < 2 ^ 26 }
        ensures step { Step self.old (receipt.Unload base result) self.new }
    {
        let stamp = self.updates;
        match with_base(&self.loaded, base) {
            None => Removed::NotFound { stamp },
            Some(member) => {
                remove_base(&mut self.loaded, base);
                self.updates = stamp + 1;
                Removed::Done {
                    number: stamp + 1,
                    member,
                }
            }
        }
    }

    /// The registered member that contains the address, or else the fixed or loaded one.
    pub fn find(&self, pc: u64) -> Place
        ensures registered { Step self.now (receipt.Query half.Registered pc result.registered)
            self.now }
        ensures loaded { IfSome result.loaded
            (λ found. Step self.now (receipt.Query half.Loaded pc found) self.now) }
        ensures halves { IsPlace result }
    {
        let stamp = self.updates;
        match containing(&self.registered, pc) {
            Some(member) => Place {
                registered: Found::Hit { member, stamp },
                loaded: None,
            },
            None => Place {
                registered: Found::Miss { stamp },
                loaded: Some(match object_containing(&self.fixed, &self.loaded, pc) {
                    Some(member) => Found::Hit { member, stamp },
                    None => Found::Miss { stamp },
                }),
            },
        }
    }
}

/// The member that contains the address.
fn containing(members: &[Member], pc: u64) -> Option<Member>
    ensures { result ≡ member_at pc members.now }
{
    for member in members {
        if member.span.contains(pc) {
            return Some(*member);
        }
    }
    None
}

/// The same of the loader's members, which stand in two lists.
fn object_containing(fixed: &[Member], loaded: &[Member], pc: u64) -> Option<Member>
    ensures { result ≡ member_at pc (fixed.now ++ loaded.now) }
{
    containing(fixed, pc).or(containing(loaded, pc))
}

/// The member with this first address.
fn with_base(members: &[Member], base: u64) -> Option<Member>
    ensures { result ≡ at_base base members.now }
{
    for member in members {
        if member.span.first() == base {
            return Some(*member);
        }
    }
    None
}

/// Removes the members with this first address; of disjoint members that is one at most.
fn remove_base(members: &mut Vec<Member>, base: u64)
    ensures rest { members.new.items ≡ without base members.old.items }
    ensures fewer { vec_len members.new ≤ vec_len members.old }
{
    members.retain(
        |member: &Member| -> bool
            ensures { result ≡ not (member.now.span.first == base) }
        { member.span.first() != base },
    );
}

/// Gives the member with this one's span its payload, and answers what it was before.
fn exchange(members: &mut [Member], member: &Member) -> Option<Member>
    ensures before { result ≡ at_span member.now.span members.old }
    ensures payload { members.new ≡ with_payload member.now members.old }
{
    let mut before = None;
    for place in members.iter_mut() {
        if place.span == member.span {
            before = before.or(Some(*place));
            *place = *member;
        }
    }
    before
}

/// Of the members that overlap the span, the one with the least first address.
fn lowest_overlap(members: &[Member], span: &Span) -> Option<Member>
    ensures { MatchOption result (IsFree span.now members.now)
        (IsLowestOverlap span.now members.now) }
{
    let mut lowest = None;
    for member in members {
        if member.span.overlaps(span) && begins_below(member, &lowest) {
            lowest = Some(*member);
        }
    }
    lowest
}

/// The same of the loader's members, which stand in two lists.
fn lowest_object(fixed: &[Member], loaded: &[Member], span: &Span) -> Option<Member>
    ensures { MatchOption result (IsFree span.now (fixed.now ++ loaded.now))
        (IsLowestOverlap span.now (fixed.now ++ loaded.now)) }
{
    let in_fixed = lowest_overlap(fixed, span);
    match lowest_overlap(loaded, span) {
        Some(in_loaded) if begins_below(&in_loaded, &in_fixed) => Some(in_loaded),
        _ => in_fixed,
    }
}

/// Whether the member begins below the lowest one so far.
fn begins_below(member: &Member, lowest: &Option<Member>) -> bool
    ensures { IsTrue result ↔ IfSome lowest.now (λ best. member.now.span.first < best.span.first) }
{
    match lowest {
        None => true,
        Some(best) => member.span.first() < best.span.first(),
    }
}
