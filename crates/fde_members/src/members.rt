//! A member for each FDE that has addresses, with the distance to the FDE as its payload.

ghost use Rattle.std.specs.Prelude.{◌≡◌, ◌+◌, ◌-◌, ◌^◌, ◌<◌, ◌≤◌, ◌++◌, ◌∷◌, []};
ghost use Rattle.std.specs.Prelude.{IfOk, IfErr, OnOk, true};
ghost use Rattle.fde_members.specs.Members.{AreNear, IsFaultOf, IsMembersFault, distance};
ghost use Rattle.fde_members.specs.Members.{fde_address, fde_member, is_kept, is_near, members_at};
ghost use Rattle.fde_members.specs.Members.{section_members};
ghost use Rattle.fde_members.specs.declared.members.MembersFault.TheVariants.{Far};

use frame_parse::{Fde, Section};
use reg_model::{Member, Span};
use std::alloc::Global;

/// Why a section has no members.
#[derive(Clone, Copy, Debug, PartialEq, Eq)]
pub enum MembersFault {
    NoMemory,
    /// An FDE stands too far from its code: how far, counted from the registry's own number.
    Far { distance: u64 },
}

/// Whether an FDE has addresses. One whose first is 0 is none: its code was thrown away by a
/// linker.
fn is_kept(fde: &Fde<'_>) -> bool
    ensures { result ≡ is_kept fde.now.entry }
{
    0 < fde.first() && 0 < fde.range()
}

/// How far an FDE stands above a range's first address, counted from `low`.
fn distance(low: u64, first: u64, fde: u64) -> u64
    ensures { result ≡ distance low first fde }
{
    fde.wrapping_sub(first).wrapping_sub(low)
}

/// The address of the FDE to which a member leads, in a registry whose distances are counted from
/// `low`.
pub fn fde_address(low: u64, member: &Member) -> u64
    ensures { result ≡ fde_address low member.now }
{
    let first = member.span.first();
    first
        .wrapping_add(low)
        .wrapping_add(u64::from(member.payload))
}

/// The member of an FDE, or how far the FDE is from its code.
fn fde_member(low: u64, address: u64, fde: &Fde<'_>) -> Result<Member, MembersFault>
    requires kept { is_kept fde.now.entry ≡ true }
    requires ends { fde.now.entry.first + fde.now.entry.range < 2 ^ 64 }
    ensures member { IfOk result (λ m. m ≡ fde_member low address fde.now.entry) }
    ensures near { IfOk result (λ m. is_near m ≡ true) }
    ensures far { IfErr result (λ f. f ≡ Far (fde_member low address fde.now.entry).payload) }
    ensures apart { IfErr result (λ f.
        2 ^ 32 - 1 ≤ (fde_member low address fde.now.entry).payload) }
{
    let Some(span) = Span::new(fde.first(), fde.range()) else {
        unreachable!()
    };
    let place = address.wrapping_add(fde.place() as u64);
    let distance = distance(low, fde.first(), place);
    if distance >= u64::from(u32::MAX) {
        return Err(MembersFault::Far { distance });
    }
    let payload = distance as u32;
    Ok(Member { span, payload })
}

/// Adds the member of an FDE, where it has addresses.
fn add_member(
    members: &mut Vec<Member>,
    low: u64,
    address: u64,
    fde: &Fde<'_>,
) -> Result<(), MembersFault>
    requires { fde.now.entry.first + fde.now.entry.range < 2 ^ 64 }
    ensures member { OnOk result
        (members.new.items ≡ members.old.items ++ members_at low address (fde.now.entry ∷ [])) }
    ensures near { OnOk result (AreNear (members_at low address (fde.now.entry ∷ []))) }
    ensures fault { IfErr result (IsFaultOf low address fde.now.entry) }
{
    if !is_kept(fde) {
        return Ok(());
    }
    let member = fde_member(low, address, fde)?;
    match members.push(member) {
        Ok(()) => Ok(()),
        Err(_) => Err(MembersFault::NoMemory),
    }
}

/// The members of a section's FDEs, in order of bytes; FDEs without addresses have none. `low` is
/// where distances are counted from. The first FDE that is too far from its code is refused.
pub fn section_members(
    alloc: Global,
    low: u64,
    section: &Section,
) -> Result<Vec<Member>, MembersFault>
    ensures members { IfOk result (λ v. v.items ≡ section_members low section.now) }
    ensures near { IfOk result (λ v. AreNear v.items) }
    ensures fault { IfErr result (IsMembersFault low section.now) }
{
    section.known();
    let address = section.address();
    let mut members = Vec::new(alloc);
    if members.try_reserve(section.count()).is_err() {
        return Err(MembersFault::NoMemory);
    }
    for index in 0..section.count() {
        let fde = section.fde(index);
        add_member(&mut members, low, address, &fde)?;
    }
    Ok(members)
}
