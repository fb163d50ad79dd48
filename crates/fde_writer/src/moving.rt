//! The members of a section for another registry, in which distances are counted from elsewhere.

ghost use Rattle.std.specs.Prelude.{◌≡◌, ◌++◌, ◌∷◌, ◌<◌, ◌≤◌, ◌^◌, ◌-◌, All, IfOk, IfErr, map};
ghost use Rattle.std.specs.Prelude.{true};
ghost use Rattle.fde_members.specs.Members.{AreNear, is_near};
ghost use Rattle.fde_members.specs.declared.members.MembersFault.TheVariants.{Far};
ghost use Rattle.reg_model.specs.SpanData.{IsSpan};
ghost use Rattle.fde_writer.specs.Moves.{IsMoveFault, moved_member, moved_members};
ghost use Rattle.fde_writer.specs.Places.{PlaceData, placed_members};

use crate::place::MemberInHalf;
use fde_members::{MembersFault, fde_address};
use reg_model::Member;
use std::alloc::Global;

/// The members of places have spans.
pub fn have_spans(places: &[MemberInHalf])
    ensures { All (λ m. IsSpan m.span) (placed_members places.now) }
{
    for place in places {
        let _first = place.first();
    }
}

/// A member whose payload leads to the same FDE, or how far that is from its code.
fn moved_member(from: u64, to: u64, member: &Member) -> Result<Member, MembersFault>
    ensures member { IfOk result (λ m. m ≡ moved_member from to member.now) }
    ensures near { IfOk result (λ m. is_near m ≡ true) }
    ensures far { IfErr result (λ f. f ≡ Far (moved_member from to member.now).payload) }
    ensures apart { IfErr result (λ f.
        2 ^ 32 - 1 ≤ (moved_member from to member.now).payload) }
{
    let first = member.span.first();
    let distance = fde_address(from, member)
        .wrapping_sub(first)
        .wrapping_sub(to);
    if distance >= u64::from(u32::MAX) {
        return Err(MembersFault::Far { distance });
    }
    let payload = distance as u32;
    let span = member.span;
    Ok(Member { span, payload })
}

/// Those of all places. The first FDE that is too far from its code is refused.
pub fn moved_members(
    alloc: Global,
    from: u64,
    to: u64,
    places: &[MemberInHalf],
) -> Result<Vec<Member>, MembersFault>
    ensures members { IfOk result
        (λ v. v.items ≡ moved_members from to (placed_members places.now)) }
    ensures near { IfOk result (λ v. AreNear v.items) }
    ensures fault { IfErr result (IsMoveFault from to (placed_members places.now)) }
{
    let mut members = Vec::new(alloc);
    if members.try_reserve(places.len()).is_err() {
        return Err(MembersFault::NoMemory);
    }
    for place in places {
        let member = moved_member(from, to, &place.member())?;
        if members.push(member).is_err() {
            return Err(MembersFault::NoMemory);
        }
    }
    Ok(members)
}
