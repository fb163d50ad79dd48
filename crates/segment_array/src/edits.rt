//! One member more in a segment, or one less.

ghost use Rattle.std.specs.Prelude.{◌≡◌, [], ◌∷◌, ◌++◌, ◌↔◌, length, IfSome, IsSome};
ghost use Rattle.std.specs.Option.{option_to_list};
ghost use Rattle.reg_model.specs.State.{IsFree, at_base};
ghost use Rattle.reg_model.specs.History.{without};
ghost use Rattle.segment_array.specs.Ascending.{AscendFrom};
ghost use Rattle.segment_array.specs.Placing.{IsWithMember};

use crate::find::place;
use crate::segment::Segment;
use reg_model::Member;

/// The members of a full segment.
const FULL: usize = 16;

/// A segment with one more member, in its place. A full one hands out the greatest of the
/// seventeen, for the next higher segment.
pub fn put_into(segment: &Segment, member: &Member) -> (Segment, Option<Member>)
    requires { IsFree member.now.span segment.now }
    ensures members { IsWithMember member.now segment.now (result.0 ++ option_to_list result.1) }
    ensures handed { IsSome result.1 ↔ (length segment.now ≡ 16) }
{
    let members = segment.members();
    let place = place(members, member.span.first());
    if members.len() < FULL {
        let one_more = Segment::of(&members[..place], &[*member], &members[place..]);
        (one_more, None)
    } else if place < FULL {
        let lower = Segment::of(&members[..place], &[*member], &members[place..FULL - 1]);
        (lower, Some(members[FULL - 1]))
    } else {
        (Segment::of(members, &[], &[]), Some(*member))
    }
}

/// A segment without the member that begins at `base`, and with one above all others in its place,
/// where one is given.
pub fn take_from(segment: &Segment, base: u64, refill: Option<Member>) -> Segment
    requires held { IsSome (at_base base segment.now) }
    requires above { IfSome refill (λ r. AscendFrom 0 (segment.now ++ r ∷ [])) }
    ensures { result ≡ without base segment.now ++ option_to_list refill }
{
    let members = segment.members();
    let place = place(members, base) - 1;
    match refill {
        Some(refill) => Segment::of(&members[..place], &members[place + 1..], &[refill]),
        None => Segment::of(&members[..place], &members[place + 1..], &[]),
    }
}
