//! What a segment says of an address.

ghost use Rattle.std.specs.Prelude.{◌≡◌, ◌↔◌, IsTrue};
ghost use Rattle.reg_model.specs.Query.{member_at};
ghost use Rattle.segment_array.specs.Placing.{BeginAbove, IsPlaceOf};

use crate::segment::Segment;
use reg_model::Member;

/// The member that contains the address.
pub fn segment_hit(segment: &Segment, pc: u64) -> Option<Member>
    ensures { result ≡ member_at pc segment.now }
{
    for member in segment.members() {
        if member.span.contains(pc) {
            return Some(*member);
        }
    }
    None
}

/// Whether all members begin above the address, so that lower segments have to be searched.
pub fn segment_below(segment: &Segment, pc: u64) -> bool
    ensures { IsTrue result ↔ BeginAbove pc segment.now }
{
    match segment.members() {
        [] => true,
        [first, ..] => pc < first.span.first(),
    }
}

/// How many members begin at or below the address.
pub(crate) fn place(members: &[Member], pc: u64) -> usize
    ensures { IsPlaceOf pc members.now result }
{
    for (place, member) in members.iter().enumerate() {
        if pc < member.span.first() {
            return place;
        }
    }
    members.len()
}
