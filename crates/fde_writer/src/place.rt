//! Places of members: each stands in one half.

ghost use Rattle.std.specs.Prelude.{◌≡◌, ◌++◌, ◌∷◌, [], ◌<◌, map, length, take, drop, IfOk};
ghost use Rattle.std.specs.Prelude.{slice_index_or};
ghost use Rattle.reg_model.specs.SpanData.{IsSpan};
ghost use Rattle.reg_model.specs.declared.answer.Half.TheVariants as half;
ghost use Rattle.fde_writer.specs.Places.{PlaceData, all_registered};
ghost use Rattle.fde_writer.specs.Places.{placed_members};

use reg_model::{Half, Member, NoMemory, Span};
use std::alloc::Global;
use std::marker::Model;

/// A member, and the half in which it stands. Its fields are the member's, so that it takes 24
/// bytes.
#[derive(Clone, Copy, Debug, PartialEq, Eq)]
pub struct MemberInHalf {
    first: u64,
    last: u64,
    payload: u32,
    half: Half,
}

impl Model for MemberInHalf {
    ghost use Rattle.reg_model.specs.SpanData.{IsSpan};
    ghost use Rattle.fde_writer.specs.Places.{PlaceData};

    ghost Value = { PlaceData };

    ghost view = { λ p. record {
      member = record {
        span = record { first = p.first; last = p.last };
        payload = p.payload;
      };
      half = p.half;
    } };

    ghost invariant = { λ p. IsSpan (record { first = p.first; last = p.last }) };

    ghost inverse = { λ i. record {
      first = i.member.span.first;
      last = i.member.span.last;
      payload = i.member.payload;
      half = i.half;
    } };
}

impl MemberInHalf {
    pub fn new(member: &Member, half: Half) -> MemberInHalf
        ensures { result ≡ record { member = member.now; half = half } }
    {
        MemberInHalf {
            first: member.span.first(),
            last: member.span.last(),
            payload: member.payload,
            half,
        }
    }

    pub fn member(&self) -> Member
        ensures { result ≡ self.now.member }
    {
        let Some(span) = Span::new(self.first, self.last - self.first + 1) else {
            unreachable!()
        };
        let payload = self.payload;
        Member { span, payload }
    }

    /// The member's first address.
    pub fn first(&self) -> u64
        ensures value { result ≡ self.now.member.span.first }
        ensures span { IsSpan self.now.member.span }
    {
        self.first
    }

    pub fn half(&self) -> Half
        ensures { result ≡ self.now.half }
    {
        self.half
    }
}

/// A registered place for each member.
pub fn registered_places(alloc: Global, members: &[Member]) -> Result<Vec<MemberInHalf>, NoMemory>
    ensures places { IfOk result (λ v. v.items ≡ all_registered members.now) }
    ensures members { IfOk result (λ v. placed_members v.items ≡ members.now) }
{
    let mut places = Vec::new(alloc);
    places.try_reserve_exact(members.len())?;
    for member in members {
        places.push(MemberInHalf::new(member, Half::Registered))?;
    }
    Ok(places)
}
