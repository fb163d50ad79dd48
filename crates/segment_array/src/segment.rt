//! Segments as plain values.

ghost use Rattle.std.specs.Prelude.{◌≡◌, ◌+◌, ◌≤◌, ◌++◌, length, take};
ghost use Rattle.segment_array.specs.Ascending.{AscendFrom};

use reg_model::{Member, Span};
use std::marker::Model;

/// Up to sixteen members in ascending order. The first `count` places are in use.
#[derive(Drop)]
pub struct Segment {
    pub count: u32,
    pub members: [Member; 16],
}

impl Model for Segment {
    ghost use Rattle.std.specs.Prelude.{List};
    ghost use Rattle.reg_model.specs.declared.span.Member.{Member};

    ghost Value = { List Member };

    ghost use Rattle.segment_array.specs.Segments.{members_of, IsSegment};

    ghost view = { members_of };

    ghost invariant = { IsSegment };
}

/// A segment, counted from the lowest, and a place in it.
#[derive(Clone, Copy, Debug, PartialEq, Eq)]
pub struct Spot {
    pub segment: u32,
    pub place: u32,
}

// What stands in the places of an array that are not in use.
fn unused() -> Member {
    Member {
        span: Span::new(0, 1).unwrap(),
        payload: 0,
    }
}

// Writes a list over a row, from a place on.
fn put(row: &mut [Member], place: usize, items: &[Member])
    requires { place + length items.now ≤ length row.old }
    ensures { take (place + length items.now) row.new ≡ take place row.old ++ items.now }
{
    row[place..place + items.len()].copy_from_slice(items);
}

impl Segment {
    /// Three lists of members, one after another.
    pub(crate) fn of(first: &[Member], middle: &[Member], last: &[Member]) -> Segment
        requires room { length first.now + length middle.now + length last.now ≤ 16 }
        requires ascending { AscendFrom 0 (first.now ++ middle.now ++ last.now) }
        ensures { result ≡ first.now ++ middle.now ++ last.now }
    {
        let from = first.len();
        let mut members = [unused(); 16];
        put(&mut members, 0, first);
        put(&mut members, from, middle);
        put(&mut members, from + middle.len(), last);
        let count = (from + middle.len() + last.len()) as u32;
        Segment { count, members }
    }

    /// A segment of these members.
    pub fn from_slice(members: &[Member]) -> Segment
        requires room { length members.now ≤ 16 }
        requires ascending { AscendFrom 0 members.now }
        ensures { result ≡ members.now }
    {
        Segment::of(members, &[], &[])
    }

    /// Its members in ascending order.
    pub fn members(&self) -> &[Member]
        ensures value { result.now ≡ self.now }
        ensures ascending { AscendFrom 0 self.now }
        ensures room { length self.now ≤ 16 }
    {
        &self.members[..self.count as usize]
    }
}
