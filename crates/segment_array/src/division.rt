//! Where a member stands.

ghost use Rattle.std.specs.Prelude.{◌≡◌, ◌+◌, ◌/◌, ◌%◌};

use crate::segment::Spot;

/// The members of a segment.
const LENGTH: u32 = 16;

/// Where the member stands that has this index in ascending order.
pub fn spot(index: u32) -> Spot
    ensures segment { result.segment ≡ index / 16 }
    ensures place { result.place ≡ index % 16 }
{
    Spot {
        segment: index / LENGTH,
        place: index % LENGTH,
    }
}

/// How many segments hold so many members.
pub fn segments_for(count: u32) -> u32
    ensures { result ≡ (count + 15) / 16 }
{
    count.div_ceil(LENGTH)
}
