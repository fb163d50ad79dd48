//! Which addresses the ranges of a section have.

ghost use Rattle.std.specs.Prelude.{◌≡◌};
ghost use Rattle.unwind_c.specs.Reach.{no_reach, reach_with, section_reach};

use frame_parse::{Fde, Section};

/// The least address of ranges, and the one after the greatest, modulo 2^64. Of no ranges the
/// greatest number and 0, between which no address is.
#[derive(Clone, Copy)]
pub struct AddressReach {
    pub lowest: u64,
    pub end: u64,
}

impl AddressReach {
    fn none() -> AddressReach
        ensures { result ≡ no_reach }
    {
        AddressReach {
            lowest: u64::MAX,
            end: 0,
        }
    }

    /// This one and that of an FDE, where it has addresses.
    fn with(self, fde: &Fde<'_>) -> AddressReach
        ensures { result ≡ reach_with self fde.now.entry }
    {
        if !(0 < fde.first() && 0 < fde.range()) {
            return self;
        }
        AddressReach {
            lowest: self.lowest.min(fde.first()),
            end: self.end.max(fde.first().wrapping_add(fde.range())),
        }
    }

    /// That of a section.
    pub(crate) fn of(section: &Section) -> AddressReach
        ensures { result ≡ section_reach section.now }
    {
        let mut reach = AddressReach::none();
        for index in 0..section.count() {
            reach = reach.with(&section.fde(index));
        }
        reach
    }
}
