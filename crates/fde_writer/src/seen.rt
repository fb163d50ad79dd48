//! Sections as clauses see them.

ghost use Rattle.std.specs.Prelude.{◌≡◌};

use frame_parse::Section;
use std::marker::Model;
use std::snapshot::Snapshot;

/// What a section is, which only clauses read: of the section itself nothing is kept. It was seen,
/// or what another one is.
#[derive(Drop)]
pub struct SeenSection {
    seen: Option<Snapshot<Section>>,
    other: Option<Snapshot<SeenSection>>,
}

impl Model for SeenSection {
    ghost use Rattle.std.specs.Prelude.{Some, None, ◌+◌};
    ghost use Rattle.fde_writer.specs.Seen.{SeenData, nothing_seen};

    ghost Value = { SeenData };

    ghost view = { λ s. elim s.other [
      | Some o ↦ record { section = o.value.section; copies = o.value.copies + 1 }
      | None ↦ elim s.seen [
        | Some t ↦ record { section = t.value; copies = 0 }
        | None ↦ nothing_seen
      ]
    ] };

    ghost size = { λ v. v.copies };
}

impl SeenSection {
    pub fn of(section: &Section) -> SeenSection
        ensures { result.section ≡ section.now }
    {
        SeenSection {
            seen: Some(Snapshot::of(section)),
            other: None,
        }
    }

    /// The same section.
    pub fn same(&self) -> SeenSection
        ensures { result.section ≡ self.now.section }
    {
        SeenSection {
            seen: None,
            other: Some(Snapshot::of(self)),
        }
    }
}
