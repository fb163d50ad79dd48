//! What tells the rows of a section: the section itself, or a table that was made of it.

ghost use Rattle.std.specs.Prelude.{◌≡◌, None, MatchOption};
ghost use Rattle.frame_parse.specs.Sections.{SectionData, first_cover};
ghost use Rattle.unwind_step.specs.Sources.{IsFound};

use frame_parse::{Fde, Section};
use frame_rows::{Row, row_at};

/// The FDE of an address, and its row there.
#[derive(Drop)]
pub struct FdeRow<'t> {
    pub fde: Fde<'t>,
    pub row: Row<'t>,
}

/// What tells for every address of a section the FDE and its row there.
pub trait RowSource {
    /// The section whose rows it tells.
    ghost section: { Self → SectionData };

    /// The first FDE in order of bytes that covers an address, and its row there. None where no FDE
    /// covers it.
    fn row_of(&self, pc: u64) -> Option<FdeRow<'_>>
        ensures { MatchOption result (first_cover pc (section self.now).fdes ≡ None)
            (λ found. IsFound (section self.now) pc found.fde found.row) };
}

impl RowSource for Section {
    ghost section = { λ s. s };

    #[inline(always)]
    fn row_of(&self, pc: u64) -> Option<FdeRow<'_>> {
        match self.fde_at(pc) {
            None => None,
            Some(fde) => {
                let row = row_at(&fde, pc);
                Some(FdeRow { fde, row })
            }
        }
    }
}
