//! A section beside its table, as what tells the section's rows.

ghost use Rattle.std.specs.Prelude.{◌≡◌, []};
ghost use Rattle.row_table.specs.Tables.{IsRowTableOf};
ghost use Rattle.stack_walk.specs.StackWalks.{GoesUp};

use crate::following::{Followed, follow};
use crate::table::RowTable;
use frame_expr::{Regs, WordSource};
use frame_parse::Section;
use sound_records::RefusedRecord;
use stack_walk::{StepSource, WalkEnd, take_step};
use std::marker::Model;
use unwind_step::{AddressKind, FdeRow, FoundStep, Frame, RowSource, step_at};

/// A section, and the table that was made of it.
#[derive(Drop)]
pub struct SectionRows<'t> {
    section: &'t Section,
    table: &'t RowTable,
}

impl<'t> Model for SectionRows<'t> {
    ghost use Rattle.frame_parse.specs.Sections.{SectionData};
    ghost use Rattle.row_table.specs.Tables.{IsRowTableOf};

    ghost Value = { SectionData };

    ghost view = { λ r. r.section.now };

    ghost invariant = { λ r. IsRowTableOf r.section.now r.table.now };
}

impl<'t> SectionRows<'t> {
    /// The two together. It takes no memory.
    pub fn new(section: &'t Section, table: &'t RowTable) -> SectionRows<'t>
        requires { IsRowTableOf section.now table.now }
        ensures { result ≡ section.now }
    {
        SectionRows { section, table }
    }
}

impl RowSource for SectionRows<'_> {
    ghost section = { λ r. r };

    #[inline(always)]
    fn row_of(&self, pc: u64) -> Option<FdeRow<'_>> {
        match self.table.row_at(self.section, pc) {
            None => None,
            Some(found) => Some(FdeRow {
                row: found.row.to_row(),
                fde: found.fde,
            }),
        }
    }
}

impl StepSource for SectionRows<'_> {
    ghost section = { λ r. r };

    ghost refused = { λ _. [] };

    #[inline(always)]
    fn claim_at(&self, pc: u64) -> Option<RefusedRecord> {
        self.section.claim_at(pc)
    }

    fn step_at<M: WordSource>(&self, look: u64, regs: &Regs, memory: &M) -> Option<FoundStep> {
        step_at(self, look, regs, memory)
    }

    #[inline(always)]
    fn go_up<M: WordSource>(&self, frame: &mut Frame, memory: &M) -> Option<WalkEnd> {
        let Some(found) = self.table.row_at(self.section, frame.look()) else {
            return Some(WalkEnd::NoFde);
        };
        match follow(&found.row, memory, &mut frame.regs) {
            Followed::Frame => {
                frame.address = AddressKind::before(found.fde.signal());
                None
            }
            Followed::NoBytes { address } => Some(WalkEnd::NoBytes { address }),
            Followed::Rare => go_up_by_copy(self, frame, memory),
        }
    }
}

/// A frame becomes the one before by a row that is copied, whatever its rules.
#[cold]
#[inline(never)]
fn go_up_by_copy<M: WordSource>(
    rows: &SectionRows<'_>,
    frame: &mut Frame,
    memory: &M,
) -> Option<WalkEnd>
    ensures { GoesUp rows.now (M.regions memory.now) frame.old result frame.new }
{
    take_step(step_at(rows, frame.look(), &frame.regs, memory), frame)
}
