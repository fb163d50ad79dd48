//! What holds of the rows of an FDE.

ghost use Rattle.std.specs.Prelude.{ℕ};
ghost use Rattle.frame_parse.specs.Sections.{FdeData};
ghost use Rattle.frame_parse.specs.Steps.{HaveOneCie};
ghost use Rattle.frame_rows.specs.declared.placed_row.PlacedRow.{PlacedRow};
ghost use Rattle.frame_rows.specs.Expressions.{HasExpressions};
ghost use Rattle.frame_rows.specs.RowAt.{IsRowAt, IsPlacedRowAt};
ghost use Rattle.frame_rows.specs.Rows.{IsInitialRow};
ghost use Rattle.frame_rows.specs.Rules.{lent_row};

use frame_parse::{Fde, initial_instructions_are_the_cies, steps_are_ordered};

/// A row that both programs of an FDE leave has the rules of the CFA and of the columns at that
/// address, and its expressions stand in the section's bytes.
pub fn placed_rows_are_rows(fde: &Fde<'_>)
    ensures rules { (pc : ℕ) (row : PlacedRow) → IsPlacedRowAt fde.now pc row
        → IsRowAt fde.now pc (lent_row fde.now.bytes row) }
    ensures expressions { (pc : ℕ) (row : PlacedRow) → IsPlacedRowAt fde.now pc row
        → HasExpressions fde.now.bytes row }
{
    steps_are_ordered();
    fde.expressions_stand();
    let _initial = fde.placed_initial();
    let _own = fde.placed_program();
}

/// FDEs with one CIE have one row that its initial instructions leave.
pub fn initial_rows_are_the_cies()
    ensures { (f g : FdeData) (row : PlacedRow) → HaveOneCie f g → IsInitialRow f row
        → IsInitialRow g row }
{
    steps_are_ordered();
    initial_instructions_are_the_cies();
}
