//! What holds of every list of bytes.

ghost use Rattle.std.specs.Prelude.{ℕ, List};
ghost use Rattle.frame_expr.specs.declared.regs.Regs.{Regs};
ghost use Rattle.frame_expr.specs.Regions.{RegionData};
ghost use Rattle.frame_parse.specs.Sections.{SectionData};
ghost use Rattle.raise_phases.specs.Raising.{RaisedData, RaiseUnfolds, FoundAlike, EndsChanged};
ghost use Rattle.raise_phases.specs.Verdicts.{HasOneVerdict};

/// Each list of bytes gives one verdict or has one first fault, never both.
pub fn tables_have_one_verdict()
    ensures { (first address : ℕ) (bytes : List ℕ) (look kind : ℕ)
        → HasOneVerdict first address bytes look kind }
{}

/// Where both phases find the same member for each address, no raise ends as changed.
pub fn steady_answers_change_no_raise()
    ensures { (sections : List SectionData) (memory : List RegionData) (regs : Regs) (kind : ℕ)
        (raised : RaisedData) → RaiseUnfolds sections memory regs kind raised
        → FoundAlike raised.search raised.cleanup → ¬ EndsChanged raised.end }
{}
