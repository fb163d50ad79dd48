//! Laws of the definitions. Each is the contract of a function that does nothing.

ghost use Rattle.std.specs.Prelude.{◌≡◌, ℕ, List, All};
ghost use Rattle.frame_expr.specs.Regions.{RegionData};
ghost use Rattle.frame_rows.specs.Rules.{RowData};
ghost use Rattle.reg_model.specs.PlainRegistryData.{PlainRegistryData, Step};
ghost use Rattle.reg_model.specs.declared.answer.Receipt.{Receipt};
ghost use Rattle.unwind_step.specs.NextFrame.{IsStep};
ghost use Rattle.unwind_step.specs.declared.backtrace.FrameLine.{FrameLine};
ghost use Rattle.unwind_step.specs.declared.next.Stepped.{Stepped};
ghost use Rattle.unwind_step.specs.Finders.{AddsBelow, AnswersPlainly, GoesThrough};
ghost use Rattle.unwind_step.specs.Finders.{HasPayloadsBelow, IsPlainPlace, PlainFinderData};

/// Payloads below a bound stay below it along the calls of a registry over plain lists.
pub fn payloads_stay_below()
    ensures { (bound : ℕ) (old new : PlainRegistryData) (r : Receipt) → AddsBelow bound r
        → Step old r new
        → HasPayloadsBelow bound old.state → HasPayloadsBelow bound new.state }
{}

/// A row makes one thing of the old registers, never two.
pub fn one_outcome()
    ensures { (row : RowData) (old : List ℕ) (memory : List RegionData) (a b : Stepped)
        → IsStep row old memory a → IsStep row old memory b → a ≡ b }
{
    frame_expr::one_answer();
}

/// A finder in a registry over plain lists stands still, and each of its answers is right of that
/// registry.
pub fn plain_answers_are_right()
    ensures still { (before end : PlainFinderData) (lines : List FrameLine)
        → GoesThrough AnswersPlainly before lines end → end ≡ before }
    ensures right { (before end : PlainFinderData) (lines : List FrameLine)
        → GoesThrough AnswersPlainly before lines end
        → All (λ line. IsPlainPlace before.registry line.look line.place) lines }
{}
