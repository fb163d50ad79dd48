//! The instructions of a program, one by one, with their expressions.

ghost use Rattle.std.specs.Prelude.{◌≡◌, ◌<◌, ◌∷◌, [], List, IfNone, MatchOption, OnSome, length};
ghost use Rattle.frame_parse.specs.Blocks.{HaveExpressions};
ghost use Rattle.frame_parse.specs.Instructions.{PlacedStep, StepData, step_told};
ghost use Rattle.frame_parse.specs.Programs.{HasPlacedSteps};
ghost use Rattle.frame_parse.specs.Steps.{HasSteps};

use crate::instructions::{Step, lent_step};
use crate::placed_program::PlacedProgram;
use std::marker::Model;

/// What is left of a program, lent from its section.
#[derive(Drop)]
pub struct Program<'a> {
    bytes: &'a [u8],
    left: PlacedProgram<'a>,
}

impl<'a> Model for Program<'a> {
    ghost use Rattle.std.specs.Prelude.{List};
    ghost use Rattle.frame_parse.specs.Blocks.{HaveExpressions};
    ghost use Rattle.frame_parse.specs.Instructions.{PlacedStep};
    ghost use Rattle.frame_parse.specs.Programs.{HasPlacedSteps};
    ghost use Rattle.frame_parse.specs.Steps.{ProgramData};

    ghost Value = { ProgramData };

    ghost view = { λ p. record { bytes = p.bytes.now; left = p.left } };

    ghost invariant = { λ p. (steps : List PlacedStep)
        × HasPlacedSteps p.left steps × HaveExpressions p.bytes.now steps };
}

impl<'a> Program<'a> {
    /// What is left, where the expressions stand in the bytes.
    pub(crate) fn new(bytes: &'a [u8], left: PlacedProgram<'a>) -> Program<'a>
        requires { (steps : List PlacedStep)
            × HasPlacedSteps left steps × HaveExpressions bytes.now steps }
        ensures { result ≡ record { bytes = bytes.now; left = left.entry } }
    {
        Program { bytes, left }
    }

    /// The next instruction, with the location at which it holds, or `None` at the end. Its
    /// expression is lent from the section.
    pub fn next(&mut self) -> Option<Step<'a>>
        ensures steps { (steps : List StepData) → HasSteps self.old steps
            → MatchOption result (steps ≡ [])
            (λ x. (more : List StepData)
            × (steps ≡ step_told (λ e. e.bytes.now) (λ e. e.bytes.now) x ∷ more)
            × HasSteps self.new more) }
        ensures shrinks { OnSome result
            (length self.new.left.rest.bytes < length self.old.left.rest.bytes) }
        // So there is none after the end either.
        ensures end { IfNone result (self.new ≡ self.old) }
    {
        match self.left.next() {
            Some(step) => Some(lent_step(self.bytes, step)),
            None => None,
        }
    }
}
