//! The instructions of a program, one by one, with the places of their expressions.

ghost use Rattle.std.specs.Prelude.{◌≡◌, ◌<◌, ◌∷◌, [], List, IfNone, MatchOption, OnSome, length};
ghost use Rattle.frame_parse.specs.Programs.{HasPlacedSteps};
ghost use Rattle.frame_parse.specs.Instructions.{PlacedStep};

use crate::instructions::{Context, PlacedStep, step};
use crate::program_state::ProgramState;
use eh_bytes::Cursor;
use std::marker::Model;

/// What is left of a program, lent from its section.
#[derive(Drop)]
pub struct PlacedProgram<'a> {
    context: Context,
    cursor: Cursor<'a>,
    state: ProgramState,
}

impl<'a> Model for PlacedProgram<'a> {
    ghost use Rattle.std.specs.Prelude.{List};
    ghost use Rattle.frame_parse.specs.Instructions.{PlacedStep};
    ghost use Rattle.frame_parse.specs.Programs.{PlacedProgramData, HasPlacedSteps};

    ghost Value = { PlacedProgramData };

    ghost view = { λ p. record { context = p.context; state = p.state; rest = p.cursor } };

    ghost invariant = { λ p. (steps : List PlacedStep)
        × HasPlacedSteps (record { context = p.context; state = p.state; rest = p.cursor }) steps };
}

impl<'a> PlacedProgram<'a> {
    /// What is left after a state, where the rest of the record was read without fault.
    pub(crate) fn new(
        context: Context,
        state: ProgramState,
        cursor: Cursor<'a>,
    ) -> PlacedProgram<'a>
        requires { (steps : List PlacedStep)
            × HasPlacedSteps (record { context = context; state = state; rest = cursor }) steps }
        ensures { result ≡ record { context = context; state = state; rest = cursor.entry } }
    {
        PlacedProgram {
            context,
            cursor,
            state,
        }
    }

    /// The next instruction, with the location at which it holds, or `None` at the end.
    #[inline(always)]
    pub fn next(&mut self) -> Option<PlacedStep>
        ensures steps { (steps : List PlacedStep) → HasPlacedSteps self.old steps
            → MatchOption result (steps ≡ [])
            (λ x. (more : List PlacedStep) × (steps ≡ x ∷ more) × HasPlacedSteps self.new more) }
        ensures shrinks { OnSome result (length self.new.rest.bytes < length self.old.rest.bytes) }
        // So there is none after the end either.
        ensures end { IfNone result (self.new ≡ self.old) }
    {
        if self.cursor.left() == 0 {
            return None;
        }
        match step(&self.context, &mut self.cursor, &mut self.state) {
            Ok(step) => Some(step),
            Err(_) => None,
        }
    }
}
