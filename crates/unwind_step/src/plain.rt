//! A finder in a registry over plain lists.

ghost use Rattle.std.specs.Prelude.{◌≡◌};
ghost use Rattle.unwind_step.specs.Finders.{HasPayloadsBelow, AnswersPlainly};

use crate::finder::Finder;
use reg_model::{Place, PlainRegistry};
use std::marker::Model;
use std::sync::Wait;

/// Asks a registry for one thread, which stands still meanwhile.
#[derive(Drop)]
pub struct PlainFinder<'a> {
    registry: &'a PlainRegistry,
    bound: u32,
}

impl<'a> Model for PlainFinder<'a> {
    ghost use Rattle.unwind_step.specs.Finders.{PlainFinderData, HasPayloadsBelow};

    ghost Value = { PlainFinderData };

    ghost view = { λ f. record { registry = f.registry.now; bound = f.bound } };

    ghost invariant = { λ f. HasPayloadsBelow f.bound f.registry.now.state };
}

impl<'a> PlainFinder<'a> {
    /// A finder in a registry whose payloads are below a bound. It takes no memory.
    pub fn new(registry: &'a PlainRegistry, bound: u32) -> PlainFinder<'a>
        requires { HasPayloadsBelow bound registry.now.state }
        ensures { result ≡ record { registry = registry.now; bound = bound } }
    {
        PlainFinder { registry, bound }
    }
}

impl Finder for PlainFinder<'_> {
    ghost answers = { AnswersPlainly };

    ghost bound = { λ f. f.bound };

    fn find<R: Wait>(&mut self, _rt: &R, pc: u64) -> Place {
        self.registry.find(pc)
    }
}
