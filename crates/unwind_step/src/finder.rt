//! Where the image of an address is asked for.

ghost use Rattle.std.specs.Prelude.{◌≡◌, ℕ};
ghost use Rattle.reg_model.specs.declared.answer.Place.{Place};
ghost use Rattle.reg_model.specs.Receipt.{IsPlace};
ghost use Rattle.unwind_step.specs.Backtrace.{IsBelow};

use reg_model::Place;
use std::sync::Wait;

/// What tells which image an address belongs to.
pub trait Finder {
    /// From which state to which other a query may be answered so.
    ghost answers: { Self → ℕ → Place → Self → Type 0 };

    /// Every payload is below it.
    ghost bound: { Self → ℕ };

    /// The member that contains the address. The loader's half is asked where the registered half
    /// misses.
    fn find<R: Wait>(&mut self, rt: &R, pc: u64) -> Place
        ensures answered { answers self.old pc result self.new }
        ensures halves { IsPlace result }
        ensures below { IsBelow (bound self.old) result }
        ensures bound { bound self.new ≡ bound self.old };
}
