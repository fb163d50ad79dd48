//! Modules of code, as a walk asks for them.

ghost use Rattle.std.specs.Prelude.{List, IfNone, IfSome};
ghost use Rattle.stack_walk.specs.Modules.{IsModuleStep, ModuleData};
ghost use Rattle.stack_walk.specs.StackWalks.{EndsWalk, StepsTo};

use crate::shown::WalkEnd;
use frame_expr::{Regs, WordSource};
use unwind_step::{FoundStep, Frame};

/// What comes of a frame by the module of its address.
#[derive(Clone, Copy, Debug, PartialEq, Eq)]
pub enum ModuleStep {
    /// No module has the address.
    NoModule,
    /// One has it, and no FDE of its section covers it.
    NoFde,
    /// A record of its section that is refused answers.
    Refused,
    /// An FDE covers it, and this came of it.
    Found { step: FoundStep },
}

/// A list of modules, each of which tells what comes of the frames in it.
pub trait ModuleList {
    /// The modules, of which the first counts that has an address.
    ghost modules: { Self → List ModuleData };

    /// What comes of registers by the module of the address at which they are looked up.
    fn step<M: WordSource>(&self, look: u64, regs: &Regs, memory: &M) -> ModuleStep
        ensures { IsModuleStep (modules self.now) look regs.now.columns (M.regions memory.now)
            result };
    /// The frame becomes the one before. Where there is none, it stays and the answer says why.
    fn go_up<M: WordSource>(&self, frame: &mut Frame, memory: &M) -> Option<WalkEnd>
        ensures next { IfNone result (StepsTo (modules self.now) (M.regions memory.now) frame.old
            frame.new) }
        ensures end { IfSome result (λ end. EndsWalk (modules self.now) (M.regions memory.now)
            frame.old end frame.new) };
}
