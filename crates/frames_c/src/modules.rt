//! What the handle of modules leads to.

ghost use Rattle.std.specs.Prelude.{◌≡◌, ◌≤◌, ◌++◌, ◌∷◌, [], OnOk, OnErr, IfOk, IfErr};
ghost use Rattle.stack_walk.specs.Modules.{IsModuleFault, modules_end};
ghost use Rattle.stack_walk.specs.StackWalks.{GoesUp};
ghost use Rattle.frames_c.specs.StackLines.{module_loaded, module_with};

use crate::row_share::RowsOfSection;
use crate::share::LoadedSection;
use c_handle::Shared;
use frame_expr::{Regs, WordSource};
use sound_records::RefusedRecord;
use stack_walk::{ModuleFault, Modules, SharedSource, StepSource, WalkEnd, take_step};
use std::alloc::{AllocError, Global};
use std::marker::Model;
use unwind_step::{FoundStep, Frame, step_at};

/// A share of what tells the frames of a module: its section, or the table of its rows.
#[derive(Drop)]
pub enum ModuleRows {
    Section { share: Shared<LoadedSection> },
    Table { share: Shared<RowsOfSection> },
}

impl StepSource for ModuleRows {
    ghost section = { λ r. (module_loaded r).section };

    ghost refused = { λ r. (module_loaded r).refused };

    #[inline(always)]
    fn claim_at(&self, pc: u64) -> Option<RefusedRecord> {
        match self {
            ModuleRows::Section { share } => share.get().claim_at(pc),
            ModuleRows::Table { share } => share.get().loaded().claim_at(pc),
        }
    }

    fn step_at<M: WordSource>(&self, look: u64, regs: &Regs, memory: &M) -> Option<FoundStep> {
        match self {
            ModuleRows::Section { share } => step_at(share.get(), look, regs, memory),
            ModuleRows::Table { share } => step_at(&share.get().rows(), look, regs, memory),
        }
    }

    #[inline(always)]
    fn go_up<M: WordSource>(&self, frame: &mut Frame, memory: &M) -> Option<WalkEnd> {
        match self {
            ModuleRows::Section { share } => go_up_by_section(share, frame, memory),
            ModuleRows::Table { share } => share.get().rows().go_up(frame, memory),
        }
    }
}

/// A frame becomes the one before by the instructions of its FDE.
#[inline(never)]
fn go_up_by_section<M: WordSource>(
    share: &Shared<LoadedSection>,
    frame: &mut Frame,
    memory: &M,
) -> Option<WalkEnd>
    ensures { GoesUp share.now.section (M.regions memory.now) frame.old result frame.new }
{
    let step = step_at(share.get(), frame.look(), &frame.regs, memory);
    take_step(step, frame)
}

impl SharedSource for ModuleRows {
    fn another(&self) -> Result<ModuleRows, AllocError> {
        match self {
            ModuleRows::Section { share } => {
                let share = share.another()?;
                Ok(ModuleRows::Section { share })
            }
            ModuleRows::Table { share } => {
                let share = share.another()?;
                Ok(ModuleRows::Table { share })
            }
        }
    }
}

/// Modules of code, each with a share of its own.
#[derive(Drop)]
pub struct LoadedModules {
    list: Modules<ModuleRows>,
}

impl Model for LoadedModules {
    ghost use Rattle.std.specs.Prelude.{List};
    ghost use Rattle.stack_walk.specs.Modules.{ModuleData};

    ghost Value = { List ModuleData };

    ghost view = { λ m. m.list };
}

impl LoadedModules {
    pub(crate) fn new(alloc: Global) -> LoadedModules
        ensures { result ≡ [] }
    {
        LoadedModules {
            list: Modules::new(alloc),
        }
    }

    /// Adds a module above the others.
    pub(crate) fn add(&mut self, first: u64, size: u64, rows: ModuleRows) -> Result<(), ModuleFault>
        ensures ok { OnOk result
            (self.new ≡ self.old ++ module_with first size (module_loaded rows) ∷ []) }
        ensures above { OnOk result (modules_end self.old ≤ first) }
        ensures refused { OnErr result (self.new ≡ self.old) }
        ensures fault { IfErr result (IsModuleFault self.old first) }
    {
        self.list.add(first, size, rows)
    }

    /// The same modules, each with another share.
    pub(crate) fn another(&self, alloc: Global) -> Result<LoadedModules, AllocError>
        ensures { IfOk result (λ other. other ≡ self.now) }
    {
        Ok(LoadedModules {
            list: self.list.another(alloc)?,
        })
    }

    pub(crate) fn list(&self) -> &Modules<ModuleRows>
        ensures { result.now ≡ self.now }
    {
        &self.list
    }
}
