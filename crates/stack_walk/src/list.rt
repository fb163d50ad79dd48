//! Modules in ascending order, of which that of an address is found by halving.

ghost use Rattle.std.specs.Prelude.{◌≡◌, ◌≤◌, ◌++◌, ◌∷◌, [], OnOk, OnErr, IfOk, IfErr};
ghost use Rattle.std.specs.Prelude.{MatchOption, MatchBool, None, ◌<◌, List};
ghost use Rattle.std.specs.Option.{option_map};
ghost use Rattle.frame_parse.specs.Sections.{SectionData, first_cover};
ghost use Rattle.sound_records.specs.Sections.{claim_among};
ghost use Rattle.sound_records.specs.declared.refused.RefusedRecord.{RefusedRecord};
ghost use Rattle.unwind_step.specs.Sources.{IsStepIn};
ghost use Rattle.stack_walk.specs.Modules.{AreModulesFrom, IsModuleFault, has_code_at, module_at};
ghost use Rattle.stack_walk.specs.Modules.{modules_end, module_end};
ghost use Rattle.stack_walk.specs.StackWalks.{GoesUp};
ghost use Rattle.stack_walk.specs.declared.list.ModuleFault.TheVariants.{NoMemory};

use crate::going_up::take_step;
use crate::modules::{ModuleList, ModuleStep};
use crate::shown::WalkEnd;
use frame_expr::{Regs, WordSource};
use frame_parse::Section;
use sound_records::RefusedRecord;
use std::alloc::{AllocError, AllocFailed, Global};
use std::marker::Model;
use unwind_step::{FoundStep, Frame, step_at};

/// What tells what comes of the frames in a section.
pub trait StepSource {
    /// The section whose frames it tells.
    ghost section: { Self → SectionData };
    /// The records that were refused in it, in order of bytes.
    ghost refused: { Self → List RefusedRecord };

    /// The refused record that answers at an address: where there is one, no FDE does.
    fn claim_at(&self, pc: u64) -> Option<RefusedRecord>
        ensures { result ≡ claim_among pc (section self.now).fdes (refused self.now) };

    /// What comes of registers that are looked up at an address. None where no FDE covers it.
    fn step_at<M: WordSource>(&self, look: u64, regs: &Regs, memory: &M) -> Option<FoundStep>
        ensures { MatchOption result (first_cover look (section self.now).fdes ≡ None)
            (λ found. IsStepIn (section self.now) look regs.now.columns (M.regions memory.now)
            found.outcome found.signal) };

    /// A frame whose code is the section's becomes the one before. Where there is none, it stays
    /// and the answer says why.
    fn go_up<M: WordSource>(&self, frame: &mut Frame, memory: &M) -> Option<WalkEnd>
        ensures { GoesUp (section self.now) (M.regions memory.now) frame.old result frame.new };
}

impl StepSource for Section {
    ghost section = { λ s. s };

    ghost refused = { λ _. [] };

    #[inline(always)]
    fn claim_at(&self, _pc: u64) -> Option<RefusedRecord> {
        None
    }

    fn step_at<M: WordSource>(&self, look: u64, regs: &Regs, memory: &M) -> Option<FoundStep> {
        step_at(self, look, regs, memory)
    }

    fn go_up<M: WordSource>(&self, frame: &mut Frame, memory: &M) -> Option<WalkEnd> {
        take_step(step_at(self, frame.look(), &frame.regs, memory), frame)
    }
}

/// A source of which there may be several shares.
pub trait SharedSource: StepSource {
    /// Another share of the same.
    fn another(&self) -> Result<Self, AllocError>
        ensures section { IfOk result (λ other. Self.section other ≡ Self.section self.now) }
        ensures refused { IfOk result (λ other. Self.refused other ≡ Self.refused self.now) };
}

/// Why a module isn't added.
#[derive(Clone, Copy, Debug, PartialEq, Eq)]
pub enum ModuleFault {
    /// It isn't above the module before.
    NotAbove,
    /// Memory ran out, which says nothing of the module.
    NoMemory,
}

impl<T: Drop> From<AllocFailed<T>> for ModuleFault {
    ghost from_gives = { λ _ e. e ≡ NoMemory };

    fn from(_e: AllocFailed<T>) -> ModuleFault {
        ModuleFault::NoMemory
    }
}

/// Code from an address on, and what tells its frames.
#[derive(Drop)]
struct Module<T: StepSource> {
    first: u64,
    size: u64,
    source: T,
}

impl<T: StepSource> Model for Module<T> {
    ghost use Rattle.stack_walk.specs.Modules.{ModuleData};

    ghost Value = { ModuleData };

    ghost view = { λ m. record {
      first = m.first;
      size = m.size;
      section = T.section m.source;
      refused = T.refused m.source;
    } };
}

impl<T: StepSource> Module<T> {
    fn has_code_at(&self, pc: u64) -> bool
        ensures { result ≡ has_code_at pc self.now }
    {
        self.first <= pc && pc - self.first < self.size
    }

    /// Whether all its addresses are below this one.
    fn ends_before(&self, first: u64) -> bool
        ensures { MatchBool result (module_end self.now ≤ first) (first < module_end self.now) }
    {
        self.first <= first && first - self.first >= self.size
    }
}

impl<T: SharedSource> Module<T> {
    /// The same with another share.
    fn another(&self) -> Result<Module<T>, AllocError>
        ensures { IfOk result (λ other. other ≡ self.now) }
    {
        Ok(Module {
            first: self.first,
            size: self.size,
            source: self.source.another()?,
        })
    }
}

/// Modules of which each stands above the one before.
#[derive(Drop)]
pub struct Modules<T: StepSource> {
    list: Vec<Module<T>>,
}

impl<T: StepSource> Model for Modules<T> {
    ghost use Rattle.std.specs.Prelude.{List};
    ghost use Rattle.stack_walk.specs.Modules.{AreModulesFrom, ModuleData};

    ghost Value = { List ModuleData };

    ghost view = { λ m. m.list.items };

    ghost invariant = { λ m. AreModulesFrom 0 m.list.items };
}

impl<T: StepSource + Drop> Modules<T> {
    /// No modules. It takes no memory.
    pub fn new(alloc: Global) -> Modules<T>
        ensures { result ≡ [] }
    {
        Modules {
            list: Vec::new(alloc),
        }
    }

    /// Adds a module above all that are there.
    pub fn add(&mut self, first: u64, size: u64, source: T) -> Result<(), ModuleFault>
        ensures ok { OnOk result (self.new
            ≡ self.old ++ record {
              first = first;
              size = size;
              section = T.section source;
              refused = T.refused source;
            } ∷ []) }
        ensures above { OnOk result (modules_end self.old ≤ first) }
        ensures refused { OnErr result (self.new ≡ self.old) }
        ensures fault { IfErr result (IsModuleFault self.old first) }
    {
        if !end_before(&self.list, first) {
            return Err(ModuleFault::NotAbove);
        }
        self.list.push(Module {
            first,
            size,
            source,
        })?;
        Ok(())
    }
}

impl<T: SharedSource + Drop> Modules<T> {
    /// A list of the same modules, each with another share. Each list is added to by itself.
    pub fn another(&self, alloc: Global) -> Result<Modules<T>, AllocError>
        ensures { IfOk result (λ other. other ≡ self.now) }
    {
        Ok(Modules {
            list: shared(alloc, &self.list)?,
        })
    }
}

/// The same modules, each with another share.
fn shared<T: SharedSource + Drop>(
    alloc: Global,
    modules: &[Module<T>],
) -> Result<Vec<Module<T>>, AllocError>
    ensures { IfOk result (λ list. list.items ≡ modules.now) }
{
    let mut list = Vec::with_capacity(alloc, modules.len())?;
    for module in modules {
        list.push(module.another()?)?;
    }
    Ok(list)
}

/// Whether all modules end before an address.
fn end_before<T: StepSource>(modules: &[Module<T>], first: u64) -> bool
    ensures { MatchBool result (modules_end modules.now ≤ first)
        (first < modules_end modules.now) }
{
    match modules.last() {
        None => true,
        Some(module) => module.ends_before(first),
    }
}

/// The module of an address. The modules ascend, so half of those that are left are passed by at a
/// time.
fn module_of<T: StepSource>(modules: &[Module<T>], pc: u64) -> Option<&Module<T>>
    requires { AreModulesFrom 0 modules.now }
    ensures { option_map (λ m. m.now) result ≡ module_at pc modules.now }
{
    let mut left = modules;
    while left.len() > 1 {
        let (low, high) = left.split_at(left.len() / 2);
        let first = &high[0];
        left = if first.first <= pc { high } else { low };
    }
    match left {
        [] => None,
        [module, ..] => {
            if module.has_code_at(pc) {
                Some(module)
            } else {
                None
            }
        }
    }
}

impl<T: StepSource> ModuleList for Modules<T> {
    ghost modules = { λ m. m };

    fn step<M: WordSource>(&self, look: u64, regs: &Regs, memory: &M) -> ModuleStep {
        let Some(module) = module_of(&self.list, look) else {
            return ModuleStep::NoModule;
        };
        if let Some(_) = module.source.claim_at(look) {
            return ModuleStep::Refused;
        }
        match module.source.step_at(look, regs, memory) {
            None => ModuleStep::NoFde,
            Some(step) => ModuleStep::Found { step },
        }
    }

    fn go_up<M: WordSource>(&self, frame: &mut Frame, memory: &M) -> Option<WalkEnd> {
        let look = frame.look();
        let Some(module) = module_of(&self.list, look) else {
            return Some(WalkEnd::NoModule);
        };
        if let Some(_) = module.source.claim_at(look) {
            return Some(WalkEnd::Refused);
        }
        module.source.go_up(frame, memory)
    }
}
