//! The handles of sections, row tables, modules and recorded memory, as C keeps them: each is one
//! pointer. What it leads to is known to the logic alone. To let one go frees nothing: so one that
//! is written over has to hold nothing.

ghost use Rattle.std.specs.Prelude.{◌≡◌, Option, Some, List};
ghost use Rattle.std.specs.Coded.{coded_option};
ghost use Rattle.c_handle.specs.Handles.{LeadsSomewhere, handle_owns};
ghost use Rattle.c_handle.specs.contracts.shared.Shared.{the_row as shared_row};
ghost use Rattle.frames_c.specs.Held.{LoadedData};
ghost use Rattle.stack_walk.specs.Modules.{ModuleData};
ghost use Rattle.frame_expr.specs.Regions.{RegionData};
ghost use Rattle.frames_c.specs.contracts.share.LoadedSection.{the_row as section_row};
ghost use Rattle.frames_c.specs.contracts.row_share.RowsOfSection.{the_row as rows_row};
ghost use Rattle.frames_c.specs.contracts.modules.LoadedModules.{the_row as modules_row};
ghost use Rattle.frame_expr.specs.contracts.memory.Memory.{the_row as memory_row};

use crate::modules::LoadedModules;
use crate::row_share::RowsOfSection;
use crate::share::LoadedSection;
use c_handle::{Parts, Shared};
use frame_expr::Memory;
use std::alloc::Global;
use std::marker::{Model, Send};

/// A share of a section, or nothing.
#[repr(C)]
#[derive(Drop)]
pub struct SectionHandle {
    at: *mut u8,
    pub ghost held: { Option LoadedData } by { coded_option (shared_row section_row).coded },
}

impl Model for SectionHandle {
    ghost also_owns = { λ h. handle_owns (shared_row section_row) h.at h.held };
}

impl SectionHandle {
    /// A handle of a share.
    pub(crate) fn of(share: Box<Shared<LoadedSection>, Global>) -> SectionHandle
        ensures { result.held ≡ Some share.value }
    {
        SectionHandle::of_parts(Parts::of(share))
    }

    /// The share. From here on the handle is nothing.
    pub(crate) fn open(self, alloc: Global) -> Box<Shared<LoadedSection>, Global>
        requires { LeadsSomewhere self.held }
        ensures { self.held ≡ Some result.value }
    {
        self.into_parts(alloc).into_box()
    }

    fn of_parts(parts: Parts<Shared<LoadedSection>, Global>) -> SectionHandle
        ensures { result.held ≡ Some parts.value }
    {
        let Parts { ptr, alloc: _ } = parts;
        SectionHandle { at: ptr as *mut u8 }
    }

    fn into_parts(self, alloc: Global) -> Parts<Shared<LoadedSection>, Global>
        requires { LeadsSomewhere self.held }
        ensures { self.held ≡ Some result.value }
    {
        let SectionHandle { at } = self;
        Parts {
            ptr: at as *mut Shared<LoadedSection>,
            alloc,
        }
    }
}

unsafe impl Send for SectionHandle {}

/// A share of a row table, or nothing.
#[repr(C)]
#[derive(Drop)]
pub struct RowTableHandle {
    at: *mut u8,
    pub ghost held: { Option LoadedData } by { coded_option (shared_row rows_row).coded },
}

impl Model for RowTableHandle {
    ghost also_owns = { λ h. handle_owns (shared_row rows_row) h.at h.held };
}

impl RowTableHandle {
    /// A handle of a share.
    pub(crate) fn of(share: Box<Shared<RowsOfSection>, Global>) -> RowTableHandle
        ensures { result.held ≡ Some share.value }
    {
        RowTableHandle::of_parts(Parts::of(share))
    }

    /// The share. From here on the handle is nothing.
    pub(crate) fn open(self, alloc: Global) -> Box<Shared<RowsOfSection>, Global>
        requires { LeadsSomewhere self.held }
        ensures { self.held ≡ Some result.value }
    {
        self.into_parts(alloc).into_box()
    }

    fn of_parts(parts: Parts<Shared<RowsOfSection>, Global>) -> RowTableHandle
        ensures { result.held ≡ Some parts.value }
    {
        let Parts { ptr, alloc: _ } = parts;
        RowTableHandle { at: ptr as *mut u8 }
    }

    fn into_parts(self, alloc: Global) -> Parts<Shared<RowsOfSection>, Global>
        requires { LeadsSomewhere self.held }
        ensures { self.held ≡ Some result.value }
    {
        let RowTableHandle { at } = self;
        Parts {
            ptr: at as *mut Shared<RowsOfSection>,
            alloc,
        }
    }
}

unsafe impl Send for RowTableHandle {}

/// Modules, or nothing.
#[repr(C)]
#[derive(Drop)]
pub struct ModulesHandle {
    at: *mut u8,
    pub ghost held: { Option (List ModuleData) } by { coded_option modules_row.coded },
}

impl Model for ModulesHandle {
    ghost also_owns = { λ h. handle_owns modules_row h.at h.held };
}

impl ModulesHandle {
    /// A handle of modules.
    pub(crate) fn of(modules: Box<LoadedModules, Global>) -> ModulesHandle
        ensures { result.held ≡ Some modules.value }
    {
        ModulesHandle::of_parts(Parts::of(modules))
    }

    /// The modules. From here on the handle is nothing.
    pub(crate) fn open(self, alloc: Global) -> Box<LoadedModules, Global>
        requires { LeadsSomewhere self.held }
        ensures { self.held ≡ Some result.value }
    {
        self.into_parts(alloc).into_box()
    }

    fn of_parts(parts: Parts<LoadedModules, Global>) -> ModulesHandle
        ensures { result.held ≡ Some parts.value }
    {
        let Parts { ptr, alloc: _ } = parts;
        ModulesHandle { at: ptr as *mut u8 }
    }

    fn into_parts(self, alloc: Global) -> Parts<LoadedModules, Global>
        requires { LeadsSomewhere self.held }
        ensures { self.held ≡ Some result.value }
    {
        let ModulesHandle { at } = self;
        Parts {
            ptr: at as *mut LoadedModules,
            alloc,
        }
    }
}

unsafe impl Send for ModulesHandle {}

/// Recorded memory, or nothing.
#[repr(C)]
#[derive(Drop)]
pub struct MemoryHandle {
    at: *mut u8,
    pub ghost held: { Option (List RegionData) } by { coded_option memory_row.coded },
}

impl Model for MemoryHandle {
    ghost also_owns = { λ h. handle_owns memory_row h.at h.held };
}

impl MemoryHandle {
    /// A handle of memory.
    pub(crate) fn of(memory: Box<Memory, Global>) -> MemoryHandle
        ensures { result.held ≡ Some memory.value }
    {
        MemoryHandle::of_parts(Parts::of(memory))
    }

    /// The memory. From here on the handle is nothing.
    pub(crate) fn open(self, alloc: Global) -> Box<Memory, Global>
        requires { LeadsSomewhere self.held }
        ensures { self.held ≡ Some result.value }
    {
        self.into_parts(alloc).into_box()
    }

    fn of_parts(parts: Parts<Memory, Global>) -> MemoryHandle
        ensures { result.held ≡ Some parts.value }
    {
        let Parts { ptr, alloc: _ } = parts;
        MemoryHandle { at: ptr as *mut u8 }
    }

    fn into_parts(self, alloc: Global) -> Parts<Memory, Global>
        requires { LeadsSomewhere self.held }
        ensures { self.held ≡ Some result.value }
    {
        let MemoryHandle { at } = self;
        Parts {
            ptr: at as *mut Memory,
            alloc,
        }
    }
}

unsafe impl Send for MemoryHandle {}
