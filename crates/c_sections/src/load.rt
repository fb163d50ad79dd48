//! Sections are read.

ghost use Rattle.std.specs.Prelude.{IfOk, IfErr};
ghost use Rattle.c_sections.specs.Loads.{IsLoaded};
ghost use Rattle.c_sections.specs.Refusals.{IsLoadFault};

use crate::refusal::LoadFault;
use frame_parse::Section;
use std::alloc::Global;

/// The section of bytes at an address. The bytes are copied.
pub fn read_section(alloc: Global, address: u64, bytes: &[u8]) -> Result<Section, LoadFault>
    ensures read { IfOk result (IsLoaded address bytes.now) }
    ensures fault { IfErr result (IsLoadFault address bytes.now) }
{
    if bytes.len() > u32::MAX as usize {
        return Err(LoadFault::Long);
    }
    match Section::read(alloc, address, bytes) {
        Ok(section) => Ok(section),
        Err(fault) => Err(LoadFault::Frames(fault)),
    }
}
