//! A snapshot as far as its memory has come.

ghost use Rattle.std.specs.Prelude.{◌≡◌, []};
ghost use Rattle.event_script.specs.Reading.{LeavesDraft, region_added};

use crate::reader::fault::LineFault;
use frame_expr::{Memory, RegionFault, Regs};
use script_text::limits::MOST_MEMORY_BYTES;
use script_text::{MemoryFields, Reason, Snapshot};
use std::alloc::Global;
use std::marker::Model;

/// A snapshot whose memory goes on.
#[derive(Drop)]
pub struct SnapshotDraft {
    regs: Regs,
    memory: Memory,
    /// How many bytes were recorded.
    size: usize,
}

impl Model for SnapshotDraft {
    ghost use Rattle.std.specs.Prelude.{◌≡◌, ◌≤◌};
    ghost use Rattle.script_text.specs.declared.limits.TheConstants.{MOST_MEMORY_BYTES};
    ghost use Rattle.script_text.specs.ScriptData.{SnapshotData, recorded_bytes};

    ghost Value = { SnapshotData };

    ghost view = { λ s. record { regs = s.regs; memory = s.memory } };

    ghost invariant = { λ s. (s.size ≡ recorded_bytes s.memory) × (s.size ≤ MOST_MEMORY_BYTES) };
}

impl SnapshotDraft {
    /// These registers, and no memory.
    pub fn new(alloc: Global, regs: Regs) -> Self
        ensures { result ≡ record { regs = regs; memory = [] } }
    {
        SnapshotDraft {
            regs,
            memory: Memory::new(alloc),
            size: 0,
        }
    }

    /// Adds a region of memory.
    pub fn push(&mut self, region: MemoryFields) -> Result<(), LineFault>
        ensures { LeavesDraft self.new result (region_added self.old region) }
    {
        if region.bytes.len() > MOST_MEMORY_BYTES - self.size {
            return Err(Reason::Limit.into());
        }
        match self.memory.push_region(region.address, &region.bytes) {
            Ok(()) => {}
            Err(RegionFault::NoMemory) => return Err(LineFault::NoMemory),
            Err(_) => return Err(Reason::Region.into()),
        }
        self.size += region.bytes.len();
        Ok(())
    }

    /// The snapshot, which is whole.
    pub fn into_snapshot(self) -> Snapshot
        ensures { result ≡ self }
    {
        let SnapshotDraft { regs, memory, .. } = self;
        Snapshot { regs, memory }
    }
}
