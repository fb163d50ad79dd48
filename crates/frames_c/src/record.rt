//! Memory is recorded, and freed.

ghost use Rattle.std.specs.Prelude.{◌≡◌, true, false, Some, []};
ghost use Rattle.c_handle.specs.Handles.{LeadsNowhere, LeadsSomewhere};
ghost use Rattle.frames_c.specs.Held.{held_list};
ghost use Rattle.frames_c.specs.Recorded.{AnswersRegion};

use crate::handles::MemoryHandle;
use frame_expr::{Memory, RegionFault};
use std::alloc::Global;

/// Memory without any region; false where memory runs out.
#[unsafe(no_mangle)]
pub extern "C" fn frames_c_memory(alloc: Global, out: &mut MemoryHandle) -> bool
    requires { LeadsNowhere out.old.held }
    ensures memory { result ≡ true → out.new.held ≡ Some [] }
    ensures nothing { result ≡ false → LeadsNowhere out.new.held }
{
    match Box::new(alloc, Memory::new(alloc)) {
        Ok(memory) => {
            *out = MemoryHandle::of(memory);
            true
        }
        Err(_) => false,
    }
}

/// What came of a region: 0 that it is recorded.
fn push(memory: &mut Memory, address: u64, bytes: &[u8]) -> u64
    ensures { AnswersRegion memory.old address bytes.now result memory.new }
{
    match memory.push_region(address, bytes) {
        Ok(()) => 0,
        Err(RegionFault::Empty) => 1,
        Err(RegionFault::End) => 2,
        Err(RegionFault::Order) => 3,
        Err(RegionFault::NoMemory) => 4,
    }
}

/// Records the bytes from an address on, above all that are recorded. They are copied. What came of
/// it: 0 that they are recorded, 1 that there are none, 2 that they reach past the last address, 3
/// that they aren't above the region before, 4 that memory ran out.
#[unsafe(no_mangle)]
pub extern "C" fn frames_c_memory_push(
    alloc: Global,
    memory: MemoryHandle,
    address: u64,
    bytes: &[u8],
    back: &mut MemoryHandle,
) -> u64
    requires memory { LeadsSomewhere memory.held }
    requires back { LeadsNowhere back.old.held }
    ensures region { AnswersRegion (held_list memory.held) address bytes.now result
        (held_list back.new.held) }
    ensures back { LeadsSomewhere back.new.held }
{
    let mut recorded = memory.open(alloc);
    let pushed = push(&mut recorded, address, bytes);
    *back = MemoryHandle::of(recorded);
    pushed
}

/// Frees recorded memory.
#[unsafe(no_mangle)]
pub extern "C" fn frames_c_memory_free(alloc: Global, memory: MemoryHandle)
    requires { LeadsSomewhere memory.held }
{
    drop(memory.open(alloc));
}
