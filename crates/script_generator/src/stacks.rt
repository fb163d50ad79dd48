//! The recorded stacks of a generated script.

ghost use Rattle.std.specs.Prelude.{◌≡◌, ◌<◌, IfOk, map};
ghost use Rattle.script_generator.specs.Generator.{generated_stack, generator_threads};
ghost use Rattle.script_generator.specs.declared.images.TheConstants.{THREADS};

use crate::images::{THREADS, base_of};
use frame_expr::{Memory, RegionFault, Regs};
use reg_model::NoMemory;
use script_text::Snapshot;
use std::alloc::Global;

/// The stack of each thread.
pub fn stacks_of(alloc: Global) -> Result<Vec<Snapshot>, NoMemory>
    ensures { IfOk result (λ stacks. stacks.items ≡ map generated_stack generator_threads) }
{
    let mut stacks = Vec::with_capacity(alloc, THREADS as usize)?;
    for thread in 0..THREADS {
        stacks.push(stack_of(alloc, thread)?)?;
    }
    Ok(stacks)
}

/// The stack of a thread, in the second function of its first image, which the first one called:
/// columns 6, 7 and 16, and the return address that stands on the stack.
fn stack_of(alloc: Global, thread: u32) -> Result<Snapshot, NoMemory>
    requires { thread < THREADS }
    ensures { IfOk result (λ stack. stack ≡ generated_stack thread) }
{
    let base = base_of(thread, 0);
    let mut columns = [0; 17];
    columns[6] = 0x7010;
    columns[7] = 0x7000;
    columns[16] = base + 37;
    let mut bytes = Vec::with_capacity(alloc, 32)?;
    bytes.extend_from_slice(&(base + 32).to_le_bytes())?;
    bytes.extend_from_slice(&[0; 24])?;
    let mut memory = Memory::new(alloc);
    match memory.push_region(0x7000, &bytes) {
        Ok(()) => {}
        Err(RegionFault::NoMemory) => return Err(NoMemory),
        Err(_) => unreachable!(),
    }
    let regs = Regs { columns };
    Ok(Snapshot { regs, memory })
}
