//! The generated script.

ghost use Rattle.std.specs.Prelude.{◌≡◌, IfOk, map};
ghost use Rattle.script_generator.specs.Generator.{IsImageCount, IsGenerated, generated_events};
ghost use Rattle.script_generator.specs.Generator.{generator_threads};

use crate::events::{thread_of, upwards};
use crate::images::{THREADS, images_of, sections_of};
use crate::stacks::stacks_of;
use reg_model::NoMemory;
use script_text::limits::{FIRST_VERSION, MOST_LOADS};
use script_text::{Round, Script};
use std::alloc::Global;

/// The nodes of the tree of registered ranges.
const NODES: u32 = 4096;

/// The script for so many images a thread, 1 to 500.
pub fn generate(alloc: Global, count: u32) -> Result<Script, NoMemory>
    requires { IsImageCount count }
    ensures { IfOk result (IsGenerated count) }
{
    let order = upwards(alloc, count)?;
    let images = images_of(alloc, &order)?;
    let sections = sections_of(alloc, &images)?;
    let snapshots = stacks_of(alloc)?;
    let mut rounds = Vec::with_capacity(alloc, 1)?;
    rounds.push(round_of(alloc, count)?)?;
    Ok(Script {
        version: FIRST_VERSION,
        nodes: NODES,
        loads: MOST_LOADS,
        images,
        sections,
        fixed: Vec::new(alloc),
        snapshots,
        rounds,
    })
}

/// The one round, with all threads side by side.
fn round_of(alloc: Global, count: u32) -> Result<Round, NoMemory>
    requires { IsImageCount count }
    ensures { IfOk result (λ round. round ≡ map (generated_events count) generator_threads) }
{
    let mut threads = Vec::with_capacity(alloc, THREADS as usize)?;
    for thread in 0..THREADS {
        threads.push(thread_of(alloc, thread, count)?)?;
    }
    Ok(Round { threads })
}
