//! What is kept of a journal.

ghost use Rattle.std.specs.Prelude.{◌≡◌, IfOk, map};
ghost use Rattle.script_generator.specs.Summaries.{count_line, summary_lines};

use reg_model::NoMemory;
use std::alloc::Global;

/// Six counts of a journal, over all rounds.
#[derive(Clone, Copy, Debug, PartialEq, Eq)]
pub struct Summary {
    pub threads: u32,
    pub events: u32,
    /// The updates that were accepted.
    pub updates: u32,
    /// The `find` events that found a member, registered or loaded.
    pub hits: u32,
    /// Those that found none.
    pub misses: u32,
    /// The frame lines of all backtraces.
    pub frames: u32,
}

/// The six lines of a summary.
pub fn print_summary(alloc: Global, summary: &Summary) -> Result<Vec<Vec<u8>>, NoMemory>
    ensures { IfOk result
        (λ lines. map (λ line. line.items) lines.items ≡ summary_lines summary.now) }
{
    let mut lines = Vec::with_capacity(alloc, 6)?;
    lines.push(print_count(alloc, "threads", summary.threads)?)?;
    lines.push(print_count(alloc, "events", summary.events)?)?;
    lines.push(print_count(alloc, "updates", summary.updates)?)?;
    lines.push(print_count(alloc, "hits", summary.hits)?)?;
    lines.push(print_count(alloc, "misses", summary.misses)?)?;
    lines.push(print_count(alloc, "frames", summary.frames)?)?;
    Ok(lines)
}

/// A word and a number.
fn print_count(alloc: Global, word: &str, count: u32) -> Result<Vec<u8>, NoMemory>
    ensures { IfOk result (λ line. line.items ≡ count_line word.now count) }
{
    let line = format!(in alloc; "{word} {count}\n")?;
    Ok(line.into_bytes())
}
