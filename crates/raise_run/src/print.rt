//! The text of a raise.

ghost use Rattle.std.specs.Prelude.{◌≡◌, ◌++◌, IfOk, OnOk};
ghost use Rattle.std.specs.String.{string_bytes};
ghost use Rattle.raise_run.specs.RaiseText.{verdict_text, phase_line, phases_text, fault_place};
ghost use Rattle.raise_run.specs.RaiseText.{raise_end_text, raise_end_line, raised_text};

use event_script::{put_end, put_frame};
use raise_phases::{LsdaFault, Phase, RaiseEnd, Raised, Verdict};
use reg_model::NoMemory;
use std::alloc::{AllocError, Global};
use std::fmt::Write;

/// A line for each frame of the search and of the cleanup, and one for how the raise ended.
pub fn print_raised(alloc: Global, raised: &Raised) -> Result<Vec<u8>, NoMemory>
    ensures text { IfOk result (λ text. text.items ≡ raised_text raised.now) }
{
    let mut text = String::new(alloc);
    put_phases(&mut text, "search", &raised.search)?;
    put_phases(&mut text, "cleanup", &raised.cleanup)?;
    put_raise_end(&mut text, &raised.end)?;
    Ok(text.into_bytes())
}

/// Adds the lines of a phase's frames.
fn put_phases(text: &mut String, word: &str, phases: &[Phase]) -> Result<(), AllocError>
    ensures { OnOk result (string_bytes text.new
        ≡ string_bytes text.old ++ phases_text word.now phases.now) }
{
    for (number, phase) in phases.iter().enumerate() {
        put_phase(text, word, number, phase)?;
    }
    Ok(())
}

/// Adds the line of a frame.
fn put_phase(text: &mut String, word: &str, number: usize, phase: &Phase) -> Result<(), AllocError>
    ensures { OnOk result (string_bytes text.new
        ≡ string_bytes text.old ++ phase_line word.now number phase.now) }
{
    put_frame(text, word, number, &phase.line)?;
    text.push_str(" ")?;
    put_verdict(text, &phase.verdict)?;
    text.push_str("\n")
}

/// Adds what the table of a frame says.
fn put_verdict(text: &mut String, verdict: &Option<Verdict>) -> Result<(), AllocError>
    ensures { OnOk result (string_bytes text.new
        ≡ string_bytes text.old ++ verdict_text verdict.now) }
{
    match verdict {
        None => text.push_str("-"),
        Some(Verdict::Terminate) => text.push_str("terminate"),
        Some(Verdict::Continue) => text.push_str("continue"),
        Some(Verdict::Cleanup { pad }) => write!(text, "cleanup {pad:x}"),
        Some(Verdict::Handler { pad, filter }) => write!(text, "handler {pad:x} {filter}"),
    }
}

/// The place of a table's fault.
fn place_of(fault: &LsdaFault) -> usize
    ensures { result ≡ fault_place fault.now }
{
    match fault {
        LsdaFault::Short { at } => *at,
        LsdaFault::TooWide { at } => *at,
        LsdaFault::Encoding { at, .. } => *at,
        LsdaFault::Filter { at } => *at,
        LsdaFault::Chain { at } => *at,
        LsdaFault::TypeEntry { at } => *at,
    }
}

/// Adds the last line.
fn put_raise_end(text: &mut String, end: &RaiseEnd) -> Result<(), AllocError>
    ensures { OnOk result (string_bytes text.new
        ≡ string_bytes text.old ++ raise_end_line end.now) }
{
    text.push_str("end ")?;
    put_end_text(text, end)?;
    text.push_str("\n")
}

/// Adds how the raise ended.
fn put_end_text(text: &mut String, end: &RaiseEnd) -> Result<(), AllocError>
    ensures { OnOk result (string_bytes text.new
        ≡ string_bytes text.old ++ raise_end_text end.now) }
{
    match end {
        RaiseEnd::Uncaught { end } => {
            text.push_str("uncaught ")?;
            put_end(text, *end)
        }
        RaiseEnd::Terminate { frame } => write!(text, "terminate {frame}"),
        RaiseEnd::NoTable { frame } => write!(text, "notable {frame}"),
        RaiseEnd::BadTable { frame, fault } => {
            let place = place_of(fault);
            write!(text, "badtable {frame} at {place}")
        }
        RaiseEnd::Changed { frame, .. } => write!(text, "changed {frame}"),
        RaiseEnd::Caught { frame, pad, filter } => {
            write!(text, "caught {frame} pad {pad:x} filter {filter}")
        }
    }
}
