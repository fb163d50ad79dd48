//! What is told of a script that is refused.

ghost use Rattle.std.specs.Prelude.{◌≡◌, ◌++◌, IfOk, IfSome, OnOk};
ghost use Rattle.std.specs.String.{string_bytes};
ghost use Rattle.script_text.specs.FaultText.{fault_text, section_fault_at, reason_text};
ghost use Rattle.script_text.specs.FaultText.{section_fault_text};

use crate::reason::Reason;
use frame_parse::FrameFault;
use reg_model::NoMemory;
use std::alloc::{AllocError, Global};
use std::fmt::Write;

/// The line that tells of the first bad line, and why it is bad.
pub fn print_fault(alloc: Global, line: u32, reason: Reason) -> Result<Vec<u8>, NoMemory>
    ensures text { IfOk result (λ text. text.items ≡ fault_text line reason) }
{
    let mut text = String::new(alloc);
    write!(text, "script line {line}: ")?;
    put_reason(&mut text, reason)?;
    text.push_str("\n")?;
    Ok(text.into_bytes())
}

/// Adds the word for a reason.
fn put_reason(text: &mut String, reason: Reason) -> Result<(), AllocError>
    ensures { OnOk result (string_bytes text.new ≡ string_bytes text.old ++ reason_text reason) }
{
    match reason {
        Reason::Missing => text.push_str("missing"),
        Reason::After => text.push_str("after"),
        Reason::Unended => text.push_str("unended"),
        Reason::Byte => text.push_str("byte"),
        Reason::Word => text.push_str("word"),
        Reason::Fields => text.push_str("fields"),
        Reason::Spelling => text.push_str("spelling"),
        Reason::Order => text.push_str("order"),
        Reason::Limit => text.push_str("limit"),
        Reason::Span => text.push_str("span"),
        Reason::Section { fault } => put_section(text, fault),
        Reason::Name => text.push_str("name"),
        Reason::Fixed => text.push_str("fixed"),
        Reason::Region => text.push_str("region"),
    }
}

/// Adds the name of a section's refusal, where its record starts, and the place.
fn put_section(text: &mut String, fault: FrameFault) -> Result<(), AllocError>
    ensures { OnOk result (string_bytes text.new
        ≡ string_bytes text.old ++ section_fault_text fault) }
{
    match placed_name(fault) {
        Some((name, start, at)) => put_places(text, name, start, at),
        None => Err(AllocError),
    }
}

/// The name of a section's refusal, where its record starts, and the place. None where memory ran
/// out.
fn placed_name(fault: FrameFault) -> Option<(&'static str, usize, usize)>
    ensures { IfSome result (λ told. section_fault_text fault
        ≡ section_fault_at told.0.now told.1 told.2) }
{
    match fault {
        FrameFault::Short { start, at } => Some(("short", start, at)),
        FrameFault::TooWide { start, at } => Some(("wide", start, at)),
        FrameFault::Encoding { start, at, .. } => Some(("encoding", start, at)),
        FrameFault::NoCie { start, at } => Some(("nocie", start, at)),
        FrameFault::Version { start, at, .. } => Some(("version", start, at)),
        FrameFault::Augmentation { start, at } => Some(("augmentation", start, at)),
        FrameFault::Column { start, at, .. } => Some(("column", start, at)),
        FrameFault::Range { start, at } => Some(("range", start, at)),
        FrameFault::Opcode { start, at, .. } => Some(("opcode", start, at)),
        FrameFault::Location { start, at } => Some(("location", start, at)),
        FrameFault::Remember { start, at } => Some(("remember", start, at)),
        FrameFault::Operation { start, at, .. } => Some(("operation", start, at)),
        FrameFault::Depth { start, at } => Some(("depth", start, at)),
        FrameFault::CfaRule { start, at } => Some(("cfarule", start, at)),
        FrameFault::NoMemory => None,
    }
}

fn put_places(text: &mut String, name: &str, start: usize, at: usize) -> Result<(), AllocError>
    ensures { OnOk result (string_bytes text.new
        ≡ string_bytes text.old ++ section_fault_at name.now start at) }
{
    write!(text, "section {name} {start} {at}")
}
