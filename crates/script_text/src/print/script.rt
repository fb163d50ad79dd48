//! The one text of a script.

ghost use Rattle.std.specs.Prelude.{◌≡◌, ◌++◌, [], ◌∷◌, length, map, codes, decimal, IfOk, OnOk};
ghost use Rattle.std.specs.String.{string_bytes};
ghost use Rattle.std.specs.List.{flat_map};
ghost use Rattle.script_text.specs.Statements.{section_digits};
ghost use Rattle.script_text.specs.Spelling.{spelling_of, statement_text, statements_text};
ghost use Rattle.script_text.specs.Spelling.{image_data, image_statements, thread_statements};
ghost use Rattle.script_text.specs.Spelling.{snapshot_lines, snapshot_statements};
ghost use Rattle.script_text.specs.Spelling.{round_statements, script_text};
ghost use Rattle.script_text.specs.Digits.{hex};
ghost use Rattle.script_text.specs.EventLines.{event_spelling};
ghost use Rattle.script_text.specs.declared.statement.Statement.TheVariants as statement;

use crate::script::{Event, Round, Script, Snapshot, Thread};
use frame_expr::Memory;
use frame_parse::Section;
use reg_model::{NoMemory, Span};
use std::alloc::{AllocError, Global};
use std::fmt::Write;

/// The text that spells the script.
pub fn print_script(alloc: Global, script: &Script) -> Result<Vec<u8>, NoMemory>
    ensures text { IfOk result (λ text. text.items ≡ script_text script.now) }
{
    let mut text = String::new(alloc);
    put_number(&mut text, "frames", script.version)?;
    put_number(&mut text, "nodes", script.nodes)?;
    put_number(&mut text, "loads", script.loads)?;
    put_images(alloc, &mut text, &script.images, &script.sections)?;
    put_fixed(&mut text, &script.fixed)?;
    put_snapshots(alloc, &mut text, &script.snapshots)?;
    put_rounds(&mut text, &script.rounds)?;
    text.push_str("end\n")?;
    Ok(text.into_bytes())
}

/// Adds the line of a number.
fn put_number(text: &mut String, word: &str, number: u32) -> Result<(), AllocError>
    ensures { OnOk result (string_bytes text.new
        ≡ string_bytes text.old ++ spelling_of (word.now ∷ decimal number ∷ [])) }
{
    write!(text, "{word} {number}\n")
}

/// Adds the bytes of a section, or a dash where there are none.
fn put_bytes(alloc: Global, text: &mut String, bytes: &[u8]) -> Result<(), AllocError>
    ensures { OnOk result (string_bytes text.new
        ≡ string_bytes text.old ++ section_digits bytes.now) }
{
    if bytes.is_empty() {
        return text.push_str("-");
    }
    let digits = hex::encode(alloc, bytes)?;
    text.push_str(digits.as_str())
}

/// Adds the line of an image.
fn put_image(
    alloc: Global,
    text: &mut String,
    number: usize,
    span: &Span,
    section: &Section,
) -> Result<(), AllocError>
    ensures { OnOk result (string_bytes text.new
        ≡ string_bytes text.old
        ++ statement_text (statement.Image (image_data number span.now section.now))) }
{
    let base = span.first();
    let size = span.last() + 1 - base;
    let address = section.address();
    write!(text, "image {number} {base:x} {size:x} {address:x} ")?;
    put_bytes(alloc, text, section.bytes())?;
    text.push_str("\n")
}

/// Adds the lines of the images.
fn put_images(
    alloc: Global,
    text: &mut String,
    images: &[Span],
    sections: &[Section],
) -> Result<(), AllocError>
    requires { length sections.now ≡ length images.now }
    ensures { OnOk result (string_bytes text.new
        ≡ string_bytes text.old ++ statements_text (image_statements 0 images.now sections.now)) }
{
    for (number, span) in images.iter().enumerate() {
        put_image(alloc, text, number, span, &sections[number])?;
    }
    Ok(())
}

/// Adds the lines of the fixed images.
fn put_fixed(text: &mut String, fixed: &[u32]) -> Result<(), AllocError>
    ensures { OnOk result (string_bytes text.new
        ≡ string_bytes text.old ++ statements_text (map statement.Fixed fixed.now)) }
{
    for image in fixed {
        put_number(text, "fixed", *image)?;
    }
    Ok(())
}

/// Adds the number of a column, after a space.
fn put_column(text: &mut String, column: u64) -> Result<(), AllocError>
    ensures { OnOk result (string_bytes text.new ≡ string_bytes text.old ++ 32 ∷ hex column) }
{
    write!(text, " {column:x}")
}

/// Adds the numbers of columns.
fn put_columns(text: &mut String, columns: &[u64]) -> Result<(), AllocError>
    ensures { OnOk result (string_bytes text.new
        ≡ string_bytes text.old ++ flat_map (λ n. 32 ∷ hex n) columns.now) }
{
    for column in columns {
        put_column(text, *column)?;
    }
    Ok(())
}

/// Adds a line of memory.
fn put_region(
    alloc: Global,
    text: &mut String,
    address: u64,
    bytes: &[u8],
) -> Result<(), AllocError>
    ensures { OnOk result (string_bytes text.new ≡ string_bytes text.old
        ++ statement_text (statement.Memory (record { address = address; bytes = bytes.now }))) }
{
    write!(text, "memory {address:x} ")?;
    let digits = hex::encode(alloc, bytes)?;
    text.push_str(digits.as_str())?;
    text.push_str("\n")
}

/// Adds the lines of a snapshot's memory.
fn put_memory(alloc: Global, text: &mut String, memory: &Memory) -> Result<(), AllocError>
    ensures { OnOk result (string_bytes text.new
        ≡ string_bytes text.old ++ statements_text (map statement.Memory memory.now)) }
{
    for index in 0..memory.count() {
        put_region(alloc, text, memory.address(index), memory.region(index))?;
    }
    Ok(())
}

/// Adds the word of a snapshot, and its number.
fn put_snapshot_number(text: &mut String, number: usize) -> Result<(), AllocError>
    ensures { OnOk result (string_bytes text.new
        ≡ string_bytes text.old ++ (codes "snapshot " ++ decimal number)) }
{
    write!(text, "snapshot {number}")
}

/// Adds the lines of a snapshot.
fn put_snapshot(
    alloc: Global,
    text: &mut String,
    number: usize,
    snapshot: &Snapshot,
) -> Result<(), AllocError>
    ensures { OnOk result (string_bytes text.new ≡ string_bytes text.old
        ++ statements_text (snapshot_lines number snapshot.now)) }
{
    put_snapshot_number(text, number)?;
    put_columns(text, &snapshot.regs.columns)?;
    text.push_str("\n")?;
    put_memory(alloc, text, &snapshot.memory)
}

/// Adds the lines of the snapshots.
fn put_snapshots(alloc: Global, text: &mut String, snapshots: &[Snapshot]) -> Result<(), AllocError>
    ensures { OnOk result (string_bytes text.new
        ≡ string_bytes text.old ++ statements_text (snapshot_statements 0 snapshots.now)) }
{
    for (number, snapshot) in snapshots.iter().enumerate() {
        put_snapshot(alloc, text, number, snapshot)?;
    }
    Ok(())
}

/// Adds an event, as its line has it before the line feed.
pub fn put_event(text: &mut String, event: &Event) -> Result<(), AllocError>
    ensures { OnOk result (string_bytes text.new
        ≡ string_bytes text.old ++ event_spelling event.now) }
{
    match event {
        Event::Register { image } => write!(text, "register {image}"),
        Event::Deregister { base } => write!(text, "deregister {base:x}"),
        Event::Replace { image } => write!(text, "replace {image}"),
        Event::Load { image } => write!(text, "load {image}"),
        Event::Unload { base } => write!(text, "unload {base:x}"),
        Event::Find { pc } => write!(text, "find {pc:x}"),
        Event::Unwind { snapshot } => write!(text, "unwind {snapshot}"),
    }
}

/// Adds the lines of a thread's events.
fn put_events(text: &mut String, events: &[Event]) -> Result<(), AllocError>
    ensures { OnOk result (string_bytes text.new
        ≡ string_bytes text.old ++ statements_text (map statement.Event events.now)) }
{
    for event in events {
        put_event(text, event)?;
        text.push_str("\n")?;
    }
    Ok(())
}

/// Adds the lines of a round's threads.
fn put_threads(text: &mut String, threads: &[Thread]) -> Result<(), AllocError>
    ensures { OnOk result (string_bytes text.new
        ≡ string_bytes text.old ++ statements_text (thread_statements threads.now)) }
{
    for thread in threads {
        text.push_str("thread\n")?;
        put_events(text, &thread.events)?;
    }
    Ok(())
}

/// Adds the lines of the rounds.
fn put_rounds(text: &mut String, rounds: &[Round]) -> Result<(), AllocError>
    ensures { OnOk result (string_bytes text.new
        ≡ string_bytes text.old ++ statements_text (round_statements rounds.now)) }
{
    for round in rounds {
        text.push_str("round\n")?;
        put_threads(text, &round.threads)?;
    }
    Ok(())
}
