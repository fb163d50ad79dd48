//! What the lines of an event begin with, which the script and the place of the line tell.

ghost use Rattle.std.specs.Prelude.{◌≡◌, ◌++◌, codes, decimal, IfOk, OnOk};
ghost use Rattle.std.specs.String.{string_bytes};
ghost use Rattle.script_text.specs.Text.{event_number};
ghost use Rattle.journal_reader.specs.Reading.{head_of, frame_head, end_head};

use script_text::{Event, EventNumber, put_event};
use std::alloc::{AllocError, Global};
use std::fmt::Write;

/// Adds an event's number, and a space.
fn put_number(text: &mut String, number: EventNumber) -> Result<(), AllocError>
    ensures { OnOk result (string_bytes text.new ≡ string_bytes text.old
        ++ (event_number number.round number.thread number.event ++ codes " ")) }
{
    let EventNumber {
        round,
        thread,
        event,
    } = number;
    write!(text, "{round}.{thread}.{event} ")
}

/// Adds what the line of a frame says before its first address.
fn put_frame(text: &mut String, frame: usize) -> Result<(), AllocError>
    ensures { OnOk result (string_bytes text.new
        ≡ string_bytes text.old ++ (codes "frame " ++ decimal frame ++ codes " pc ")) }
{
    write!(text, "frame {frame} pc ")
}

/// What an event's first line says up to its answer: its number and the event.
pub fn event_head(alloc: Global, number: EventNumber, event: &Event) -> Result<String, AllocError>
    ensures { IfOk result (λ head. string_bytes head
        ≡ head_of number.round number.thread number.event event.now) }
{
    let mut head = String::new(alloc);
    put_number(&mut head, number)?;
    put_event(&mut head, event)?;
    Ok(head)
}

/// What the line of a frame says up to its first address.
pub fn frame_head(alloc: Global, number: EventNumber, frame: usize) -> Result<String, AllocError>
    ensures { IfOk result (λ head. string_bytes head
        ≡ frame_head number.round number.thread number.event frame) }
{
    let mut head = String::new(alloc);
    put_number(&mut head, number)?;
    put_frame(&mut head, frame)?;
    Ok(head)
}

/// What the last line of a backtrace says up to why it ends.
pub fn end_head(alloc: Global, number: EventNumber) -> Result<String, AllocError>
    ensures { IfOk result (λ head. string_bytes head
        ≡ end_head number.round number.thread number.event) }
{
    let mut head = String::new(alloc);
    put_number(&mut head, number)?;
    head.push_str("end ")?;
    Ok(head)
}
