//! From the words of the command line to a status.

ghost use Rattle.std.specs.Prelude.{◌≡◌, ◌≢◌, ◌⊎◌, ℕ, ◌+◌, ◌<◌, ◌≤◌, List, length, map, Option};
ghost use Rattle.std.specs.Prelude.{IfOk, IfSome, MatchBool, Some, None};
ghost use Rattle.std.specs.String.{string_bytes};
ghost use Rattle.script_text.specs.ScriptData.{ScriptData};
ghost use Rattle.script_text.specs.Spelling.{IsScript};
ghost use Rattle.run_ports.specs.Endings.{Writes, WritesPart, sink_change};
ghost use Rattle.run_ports.specs.Ports.{Rose, HandsUpTo};
ghost use Rattle.run_ports.specs.declared.status.Ending.{Ending};
ghost use Rattle.run_ports.specs.declared.reading.TheConstants.{SCRIPT_LIMIT};
ghost use Rattle.raise_run.specs.RaiseOutcome.{IsRaiseDue, RaiseEnds, RaiseEndsOf, SpellsScript};
ghost use Rattle.raise_run.specs.RaiseOutcome.{no_snapshot_line};
ghost use Rattle.raise_run.specs.RaiseStatuses.{raise_ending_of};
ghost use Rattle.raise_run.specs.Words.{request_of};
ghost use Rattle.raise_run.specs.declared.words.RaiseRequest.{RaiseRequest};

use crate::print::print_raised;
use crate::raising::raise_in;
use crate::status::RaiseStatus;
use crate::words::{RaiseRequest, request_of};
use event_script::laws::bytes_have_one_answer;
use event_script::{Script, ScriptFault, print_fault, read};
use run_ports::{SCRIPT_LIMIT, Sink, Source, TakeFault, conclude, conclude_made, take_up_to};
use std::alloc::{AllocError, Global};
use std::fmt::Write;
use std::sync::Wait;

/// Takes two words, the number of a snapshot and a kind, and a script from the source; raises an
/// exception of that kind over the snapshot, among the script's fixed images, and writes what
/// became of it to the sink.
///
/// Each status but ReadFault has a text that is due with it: for Done the raise's, else one line
/// that says why. Where the text can't be written, the status is WriteFault. Memory may be wanted
/// at any time. A source that failed, or said its end, is not asked again, nor is a sink that
/// failed or wanted memory.
pub fn raise_run<R: Wait, S: Source, K: Sink>(
    rt: &R,
    alloc: Global,
    words: &[String],
    source: &mut S,
    sink: &mut K,
) -> RaiseStatus
    requires source { S.can_read source.old }
    requires sink { K.can_write sink.old }

    // The text of one raise that unfolds, in which no answer changed.
    ensures done { result ≡ RaiseStatus.Done
        → Writes (IsRaiseDue (map string_bytes words.now) (S.remaining source.old))
        RaiseStatus.Done (K.written sink.old) (K.written sink.new) }
    ensures usage { result ≡ RaiseStatus.Usage
        → Writes (IsRaiseDue (map string_bytes words.now) (S.remaining source.old))
        RaiseStatus.Usage (K.written sink.old) (K.written sink.new) }
    ensures too_long { result ≡ RaiseStatus.TooLong
        → Writes (IsRaiseDue (map string_bytes words.now) (S.remaining source.old))
        RaiseStatus.TooLong (K.written sink.old) (K.written sink.new) }
    ensures script { result ≡ RaiseStatus.Script
        → Writes (IsRaiseDue (map string_bytes words.now) (S.remaining source.old))
        RaiseStatus.Script (K.written sink.old) (K.written sink.new) }
    ensures no_snapshot { result ≡ RaiseStatus.NoSnapshot
        → Writes (IsRaiseDue (map string_bytes words.now) (S.remaining source.old))
        RaiseStatus.NoSnapshot (K.written sink.old) (K.written sink.new) }

    // What is taken of the source: nothing for other words, and else one byte more than a script
    // may have at the most.
    ensures unread { request_of (map string_bytes words.now) ≡ None → source.new ≡ source.old }
    ensures taken { HandsUpTo (SCRIPT_LIMIT + 1) (S.remaining source.old) (S.remaining source.new) }

    // Faults come exactly where a count rose in this call, and leave nothing, or a front of what
    // was due.
    ensures reads { result ≢ RaiseStatus.ReadFault → S.faults source.new ≡ S.faults source.old }
    ensures writes { result ≢ RaiseStatus.WriteFault → K.faults sink.new ≡ K.faults sink.old }
    ensures read_fault { result ≡ RaiseStatus.ReadFault
        → (request_of (map string_bytes words.now) ≢ None)
        × Rose (S.faults source.old) (S.faults source.new)
        × (K.written sink.new ≡ K.written sink.old) }
    ensures write_fault { result ≡ RaiseStatus.WriteFault
        → Rose (K.faults sink.old) (K.faults sink.new)
        × WritesPart (IsRaiseDue (map string_bytes words.now) (S.remaining source.old))
        (K.written sink.old) (K.written sink.new) }
    ensures no_memory { result ≡ RaiseStatus.NoMemory
        → WritesPart (IsRaiseDue (map string_bytes words.now) (S.remaining source.old))
        (K.written sink.old) (K.written sink.new) }

    // A script that can be read and written, and has the snapshot, is raised in, unless memory is
    // wanted.
    ensures complete { (request : RaiseRequest)
        → request_of (map string_bytes words.now) ≡ Some request
        → IfSome (S.remaining source.old)
        (λ bytes. length bytes ≤ SCRIPT_LIMIT → (script : ScriptData) → IsScript bytes script
        → request.snapshot < length script.snapshots
        → ¬ Rose (S.faults source.old) (S.faults source.new)
        → ¬ Rose (K.faults sink.old) (K.faults sink.new)
        → (result ≡ RaiseStatus.Done) ⊎ (result ≡ RaiseStatus.NoMemory)) }
{
    // Bytes spell one script, and have then no first bad line: `complete` rests on this law, which
    // takes no step.
    bytes_have_one_answer();
    end_of(rt, alloc, words, source, sink)
}

/// The run, with one clause for how it ends.
fn end_of<R: Wait, S: Source, K: Sink>(
    rt: &R,
    alloc: Global,
    words: &[String],
    source: &mut S,
    sink: &mut K,
) -> RaiseStatus
    requires source { S.can_read source.old }
    requires sink { K.can_write sink.old }
    ensures unread { request_of (map string_bytes words.now) ≡ None → source.new ≡ source.old }
    ensures taken { HandsUpTo (SCRIPT_LIMIT + 1) (S.remaining source.old) (S.remaining source.new) }
    ensures reads { result ≢ RaiseStatus.ReadFault → S.faults source.new ≡ S.faults source.old }
    ensures writes { raise_ending_of result ≢ Ending.WriteFault
        → K.faults sink.new ≡ K.faults sink.old }
    ensures ends { RaiseEnds (map string_bytes words.now) (S.remaining source.old)
        (sink_change K.faults K.written sink.old sink.new
        (S.faults source.old) (S.faults source.new)) result }
{
    match request_of(words) {
        Some(request) => raise_source(rt, alloc, &request, source, sink),
        None => conclude(
            sink,
            b"usage: raise_main SNAPSHOT KIND\n",
            RaiseStatus::Usage,
        ),
    }
}

/// Reads the script, and raises in it.
fn raise_source<R: Wait, S: Source, K: Sink>(
    rt: &R,
    alloc: Global,
    request: &RaiseRequest,
    source: &mut S,
    sink: &mut K,
) -> RaiseStatus
    requires source { S.can_read source.old }
    requires sink { K.can_write sink.old }
    ensures taken { HandsUpTo (SCRIPT_LIMIT + 1) (S.remaining source.old) (S.remaining source.new) }
    ensures reads { result ≢ RaiseStatus.ReadFault → S.faults source.new ≡ S.faults source.old }
    ensures writes { raise_ending_of result ≢ Ending.WriteFault
        → K.faults sink.new ≡ K.faults sink.old }
    ensures ends { RaiseEndsOf request.now (S.remaining source.old)
        (sink_change K.faults K.written sink.old sink.new
        (S.faults source.old) (S.faults source.new)) result }
{
    match take_up_to(alloc, source, SCRIPT_LIMIT) {
        Ok(bytes) if bytes.len() > SCRIPT_LIMIT => {
            conclude(sink, b"script too long\n", RaiseStatus::TooLong)
        }
        Ok(bytes) => match read(alloc, &bytes) {
            Ok(script) => raise_script(rt, alloc, &script, request, sink),
            Err(ScriptFault::Bad { line, reason }) => {
                conclude_made(sink, print_fault(alloc, line, reason), RaiseStatus::Script)
            }
            Err(ScriptFault::NoMemory) => RaiseStatus::NoMemory,
        },
        Err(TakeFault::Failed) => RaiseStatus::ReadFault,
        Err(TakeFault::NoMemory) => RaiseStatus::NoMemory,
    }
}

/// Raises in a script that was read.
fn raise_script<R: Wait, K: Sink>(
    rt: &R,
    alloc: Global,
    script: &Script,
    request: &RaiseRequest,
    sink: &mut K,
) -> RaiseStatus
    requires sink { K.can_write sink.old }
    ensures writes { raise_ending_of result ≢ Ending.WriteFault
        → K.faults sink.new ≡ K.faults sink.old }
    ensures ends { (input : Option (List ℕ)) (reads reads_after : ℕ) → SpellsScript input script.now
        → RaiseEndsOf request.now input
        (sink_change K.faults K.written sink.old sink.new reads reads_after) result }
{
    if has_snapshot(script, request.snapshot) {
        raise_named(rt, alloc, script, request, sink)
    } else {
        let line = print_missing(alloc, request.snapshot);
        conclude_made(sink, line, RaiseStatus::NoSnapshot)
    }
}

fn has_snapshot(script: &Script, number: u32) -> bool
    ensures { MatchBool result (number < length script.now.snapshots)
        (length script.now.snapshots ≤ number) }
{
    (number as usize) < script.snapshots.len()
}

/// Raises over a snapshot that the script has.
fn raise_named<R: Wait, K: Sink>(
    rt: &R,
    alloc: Global,
    script: &Script,
    request: &RaiseRequest,
    sink: &mut K,
) -> RaiseStatus
    requires named { request.now.snapshot < length script.now.snapshots }
    requires sink { K.can_write sink.old }
    ensures writes { raise_ending_of result ≢ Ending.WriteFault
        → K.faults sink.new ≡ K.faults sink.old }
    ensures ends { (input : Option (List ℕ)) (reads reads_after : ℕ) → SpellsScript input script.now
        → RaiseEndsOf request.now input
        (sink_change K.faults K.written sink.old sink.new reads reads_after) result }
{
    let snapshot = &script.snapshots[request.snapshot as usize];
    match raise_in(rt, alloc, script, snapshot, request) {
        Ok(raised) => conclude_made(sink, print_raised(alloc, &raised), RaiseStatus::Done),
        Err(_) => RaiseStatus::NoMemory,
    }
}

/// The line that tells of a snapshot that isn't there.
fn print_missing(alloc: Global, number: u32) -> Result<Vec<u8>, AllocError>
    ensures { IfOk result (λ text. text.items ≡ no_snapshot_line number) }
{
    let mut text = String::new(alloc);
    write!(text, "no snapshot {number}\n")?;
    Ok(text.into_bytes())
}
