//! From the words of the command line to a status.

ghost use Rattle.std.specs.Prelude.{◌≡◌, ◌≢◌, ◌⊎◌, ◌+◌, ℕ, ◌≤◌, length, map, IfSome, List};
ghost use Rattle.script_text.specs.ScriptData.{ScriptData};
ghost use Rattle.script_text.specs.Spelling.{IsScript};
ghost use Rattle.std.specs.String.{string_bytes};
ghost use Rattle.command_line.specs.CommandLine.{IsCommandLine};
ghost use Rattle.script_generator.specs.Generator.{IsImageCount};
ghost use Rattle.run_ports.specs.Ports.{Rose, HandsUpTo};
ghost use Rattle.run_ports.specs.declared.status.Ending.{Ending};
ghost use Rattle.run_ports.specs.Endings.{Writes, WritesPart, sink_change};
ghost use Rattle.run_engine.specs.Outcome.{IsDue, Ends, EndsGenerated};
ghost use Rattle.run_engine.specs.Statuses.{ending_of};
ghost use Rattle.run_ports.specs.declared.reading.TheConstants.{SCRIPT_LIMIT};

use crate::gate::Gate;
use crate::script_taker::ScriptTaker;
use crate::scripts::{play_kept, play_script};
use crate::status::Status;
use crate::writing::{write_journal, write_summary};
use command_line::{Command, command_of};
use event_script::laws::bytes_have_one_answer;
use event_script::{ScriptFault, ScriptReader, print_fault};
use run_ports::{
    SCRIPT_LIMIT, Sink, SinkFault, Source, TakeFault, Taken, conclude, conclude_made, hand_up_to,
};
use script_generator::generate;
use std::alloc::Global;
use std::sync::Wait;
use std::thread::Threads;

/// Takes the words of the command line. For `run` reads a script from the source, plays it, and
/// writes its journal to the sink; for `gen` plays the script that is generated, and writes the
/// summary of its journal.
///
/// Each status but ReadFault has a text that is due with it: for Done the journal's or the
/// summary's, else one line that says why. Where the text can't be written, the status is
/// WriteFault. Memory may be wanted at any time. A source that failed, or said its end, is not
/// asked again, nor is a sink that failed or wanted memory.
pub fn run<R: Threads + Wait + Sync, S: Source, K: Sink, G: Gate + Sync>(
    rt: &R,
    alloc: Global,
    words: &[String],
    source: &mut S,
    sink: &mut K,
    gate: &G,
) -> Status
    requires source { S.can_read source.old }
    requires sink { K.can_write sink.old }

    // The journal theorem: the text of one lawful journal of the script that was read, or its
    // summary where the script was generated, whatever the order in which its threads are answered.
    ensures done { result ≡ Status.Done
        → Writes (IsDue (map string_bytes words.now) (S.remaining source.old)) Status.Done
        (K.written sink.old) (K.written sink.new) }
    ensures usage { result ≡ Status.Usage
        → Writes (IsDue (map string_bytes words.now) (S.remaining source.old)) Status.Usage
        (K.written sink.old) (K.written sink.new) }
    ensures too_long { result ≡ Status.TooLong
        → Writes (IsDue (map string_bytes words.now) (S.remaining source.old)) Status.TooLong
        (K.written sink.old) (K.written sink.new) }
    ensures script { result ≡ Status.Script
        → Writes (IsDue (map string_bytes words.now) (S.remaining source.old)) Status.Script
        (K.written sink.old) (K.written sink.new) }

    // What is taken of the source: nothing for other words, and else one byte more than a script
    // may have at the most.
    ensures unread { ¬ IsCommandLine (map string_bytes words.now) Command.Run
        → source.new ≡ source.old }
    ensures taken { HandsUpTo (SCRIPT_LIMIT + 1) (S.remaining source.old) (S.remaining source.new) }

    // Faults come exactly where a count rose in this call, and leave nothing, or a front of what
    // was due.
    ensures reads { result ≢ Status.ReadFault → S.faults source.new ≡ S.faults source.old }
    ensures writes { result ≢ Status.WriteFault → K.faults sink.new ≡ K.faults sink.old }
    ensures read_fault { result ≡ Status.ReadFault
        → IsCommandLine (map string_bytes words.now) Command.Run
        × Rose (S.faults source.old) (S.faults source.new)
        × (K.written sink.new ≡ K.written sink.old) }
    ensures write_fault { result ≡ Status.WriteFault → Rose (K.faults sink.old) (K.faults sink.new)
        × WritesPart (IsDue (map string_bytes words.now) (S.remaining source.old))
        (K.written sink.old) (K.written sink.new) }
    ensures no_memory { result ≡ Status.NoMemory
        → WritesPart (IsDue (map string_bytes words.now) (S.remaining source.old))
        (K.written sink.old) (K.written sink.new) }

    // A script that can be read and written is run, and a generated one whose summary can be
    // written, unless memory is wanted.
    ensures complete { IsCommandLine (map string_bytes words.now) Command.Run
        → IfSome (S.remaining source.old)
        (λ bytes. length bytes ≤ SCRIPT_LIMIT → (script : ScriptData) → IsScript bytes script
        → ¬ Rose (S.faults source.old) (S.faults source.new)
        → ¬ Rose (K.faults sink.old) (K.faults sink.new)
        → (result ≡ Status.Done) ⊎ (result ≡ Status.NoMemory)) }
    ensures complete_generated { (count : ℕ)
        → IsCommandLine (map string_bytes words.now) (Command.Generate count)
        → ¬ Rose (K.faults sink.old) (K.faults sink.new)
        → (result ≡ Status.Done) ⊎ (result ≡ Status.NoMemory) }
{
    // Bytes that spell a script have no first bad line: `complete` rests on this law, which takes
    // no step.
    bytes_have_one_answer();
    end_of(rt, alloc, words, source, sink, gate)
}

/// The run, with one clause for how it ends.
fn end_of<R: Threads + Wait + Sync, S: Source, K: Sink, G: Gate + Sync>(
    rt: &R,
    alloc: Global,
    words: &[String],
    source: &mut S,
    sink: &mut K,
    gate: &G,
) -> Status
    requires source { S.can_read source.old }
    requires sink { K.can_write sink.old }
    ensures unread { ¬ IsCommandLine (map string_bytes words.now) Command.Run
        → source.new ≡ source.old }
    ensures taken { HandsUpTo (SCRIPT_LIMIT + 1) (S.remaining source.old) (S.remaining source.new) }
    ensures reads { result ≢ Status.ReadFault → S.faults source.new ≡ S.faults source.old }
    ensures writes { ending_of result ≢ Ending.WriteFault → K.faults sink.new ≡ K.faults sink.old }
    ensures ends { Ends (map string_bytes words.now) (S.remaining source.old)
        (sink_change K.faults K.written sink.old sink.new
        (S.faults source.old) (S.faults source.new)) result }
{
    match command_of(alloc, words) {
        Ok(Some(Command::Run)) => run_source(rt, alloc, source, sink, gate),
        Ok(Some(Command::Generate { count })) => run_generated(rt, alloc, count, sink, gate),
        Ok(None) => conclude(
            sink,
            b"usage: unwind_main run | unwind_main gen N\n",
            Status::Usage,
        ),
        Err(_) => Status::NoMemory,
    }
}

/// The command `run`: reads a script, plays it and writes its journal.
fn run_source<R: Threads + Wait + Sync, S: Source, K: Sink, G: Gate + Sync>(
    rt: &R,
    alloc: Global,
    source: &mut S,
    sink: &mut K,
    gate: &G,
) -> Status
    requires source { S.can_read source.old }
    requires sink { K.can_write sink.old }
    ensures taken { HandsUpTo (SCRIPT_LIMIT + 1) (S.remaining source.old) (S.remaining source.new) }
    ensures reads { result ≢ Status.ReadFault → S.faults source.new ≡ S.faults source.old }
    ensures writes { ending_of result ≢ Ending.WriteFault → K.faults sink.new ≡ K.faults sink.old }
    ensures ends { (words : List (List ℕ)) → IsCommandLine words Command.Run
        → Ends words (S.remaining source.old)
        (sink_change K.faults K.written sink.old sink.new
        (S.faults source.old) (S.faults source.new)) result }
{
    let mut taker = ScriptTaker {
        reader: ScriptReader::new(alloc),
    };
    match hand_up_to(source, &mut taker, SCRIPT_LIMIT) {
        Ok(Taken::Whole) => {}
        Ok(Taken::TooLong) => return conclude(sink, b"script too long\n", Status::TooLong),
        Err(TakeFault::Failed) => return Status::ReadFault,
        Err(TakeFault::NoMemory) => return Status::NoMemory,
    }
    let script = match taker.reader.finish() {
        Ok(script) => script,
        Err(ScriptFault::Bad { line, reason }) => {
            return conclude_made(sink, print_fault(alloc, line, reason), Status::Script);
        }
        Err(ScriptFault::NoMemory) => return Status::NoMemory,
    };
    let kept = match play_kept(rt, alloc, gate, &script) {
        Ok(kept) => kept,
        Err(_) => return Status::NoMemory,
    };
    match write_journal(alloc, sink, &script, &kept) {
        Ok(()) => Status::Done,
        Err(SinkFault::Failed) => Status::WriteFault,
        Err(SinkFault::NoMemory) => Status::NoMemory,
    }
}

/// The command `gen`: plays the script that is generated, and writes the summary of its journal.
fn run_generated<R: Threads + Wait + Sync, K: Sink, G: Gate + Sync>(
    rt: &R,
    alloc: Global,
    count: u32,
    sink: &mut K,
    gate: &G,
) -> Status
    requires count { IsImageCount count }
    requires sink { K.can_write sink.old }
    ensures writes { ending_of result ≢ Ending.WriteFault → K.faults sink.new ≡ K.faults sink.old }
    ensures ends { EndsGenerated count
        (sink_change K.faults K.written sink.old sink.new 0 0) result }
{
    let script = match generate(alloc, count) {
        Ok(script) => script,
        Err(_) => return Status::NoMemory,
    };
    let journal = match play_script(rt, alloc, gate, &script) {
        Ok(journal) => journal,
        Err(_) => return Status::NoMemory,
    };
    match write_summary(alloc, sink, &journal) {
        Ok(()) => Status::Done,
        Err(SinkFault::Failed) => Status::WriteFault,
        Err(SinkFault::NoMemory) => Status::NoMemory,
    }
}
