//! Writes a journal, a piece for each line.

ghost use Rattle.std.specs.Prelude.{◌≡◌, ◌≢◌, ◌<◌, [], length, map, slice_index_or};
ghost use Rattle.std.specs.Prelude.{IsTrue, OnOk, OnErr, Err};
ghost use Rattle.script_text.specs.Text.{IsPrintable, numbered, answer_text, thread_text};
ghost use Rattle.script_text.specs.Text.{round_text};
ghost use Rattle.script_text.specs.Text.{journal_text, answer_lines, event_line};
ghost use Rattle.std.specs.List.{AllZip, flat_map};
ghost use Rattle.script_generator.specs.Summaries.{summary_of, summary_text, IsCountable};
ghost use Rattle.run_ports.specs.Ports.{Rose, Gains, GainsPart};
ghost use Rattle.run_engine.specs.Kept.{IsKeptPrintable, told, thread_told, round_told};
ghost use Rattle.run_engine.specs.Kept.{rounds_told, journal_told};

use crate::kept::{KeptAnswer, KeptJournal, KeptRound, KeptThread, tell_short};
use event_script::{
    Answer, Event, EventNumber, Journal, LineEnd, Round, Script, Thread, line_count, print_updates,
    spell_event_line, spell_registered, spell_registration, spell_removal,
};
use reg_model::Span;
use run_ports::{Sink, SinkFault, write_lines, write_piece};
use script_generator::{print_summary, summary};
use std::alloc::Global;

/// Writes a line of an event.
fn write_line<K: Sink>(
    room: &mut LineEnd,
    sink: &mut K,
    number: EventNumber,
    answer: &Answer,
    line: usize,
) -> Result<(), SinkFault>
    requires line { line < length (answer_lines answer.now) }
    requires sink { K.can_write sink.old }
    ensures goes_on { OnOk result (K.can_write sink.new) }
    ensures ok { OnOk result
        (Gains (K.written sink.old) (K.written sink.new)
        (event_line number.round number.thread number.event
        (slice_index_or (answer_lines answer.now) line []))) }
    ensures err { OnErr result
        (GainsPart (K.written sink.old) (K.written sink.new)
        (event_line number.round number.thread number.event
        (slice_index_or (answer_lines answer.now) line []))) }
    ensures failed { result ≡ Err SinkFault.Failed → Rose (K.faults sink.old) (K.faults sink.new) }
    ensures sound { result ≢ Err SinkFault.Failed → K.faults sink.new ≡ K.faults sink.old }
{
    spell_event_line(room, number, answer, line);
    write_piece(sink, room.as_str().as_bytes())
}

/// Writes the lines of an event, a piece for each.
fn write_answer<K: Sink>(
    room: &mut LineEnd,
    sink: &mut K,
    number: EventNumber,
    answer: &Answer,
) -> Result<(), SinkFault>
    requires printable { IsPrintable answer.now }
    requires sink { K.can_write sink.old }
    ensures goes_on { OnOk result (K.can_write sink.new) }
    ensures ok { OnOk result
        (Gains (K.written sink.old) (K.written sink.new)
        (answer_text number.round number.thread number.event answer.now)) }
    ensures err { OnErr result
        (GainsPart (K.written sink.old) (K.written sink.new)
        (answer_text number.round number.thread number.event answer.now)) }
    ensures failed { result ≡ Err SinkFault.Failed → Rose (K.faults sink.old) (K.faults sink.new) }
    ensures sound { result ≢ Err SinkFault.Failed → K.faults sink.new ≡ K.faults sink.old }
{
    for line in 0..line_count(answer) {
        match write_line(room, sink, number, answer, line) {
            Ok(()) => {}
            Err(fault) => return Err(fault),
        }
    }
    Ok(())
}

/// An event, and what is kept of its answer.
#[derive(Clone, Copy)]
struct KeptEvent<'a> {
    images: &'a [Span],
    event: Event,
    kept: &'a KeptAnswer,
}

/// Spells the line of an event that most are: a lookup that found a registered image, or a
/// registration or a removal that was made. False for any other.
#[inline(always)]
fn spell_usual(room: &mut LineEnd, event_number: EventNumber, event: &KeptEvent<'_>) -> bool
    ensures { IsTrue result → room.new
        ≡ answer_text event_number.round event_number.thread event_number.event
        (told event.now.images.now event.now.event event.now.kept.now) }
{
    match (event.event, event.kept) {
        (Event::Find { pc }, KeptAnswer::Registered { image, stamp }) => {
            spell_registered(room, event_number, pc, *image, *stamp);
            true
        }
        (Event::Register { image }, KeptAnswer::Done { number }) => {
            spell_registration(room, event_number, image, *number);
            true
        }
        (Event::Deregister { base }, KeptAnswer::DoneWith { number, image }) => {
            spell_removal(room, event_number, base, *image, *number);
            true
        }
        _ => false,
    }
}

/// Writes the lines of an event. A short form is told again for them where few events are so.
fn write_event<K: Sink>(
    room: &mut LineEnd,
    sink: &mut K,
    number: EventNumber,
    event: KeptEvent<'_>,
) -> Result<(), SinkFault>
    requires printable { IsKeptPrintable event.images.now event.event event.kept.now }
    requires sink { K.can_write sink.old }
    ensures goes_on { OnOk result (K.can_write sink.new) }
    ensures ok { OnOk result
        (Gains (K.written sink.old) (K.written sink.new)
        (answer_text number.round number.thread number.event
        (told event.entry.images.now event.entry.event event.entry.kept.now))) }
    ensures err { OnErr result
        (GainsPart (K.written sink.old) (K.written sink.new)
        (answer_text number.round number.thread number.event
        (told event.entry.images.now event.entry.event event.entry.kept.now))) }
    ensures failed { result ≡ Err SinkFault.Failed → Rose (K.faults sink.old) (K.faults sink.new) }
    ensures sound { result ≢ Err SinkFault.Failed → K.faults sink.new ≡ K.faults sink.old }
{
    if spell_usual(room, number, &event) {
        return write_piece(sink, room.as_str().as_bytes());
    }
    match event.kept {
        KeptAnswer::Whole { answer } => write_answer(room, sink, number, answer),
        _ => {
            let told = tell_short(event.images, event.event, event.kept);
            write_answer(room, sink, number, &told)
        }
    }
}

/// The events of a thread, and what is kept of their answers. Rounds and threads count from 1.
#[derive(Clone, Copy)]
struct ThreadPart<'a> {
    round: usize,
    thread: usize,
    images: &'a [Span],
    events: &'a [Event],
    kept: &'a [KeptAnswer],
}

/// Writes the answers of a thread.
fn write_thread<K: Sink>(
    room: &mut LineEnd,
    sink: &mut K,
    part: ThreadPart<'_>,
) -> Result<(), SinkFault>
    requires printable { AllZip (IsKeptPrintable part.images.now) part.events.now part.kept.now }
    requires sink { K.can_write sink.old }
    ensures goes_on { OnOk result (K.can_write sink.new) }
    ensures ok { OnOk result
        (Gains (K.written sink.old) (K.written sink.new)
        (thread_text part.entry.round part.entry.thread
        (thread_told part.entry.images.now part.entry.events.now part.entry.kept.now))) }
    ensures err { OnErr result
        (GainsPart (K.written sink.old) (K.written sink.new)
        (thread_text part.entry.round part.entry.thread
        (thread_told part.entry.images.now part.entry.events.now part.entry.kept.now))) }
    ensures failed { result ≡ Err SinkFault.Failed → Rose (K.faults sink.old) (K.faults sink.new) }
    ensures sound { result ≢ Err SinkFault.Failed → K.faults sink.new ≡ K.faults sink.old }
{
    for (index, event) in part.events.iter().enumerate() {
        let number = EventNumber {
            round: part.round,
            thread: part.thread,
            event: index + 1,
        };
        let event = KeptEvent {
            images: part.images,
            event: *event,
            kept: &part.kept[index],
        };
        write_event(room, sink, number, event)?;
    }
    Ok(())
}

/// The threads of a round, and what is kept of their answers. Rounds count from 1.
#[derive(Clone, Copy)]
struct RoundPart<'a> {
    round: usize,
    images: &'a [Span],
    threads: &'a [Thread],
    kept: &'a [KeptThread],
}

/// Writes the answers of a round.
fn write_round<K: Sink>(
    room: &mut LineEnd,
    sink: &mut K,
    part: RoundPart<'_>,
) -> Result<(), SinkFault>
    requires printable { AllZip (AllZip (IsKeptPrintable part.images.now)) part.threads.now
        part.kept.now }
    requires sink { K.can_write sink.old }
    ensures goes_on { OnOk result (K.can_write sink.new) }
    ensures ok { OnOk result
        (Gains (K.written sink.old) (K.written sink.new)
        (round_text part.entry.round
        (round_told part.entry.images.now part.entry.threads.now part.entry.kept.now))) }
    ensures err { OnErr result
        (GainsPart (K.written sink.old) (K.written sink.new)
        (round_text part.entry.round
        (round_told part.entry.images.now part.entry.threads.now part.entry.kept.now))) }
    ensures failed { result ≡ Err SinkFault.Failed → Rose (K.faults sink.old) (K.faults sink.new) }
    ensures sound { result ≢ Err SinkFault.Failed → K.faults sink.new ≡ K.faults sink.old }
{
    for (index, thread) in part.threads.iter().enumerate() {
        let kept = &part.kept[index];
        let events = ThreadPart {
            round: part.round,
            thread: index + 1,
            images: part.images,
            events: &thread.events,
            kept: &kept.answers,
        };
        write_thread(room, sink, events)?;
    }
    Ok(())
}

/// Writes the answers of all rounds.
fn write_rounds<'a, K: Sink>(
    room: &mut LineEnd,
    sink: &mut K,
    images: &'a [Span],
    rounds: &'a [Round],
    kept: &'a [KeptRound],
) -> Result<(), SinkFault>
    requires printable { AllZip (AllZip (AllZip (IsKeptPrintable images.now))) rounds.now kept.now }
    requires sink { K.can_write sink.old }
    ensures goes_on { OnOk result (K.can_write sink.new) }
    ensures ok { OnOk result
        (Gains (K.written sink.old) (K.written sink.new)
        (numbered round_text 1 (rounds_told images.now rounds.now kept.now))) }
    ensures err { OnErr result
        (GainsPart (K.written sink.old) (K.written sink.new)
        (numbered round_text 1 (rounds_told images.now rounds.now kept.now))) }
    ensures failed { result ≡ Err SinkFault.Failed → Rose (K.faults sink.old) (K.faults sink.new) }
    ensures sound { result ≢ Err SinkFault.Failed → K.faults sink.new ≡ K.faults sink.old }
{
    for (index, round) in rounds.iter().enumerate() {
        let kept_round = &kept[index];
        let threads = RoundPart {
            round: index + 1,
            images,
            threads: &round.threads,
            kept: &kept_round.threads,
        };
        write_round(room, sink, threads)?;
    }
    Ok(())
}

/// Writes the journal of a script by what was kept of it, and at its end the number of updates.
pub fn write_journal<K: Sink>(
    alloc: Global,
    sink: &mut K,
    script: &Script,
    kept: &KeptJournal,
) -> Result<(), SinkFault>
    requires printable { AllZip (AllZip (AllZip (IsKeptPrintable script.now.images)))
        script.now.rounds kept.now.rounds }
    requires sink { K.can_write sink.old }
    ensures ok { OnOk result
        (Gains (K.written sink.old) (K.written sink.new)
        (journal_text (journal_told script.now kept.now))) }
    ensures err { OnErr result
        (GainsPart (K.written sink.old) (K.written sink.new)
        (journal_text (journal_told script.now kept.now))) }
    ensures failed { result ≡ Err SinkFault.Failed → Rose (K.faults sink.old) (K.faults sink.new) }
    ensures sound { result ≢ Err SinkFault.Failed → K.faults sink.new ≡ K.faults sink.old }
{
    let mut room = LineEnd::new();
    match write_rounds(
        &mut room,
        sink,
        &script.images,
        &script.rounds,
        &kept.rounds,
    ) {
        Ok(()) => {}
        Err(fault) => return Err(fault),
    }
    let last = match print_updates(alloc, kept.updates) {
        Ok(last) => last,
        Err(_) => return Err(SinkFault::NoMemory),
    };
    write_piece(sink, &last)
}

/// Writes the summary of a journal, a piece for each of its six lines.
pub fn write_summary<K: Sink>(
    alloc: Global,
    sink: &mut K,
    journal: &Journal,
) -> Result<(), SinkFault>
    requires countable { IsCountable journal.now.rounds }
    requires sink { K.can_write sink.old }
    ensures ok { OnOk result
        (Gains (K.written sink.old) (K.written sink.new) (summary_text (summary_of journal.now))) }
    ensures err { OnErr result (GainsPart (K.written sink.old) (K.written sink.new)
        (summary_text (summary_of journal.now))) }
    ensures failed { result ≡ Err SinkFault.Failed → Rose (K.faults sink.old) (K.faults sink.new) }
    ensures sound { result ≢ Err SinkFault.Failed → K.faults sink.new ≡ K.faults sink.old }
{
    match print_summary(alloc, &summary(journal)) {
        Ok(lines) => write_lines(sink, &lines),
        Err(_) => Err(SinkFault::NoMemory),
    }
}
