//! The reader of journals.

ghost use Rattle.std.specs.Prelude.{◌≡◌, ◌+◌, ◌^◌, ◌<◌, ◌≤◌, ◌==◌, [], ◌∷◌, ◌++◌, length};
ghost use Rattle.std.specs.Prelude.{map, option_map, count_by, OnOk, IfOk, IfErr, All};
ghost use Rattle.std.specs.List.{AllZip};
ghost use Rattle.script_text.specs.Fields.{pieces};
ghost use Rattle.script_text.specs.Text.{trace_lines, IsPrintable};
ghost use Rattle.script_text.specs.declared.script.Event.TheVariants as event;
ghost use Rattle.journal_reader.specs.Told.{IsToldAnswer, IsToldTrace};
ghost use Rattle.journal_reader.specs.JournalLines.{line_at, event_lines, thread_lines};
ghost use Rattle.journal_reader.specs.JournalLines.{round_lines, numbered_lines, updates_line};
ghost use Rattle.journal_reader.specs.ReadLines.{ReadsLines};
ghost use Rattle.journal_reader.specs.FormFlaw.{TellsJournal, FormFlaw};
ghost use Rattle.journal_reader.specs.JournalRead.{ReadsJournal};

use crate::answers::{first_line, told_end, told_frame, told_updates};
use crate::heads::{end_head, event_head, frame_head};
use crate::lines::{count_feeds, next_line};
use reg_model::{NoMemory, Span};
use script_text::{Answer, Event, EventNumber, Journal, Round, Script, Thread};
use std::alloc::Global;
use unwind_step::Trace;

/// The first line up to which a text tells no journal of the script, numbered from 1.
#[derive(Clone, Copy, Debug, PartialEq, Eq)]
pub struct FormFault {
    pub line: u64,
}

/// A text that is read line by line. Where what comes isn't told, `rest` begins with the bad line.
#[derive(Drop)]
struct JournalReader<'a> {
    images: &'a [Span],
    rest: &'a [u8],
}

/// Adds a copy of an item.
fn add_copy<T: Copy>(items: &mut Vec<T>, item: &T) -> Result<(), NoMemory>
    ensures { OnOk result (items.new.items ≡ items.old.items ++ item.now ∷ []) }
{
    items.push(*item)?;
    Ok(())
}

/// Adds an item.
fn add<T: Drop>(items: &mut Vec<T>, item: T) -> Result<(), NoMemory>
    ensures { OnOk result (items.new.items ≡ items.old.items ++ item ∷ []) }
{
    items.push(item)?;
    Ok(())
}

impl<'a> JournalReader<'a> {
    /// The lines of a backtrace after the first one.
    fn read_trace(&mut self, alloc: Global, number: EventNumber) -> Result<Option<Trace>, NoMemory>
        requires few { length self.old.images.now < 2 ^ 32 }
        ensures images { self.new.images.now ≡ self.old.images.now }
        ensures lines { IfOk result (λ read. ReadsLines (IsToldTrace self.old.images.now)
            (λ trace. map (line_at number.round number.thread number.event) (trace_lines trace))
            (pieces 10 self.old.rest.now) read (pieces 10 self.new.rest.now)) }
    {
        let mut frames = Vec::new(alloc);
        while let Some((line, rest)) = next_line(self.rest) {
            let head = frame_head(alloc, number, frames.len())?;
            match told_frame(self.images, head.as_str(), line) {
                Some(frame) => {
                    add_copy(&mut frames, &frame)?;
                    self.rest = rest;
                }
                None => {
                    let head = end_head(alloc, number)?;
                    return match told_end(head.as_str(), line) {
                        Some(end) => {
                            self.rest = rest;
                            Ok(Some(Trace { frames, end }))
                        }
                        None => Ok(None),
                    };
                }
            }
        }
        Ok(None)
    }

    /// The lines of an event that is a backtrace.
    fn read_unwind(
        &mut self,
        alloc: Global,
        number: EventNumber,
        snapshot: u32,
    ) -> Result<Option<Answer>, NoMemory>
        requires few { length self.old.images.now < 2 ^ 32 }
        ensures images { self.new.images.now ≡ self.old.images.now }
        ensures lines { IfOk result (λ read. ReadsLines
            (IsToldAnswer self.old.images.now (event.Unwind snapshot))
            (event_lines number.round number.thread number.event)
            (pieces 10 self.old.rest.now) read (pieces 10 self.new.rest.now)) }
    {
        let Some((line, rest)) = next_line(self.rest) else {
            return Ok(None);
        };
        let head = event_head(alloc, number, &Event::Unwind { snapshot })?;
        if line != head.as_bytes() {
            return Ok(None);
        }
        self.rest = rest;
        match self.read_trace(alloc, number)? {
            None => Ok(None),
            Some(trace) => Ok(Some(Answer::Unwind { snapshot, trace })),
        }
    }

    /// The lines of an event.
    fn read_answer(
        &mut self,
        alloc: Global,
        number: EventNumber,
        event: &Event,
    ) -> Result<Option<Answer>, NoMemory>
        requires few { length self.old.images.now < 2 ^ 32 }
        ensures images { self.new.images.now ≡ self.old.images.now }
        ensures lines { IfOk result (λ read. ReadsLines
            (IsToldAnswer self.old.images.now event.now)
            (event_lines number.round number.thread number.event)
            (pieces 10 self.old.rest.now) read (pieces 10 self.new.rest.now)) }
    {
        if let Event::Unwind { snapshot } = event {
            return self.read_unwind(alloc, number, *snapshot);
        }
        let Some((line, rest)) = next_line(self.rest) else {
            return Ok(None);
        };
        let head = event_head(alloc, number, event)?;
        match first_line(self.images, head.as_str(), event, line) {
            None => Ok(None),
            Some(answer) => {
                self.rest = rest;
                Ok(Some(answer))
            }
        }
    }

    /// The answers to a thread's events.
    fn read_thread(
        &mut self,
        alloc: Global,
        round: usize,
        thread: usize,
        events: &[Event],
    ) -> Result<Option<Vec<Answer>>, NoMemory>
        requires few { length self.old.images.now < 2 ^ 32 }
        ensures images { self.new.images.now ≡ self.old.images.now }
        ensures lines { IfOk result (λ read. ReadsLines
            (AllZip (IsToldAnswer self.old.images.now) events.now) (thread_lines round thread)
            (pieces 10 self.old.rest.now) (option_map (λ answers. answers.items) read)
            (pieces 10 self.new.rest.now)) }
    {
        let mut answers = Vec::new(alloc);
        for (index, event) in events.iter().enumerate() {
            let number = EventNumber {
                round,
                thread,
                event: index + 1,
            };
            match self.read_answer(alloc, number, event)? {
                None => return Ok(None),
                Some(answer) => add(&mut answers, answer)?,
            }
        }
        Ok(Some(answers))
    }

    /// The answers to a round's events.
    fn read_round(
        &mut self,
        alloc: Global,
        round: usize,
        threads: &[Thread],
    ) -> Result<Option<Vec<Vec<Answer>>>, NoMemory>
        requires few { length self.old.images.now < 2 ^ 32 }
        ensures images { self.new.images.now ≡ self.old.images.now }
        ensures lines { IfOk result (λ read. ReadsLines
            (AllZip (AllZip (IsToldAnswer self.old.images.now)) threads.now) (round_lines round)
            (pieces 10 self.old.rest.now)
            (option_map (λ threads. map (λ answers. answers.items) threads.items) read)
            (pieces 10 self.new.rest.now)) }
    {
        let mut answers = Vec::new(alloc);
        for (index, thread) in threads.iter().enumerate() {
            match self.read_thread(alloc, round, index + 1, &thread.events)? {
                None => return Ok(None),
                Some(told) => add(&mut answers, told)?,
            }
        }
        Ok(Some(answers))
    }

    /// The answers to the events of all rounds.
    fn read_rounds(
        &mut self,
        alloc: Global,
        rounds: &[Round],
    ) -> Result<Option<Vec<Vec<Vec<Answer>>>>, NoMemory>
        requires few { length self.old.images.now < 2 ^ 32 }
        ensures images { self.new.images.now ≡ self.old.images.now }
        ensures lines { IfOk result (λ read. ReadsLines
            (AllZip (AllZip (AllZip (IsToldAnswer self.old.images.now))) rounds.now)
            (numbered_lines round_lines 1) (pieces 10 self.old.rest.now)
            (option_map (λ rounds.
            map (λ threads. map (λ answers. answers.items) threads.items) rounds.items) read)
            (pieces 10 self.new.rest.now)) }
    {
        let mut answers = Vec::new(alloc);
        for (index, round) in rounds.iter().enumerate() {
            match self.read_round(alloc, index + 1, &round.threads)? {
                None => return Ok(None),
                Some(told) => add(&mut answers, told)?,
            }
        }
        Ok(Some(answers))
    }

    /// The last line, with the number of updates.
    fn read_updates(&mut self) -> Option<u32>
        ensures { ReadsLines (λ updates. updates < 2 ^ 32) (λ updates. updates_line updates ∷ [])
            (pieces 10 self.old.rest.now) result (pieces 10 self.new.rest.now) }
    {
        let Some((line, rest)) = next_line(self.rest) else {
            return None;
        };
        match told_updates(line) {
            None => None,
            Some(updates) => {
                self.rest = rest;
                Some(updates)
            }
        }
    }

    /// A whole journal, after which nothing comes.
    fn read_whole(&mut self, alloc: Global, script: &Script) -> Result<Option<Journal>, NoMemory>
        requires images { self.old.images.now ≡ script.now.images }
        requires few { length self.old.images.now < 2 ^ 32 }
        ensures { IfOk result (λ read. ReadsJournal script.now (pieces 10 self.old.rest.now) read
            (pieces 10 self.new.rest.now)) }
    {
        match self.read_rounds(alloc, &script.rounds)? {
            None => Ok(None),
            Some(rounds) => match self.read_updates() {
                None => Ok(None),
                Some(updates) => {
                    if self.rest.is_empty() {
                        Ok(Some(Journal { rounds, updates }))
                    } else {
                        Ok(None)
                    }
                }
            },
        }
    }
}

/// The number of the line with which what is left of a text begins, counted from 1.
fn line_number(text: &[u8], left: &[u8]) -> u64
    requires { count_by (λ byte. byte == 10) left.now ≤ count_by (λ byte. byte == 10) text.now }
    ensures { result + length (pieces 10 left.now) ≡ length (pieces 10 text.now) + 1 }
{
    (count_feeds(text) - count_feeds(left)) as u64 + 1
}

/// The journal that the text tells, or the first line up to which it begins none.
pub fn read_journal(
    alloc: Global,
    script: &Script,
    text: &[u8],
) -> Result<Result<Journal, FormFault>, NoMemory>
    ensures told { IfOk result (λ read. IfOk read (λ journal.
        TellsJournal script.now text.now journal)) }
    // So it can be printed again.
    ensures printable { IfOk result (λ read. IfOk read (λ journal.
        All (All (All IsPrintable)) journal.rounds)) }
    ensures bad { IfOk result (λ read. IfErr read (λ fault.
        FormFlaw script.now text.now fault.line)) }
{
    let mut reader = JournalReader {
        images: &script.images,
        rest: text,
    };
    match reader.read_whole(alloc, script)? {
        Some(journal) => Ok(Ok(journal)),
        None => {
            let line = line_number(text, reader.rest);
            Ok(Err(FormFault { line }))
        }
    }
}
