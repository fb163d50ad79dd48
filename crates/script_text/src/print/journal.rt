//! The text of a journal.

ghost use Rattle.std.specs.Prelude.{◌≡◌, ◌+◌, ◌<◌, ◌≤◌, [], ◌++◌, length};
ghost use Rattle.std.specs.Prelude.{slice_index_or, IfOk, OnOk, All, codes, decimal};
ghost use Rattle.std.specs.String.{string_bytes};
ghost use Rattle.script_text.specs.Digits.{hex};
ghost use Rattle.script_text.specs.Text.{IsPrintable, overlap_text, inserted_text, loading_text};
ghost use Rattle.script_text.specs.Text.{removed_text, replaced_text, found_text, place_text};
ghost use Rattle.script_text.specs.Text.{frame_text, frame_line, end_text, end_line};
ghost use Rattle.script_text.specs.Text.{trace_lines};
ghost use Rattle.script_text.specs.Text.{answer_line, answer_lines, event_line, addresses_text};
ghost use Rattle.script_text.specs.Text.{event_number};
ghost use Rattle.script_text.specs.Text.{answer_text, numbered, thread_text, updates_text};
ghost use Rattle.script_text.specs.Text.{journal_text};

use crate::journal::{Answer, Journal};
use crate::print::line::LineEnd;
use crate::print::numbers::put_decimal_after;
use reg_model::{Found, Inserted, Loading, Member, NoMemory, Place, Removed, Replaced};
use std::alloc::{AllocError, Global};
use unwind_step::{End, FrameLine, Trace};

/// The round, the thread and the event, each counted from 1.
#[derive(Clone, Copy, Debug, PartialEq, Eq)]
pub struct EventNumber {
    pub round: usize,
    pub thread: usize,
    pub event: usize,
}

/// The lines of one event, numbered from 1 in its round and thread.
pub fn print_answer(
    alloc: Global,
    round: u32,
    thread: u32,
    event: u32,
    answer: &Answer,
) -> Result<Vec<u8>, NoMemory>
    requires { IsPrintable answer.now }
    ensures text { IfOk result (λ text. text.items ≡ answer_text round thread event answer.now) }
{
    let number = EventNumber {
        round: round as usize,
        thread: thread as usize,
        event: event as usize,
    };
    let mut text = String::new(alloc);
    put_event(&mut text, number, answer)?;
    Ok(text.into_bytes())
}

/// How many lines an event has: one, and of a backtrace one more for each frame and for its end.
pub fn line_count(answer: &Answer) -> usize
    ensures { result ≡ length (answer_lines answer.now) }
{
    match answer {
        Answer::Unwind { trace, .. } => trace.frames.len() + 2,
        _ => 1,
    }
}

/// Adds a line of an event, which are counted from 0, after the event's number.
pub fn put_event_line(
    text: &mut String,
    number: EventNumber,
    answer: &Answer,
    line: usize,
) -> Result<(), NoMemory>
    requires printable { IsPrintable answer.now }
    requires line { line < length (answer_lines answer.now) }
    ensures text { OnOk result (string_bytes text.new ≡ string_bytes text.old
        ++ event_line number.round number.thread number.event
        (slice_index_or (answer_lines answer.now) line [])) }
{
    let mut end = LineEnd::new();
    spell_event_line(&mut end, number, answer, line);
    text.push_str(end.as_str())?;
    Ok(())
}

/// Spells a line of an event, which are counted from 0, after the event's number. What stood in the
/// room before is gone.
#[inline(always)]
pub fn spell_event_line(end: &mut LineEnd, number: EventNumber, answer: &Answer, line: usize)
    requires line { line < length (answer_lines answer.now) }
    ensures text { end.new ≡ event_line number.round number.thread number.event
        (slice_index_or (answer_lines answer.now) line []) }
{
    end.clear();
    end.prepend("\n");
    prepend_line(end, answer, line);
    prepend_number(end, number);
}

/// Puts an event's number and a space before a line's end.
pub fn prepend_number(end: &mut LineEnd, number: EventNumber)
    requires { 63 + length end.old ≤ 272 }
    ensures { end.new ≡ (event_number number.round number.thread number.event ++ codes " ")
        ++ end.old }
{
    end.prepend(" ");
    end.prepend_decimal(number.event);
    end.prepend(".");
    end.prepend_decimal(number.thread);
    end.prepend(".");
    end.prepend_decimal(number.round);
}

/// Puts what a line of an event says after its number before a line's end.
fn prepend_line(end: &mut LineEnd, answer: &Answer, line: usize)
    requires line { line < length (answer_lines answer.now) }
    requires room { 196 + length end.old ≤ 272 }
    ensures text { end.new ≡ slice_index_or (answer_lines answer.now) line [] ++ end.old }
    ensures short { length end.new ≤ 196 + length end.old }
{
    if line == 0 {
        return prepend_answer(end, answer);
    }
    match answer {
        Answer::Unwind { trace, .. } => prepend_trace_line(end, trace, line - 1),
        _ => {}
    }
}

/// Puts a line of a backtrace, after the first one, before a line's end.
fn prepend_trace_line(end: &mut LineEnd, trace: &Trace, line: usize)
    requires line { line < length (trace_lines trace.now) }
    requires room { 196 + length end.old ≤ 272 }
    ensures text { end.new ≡ slice_index_or (trace_lines trace.now) line [] ++ end.old }
    ensures short { length end.new ≤ 196 + length end.old }
{
    if line < trace.frames.len() {
        prepend_frame(end, line, &trace.frames[line])
    } else {
        prepend_end_line(end, trace.end)
    }
}

/// Puts what is told of a frame of a backtrace before a line's end.
fn prepend_frame(end: &mut LineEnd, number: usize, line: &FrameLine)
    requires { 196 + length end.old ≤ 272 }
    ensures text { end.new ≡ frame_line number line.now ++ end.old }
    ensures short { length end.new ≤ 196 + length end.old }
{
    prepend_frame_rest(end, number, line);
    end.prepend("frame ");
}

/// Puts the number of a frame, its addresses, and where it was found before a line's end.
fn prepend_frame_rest(end: &mut LineEnd, number: usize, line: &FrameLine)
    requires { 190 + length end.old ≤ 272 }
    ensures text { end.new
        ≡ (decimal number ++ addresses_text line.now ++ place_text line.now.place) ++ end.old }
    ensures short { length end.new ≤ 190 + length end.old }
{
    prepend_place(end, &line.place);
    prepend_addresses(end, line);
    end.prepend_decimal(number);
}

/// Puts the addresses of a frame, with a space before and behind, before a line's end.
fn prepend_addresses(end: &mut LineEnd, line: &FrameLine)
    requires { 63 + length end.old ≤ 272 }
    ensures text { end.new ≡ addresses_text line.now ++ end.old }
    ensures short { length end.new ≤ 63 + length end.old }
{
    end.prepend(" ");
    end.prepend_hex(line.look);
    end.prepend(" look ");
    end.prepend_hex(line.sp);
    end.prepend(" sp ");
    end.prepend_hex(line.pc);
    end.prepend(" pc ");
}

/// Adds what is told of a frame under a word: its number, its addresses, and where it was found.
pub fn put_frame(
    text: &mut String,
    word: &str,
    number: usize,
    line: &FrameLine,
) -> Result<(), AllocError>
    ensures { OnOk result (string_bytes text.new
        ≡ string_bytes text.old ++ frame_text word.now number line.now) }
{
    let mut end = LineEnd::new();
    prepend_frame_rest(&mut end, number, line);
    end.prepend(" ");
    text.push_str(word)?;
    text.push_str(end.as_str())
}

/// Puts the line that says why there are no more frames before a line's end.
fn prepend_end_line(end: &mut LineEnd, why: End)
    requires { 28 + length end.old ≤ 272 }
    ensures text { end.new ≡ end_line why ++ end.old }
    ensures short { length end.new ≤ 28 + length end.old }
{
    prepend_end(end, why);
    end.prepend("end ");
}

/// Puts the word for why there are no more frames before a line's end.
fn prepend_end(end: &mut LineEnd, why: End)
    requires { 24 + length end.old ≤ 272 }
    ensures text { end.new ≡ end_text why ++ end.old }
    ensures short { length end.new ≤ 24 + length end.old }
{
    match why {
        End::NoObject => end.prepend("noobject"),
        End::NoFde => end.prepend("nofde"),
        End::NoRow => end.prepend("norow"),
        End::Undefined => end.prepend("undefined"),
        End::NoBytes { address } => prepend_address(end, "nobytes ", address),
        End::Long => end.prepend("long"),
    }
}

/// Adds the word for why there are no more frames.
pub fn put_end(text: &mut String, end: End) -> Result<(), AllocError>
    ensures { OnOk result (string_bytes text.new ≡ string_bytes text.old ++ end_text end) }
{
    let mut line = LineEnd::new();
    prepend_end(&mut line, end);
    text.push_str(line.as_str())
}

/// Puts a word and an address before a line's end.
#[inline(always)]
pub fn prepend_address(end: &mut LineEnd, word: &str, address: u64)
    requires { length word.now + 16 + length end.old ≤ 272 }
    ensures text { end.new ≡ (word.now ++ hex address) ++ end.old }
    ensures short { length end.new ≤ length word.now + 16 + length end.old }
{
    end.prepend_hex(address);
    end.prepend(word);
}

/// Puts a word and a number before a line's end.
#[inline(always)]
pub fn prepend_number_after(end: &mut LineEnd, word: &str, number: u32)
    requires { length word.now + 20 + length end.old ≤ 272 }
    ensures text { end.new ≡ (word.now ++ decimal number) ++ end.old }
    ensures short { length end.new ≤ length word.now + 20 + length end.old }
{
    end.prepend_decimal(number as usize);
    end.prepend(word);
}

/// Puts what the first line of an event says after its number before a line's end.
fn prepend_answer(end: &mut LineEnd, answer: &Answer)
    requires { 130 + length end.old ≤ 272 }
    ensures text { end.new ≡ answer_line answer.now ++ end.old }
    ensures short { length end.new ≤ 130 + length end.old }
{
    match answer {
        Answer::Register { image, answer } => {
            prepend_inserted(end, answer);
            end.prepend(" ");
            prepend_number_after(end, "register ", *image);
        }
        Answer::Deregister { base, answer } => {
            prepend_removed(end, answer);
            end.prepend(" ");
            prepend_address(end, "deregister ", *base);
        }
        Answer::Replace { image, answer } => {
            prepend_replaced(end, answer);
            end.prepend(" ");
            prepend_number_after(end, "replace ", *image);
        }
        Answer::Load { image, answer } => {
            prepend_loading(end, answer);
            end.prepend(" ");
            prepend_number_after(end, "load ", *image);
        }
        Answer::Unload { base, answer } => {
            prepend_removed(end, answer);
            end.prepend(" ");
            prepend_address(end, "unload ", *base);
        }
        Answer::Find { pc, place } => {
            prepend_place(end, place);
            end.prepend(" ");
            prepend_address(end, "find ", *pc);
        }
        Answer::Unwind { snapshot, .. } => prepend_number_after(end, "unwind ", *snapshot),
    }
}

/// Puts the answer to a registration before a line's end.
fn prepend_inserted(end: &mut LineEnd, answer: &Inserted)
    requires { 69 + length end.old ≤ 272 }
    ensures text { end.new ≡ inserted_text answer.now ++ end.old }
    ensures short { length end.new ≤ 69 + length end.old }
{
    match answer {
        Inserted::Done { number } => prepend_number_after(end, "done ", *number),
        Inserted::Overlap { member, stamp } => prepend_overlap(end, member, *stamp),
        Inserted::Full { stamp } => prepend_number_after(end, "full at ", *stamp),
        Inserted::Spent => {}
    }
}

/// Puts the answer to a load before a line's end.
fn prepend_loading(end: &mut LineEnd, answer: &Loading)
    requires { 69 + length end.old ≤ 272 }
    ensures text { end.new ≡ loading_text answer.now ++ end.old }
    ensures short { length end.new ≤ 69 + length end.old }
{
    match answer {
        Loading::Done { number } => prepend_number_after(end, "done ", *number),
        Loading::Overlap { member, stamp } => prepend_overlap(end, member, *stamp),
        Loading::LoadFull { stamp } => prepend_number_after(end, "full at ", *stamp),
        Loading::Spent => {}
    }
}

/// Puts which member overlaps, and the stamp, before a line's end.
fn prepend_overlap(end: &mut LineEnd, member: &Member, stamp: u32)
    requires { 69 + length end.old ≤ 272 }
    ensures text { end.new ≡ overlap_text member.now stamp ++ end.old }
    ensures short { length end.new ≤ 69 + length end.old }
{
    prepend_number_after(end, " at ", stamp);
    prepend_number_after(end, " ", member.payload);
    prepend_address(end, "overlap ", member.span.first());
}

/// Puts the answer to a removal before a line's end.
fn prepend_removed(end: &mut LineEnd, answer: &Removed)
    requires { 52 + length end.old ≤ 272 }
    ensures text { end.new ≡ removed_text answer.now ++ end.old }
    ensures short { length end.new ≤ 52 + length end.old }
{
    match answer {
        Removed::Done { number, member } => {
            prepend_number_after(end, " image ", member.payload);
            prepend_number_after(end, "done ", *number);
        }
        Removed::NotFound { stamp } => prepend_number_after(end, "absent at ", *stamp),
        Removed::Spent => {}
    }
}

/// Puts the answer to a replacement, with the image that was there before, before a line's end.
fn prepend_replaced(end: &mut LineEnd, answer: &Replaced)
    requires { 52 + length end.old ≤ 272 }
    ensures text { end.new ≡ replaced_text answer.now ++ end.old }
    ensures short { length end.new ≤ 52 + length end.old }
{
    match answer {
        Replaced::Done { number, payload } => {
            prepend_number_after(end, " image ", *payload);
            prepend_number_after(end, "done ", *number);
        }
        Replaced::NotFound { stamp } => prepend_number_after(end, "absent at ", *stamp),
        Replaced::Spent => {}
    }
}

/// Puts where an address was found before a line's end.
fn prepend_place(end: &mut LineEnd, place: &Place)
    requires { 107 + length end.old ≤ 272 }
    ensures text { end.new ≡ place_text place.now ++ end.old }
    ensures short { length end.new ≤ 107 + length end.old }
{
    match &place.loaded {
        None => {}
        Some(loaded) => {
            prepend_found(end, loaded);
            end.prepend(" loaded ");
        }
    }
    prepend_found(end, &place.registered);
    end.prepend("registered ");
}

/// Puts an image, or none, and the stamp before a line's end.
fn prepend_found(end: &mut LineEnd, found: &Found)
    requires { 44 + length end.old ≤ 272 }
    ensures text { end.new ≡ found_text found.now ++ end.old }
    ensures short { length end.new ≤ 44 + length end.old }
{
    match found {
        Found::Hit { member, stamp } => {
            prepend_number_after(end, " at ", *stamp);
            end.prepend_decimal(member.payload as usize);
        }
        Found::Miss { stamp } => prepend_number_after(end, "none at ", *stamp),
    }
}

/// The last line of a journal, with the number of its updates.
pub fn print_updates(alloc: Global, updates: u32) -> Result<Vec<u8>, NoMemory>
    ensures text { IfOk result (λ text. text.items ≡ updates_text updates) }
{
    let mut text = String::new(alloc);
    put_updates(&mut text, updates)?;
    Ok(text.into_bytes())
}

/// Adds the last line of a journal.
fn put_updates(text: &mut String, updates: u32) -> Result<(), AllocError>
    ensures { OnOk result (string_bytes text.new
        ≡ string_bytes text.old ++ updates_text updates) }
{
    put_decimal_after(text, "updates ", updates as usize)?;
    text.push_str("\n")
}

/// The whole text of a journal.
pub fn print_journal(alloc: Global, journal: &Journal) -> Result<Vec<u8>, NoMemory>
    requires { All (All (All IsPrintable)) journal.now.rounds }
    ensures text { IfOk result (λ text. text.items ≡ journal_text journal.now) }
{
    let mut text = String::new(alloc);
    put_rounds(&mut text, &journal.rounds)?;
    put_updates(&mut text, journal.updates)?;
    Ok(text.into_bytes())
}

/// Adds the lines of one event.
fn put_event(text: &mut String, number: EventNumber, answer: &Answer) -> Result<(), NoMemory>
    requires { IsPrintable answer.now }
    ensures { OnOk result (string_bytes text.new ≡ string_bytes text.old
        ++ answer_text number.round number.thread number.event answer.now) }
{
    for line in 0..line_count(answer) {
        put_event_line(text, number, answer, line)?;
    }
    Ok(())
}

/// Adds the answers of a thread.
fn put_thread(
    text: &mut String,
    round: usize,
    thread: usize,
    answers: &[Answer],
) -> Result<(), NoMemory>
    requires { All IsPrintable answers.now }
    ensures { OnOk result (string_bytes text.new
        ≡ string_bytes text.old ++ thread_text round thread answers.now) }
{
    for (index, answer) in answers.iter().enumerate() {
        let number = EventNumber {
            round,
            thread,
            event: index + 1,
        };
        put_event(text, number, answer)?;
    }
    Ok(())
}

/// Adds the answers of a round.
fn put_round(text: &mut String, round: usize, threads: &[Vec<Answer>]) -> Result<(), NoMemory>
    requires { All (λ answers. All IsPrintable answers.items) threads.now }
    ensures { OnOk result (string_bytes text.new ≡ string_bytes text.old ++ numbered
        (λ thread answers. thread_text round thread answers.items) 1 threads.now) }
{
    for (index, answers) in threads.iter().enumerate() {
        put_thread(text, round, index + 1, answers)?;
    }
    Ok(())
}

/// Adds the answers of all rounds.
fn put_rounds(text: &mut String, rounds: &[Vec<Vec<Answer>>]) -> Result<(), NoMemory>
    requires { All (λ threads. All
        (λ answers. All IsPrintable answers.items) threads.items) rounds.now }
    ensures { OnOk result (string_bytes text.new ≡ string_bytes text.old ++ numbered
        (λ round threads. numbered
        (λ thread answers. thread_text round thread answers.items) 1 threads.items) 1
        rounds.now) }
{
    for (index, threads) in rounds.iter().enumerate() {
        put_round(text, index + 1, threads)?;
    }
    Ok(())
}
