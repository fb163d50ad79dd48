//! From the words of the command line to a status.

ghost use Rattle.std.specs.Prelude.{◌≡◌, ◌≢◌, ◌⊎◌, ℕ, ◌+◌, ◌≤◌, List, [], length, map, Option};
ghost use Rattle.std.specs.Prelude.{IfSome};
ghost use Rattle.std.specs.String.{string_bytes};
ghost use Rattle.script_text.specs.ScriptData.{ScriptData};
ghost use Rattle.script_text.specs.Spelling.{IsScript};
ghost use Rattle.journal_check.specs.TextFlaws.{IsVerdictOn};
ghost use Rattle.journal_check.specs.declared.verdict.Verdict.{Verdict};
ghost use Rattle.run_ports.specs.Endings.{Writes, WritesPart, sink_change};
ghost use Rattle.run_ports.specs.Ports.{Rose, HandsUpTo};
ghost use Rattle.run_ports.specs.declared.status.Ending.{Ending};
ghost use Rattle.check_run.specs.Parts.{script_part, journal_part};
ghost use Rattle.check_run.specs.CheckOutcome.{IsCheckDue, IsDueFor, CheckEnds, CheckEndsFor};
ghost use Rattle.check_run.specs.CheckStatuses.{check_ending_of, verdict_status};

use crate::parts::script_length;
use crate::print::print_verdict;
use crate::status::{CheckStatus, status_of};
use event_script::laws::bytes_have_one_answer;
use event_script::{Script, ScriptFault, print_fault, read};
use journal_check::laws::texts_have_one_verdict;
use journal_check::{Verdict, check};
use run_ports::{Sink, Source, TakeFault, conclude, conclude_made, take_up_to};
use std::alloc::Global;

/// The greatest length of a script and a journal that is taken, in bytes.
pub const CHECK_LIMIT: usize = 67_108_864;

/// Takes a script and, after its `end` line, a journal from the source, and writes to the sink
/// whether the journal is lawful, or the first line that is not.
///
/// Each status but ReadFault has a line that is due with it. Where the line can't be written, the
/// status is WriteFault. Memory may be wanted at any time. A source that failed, or said its end,
/// is not asked again, nor is a sink that failed or wanted memory.
pub fn check_run<S: Source, K: Sink>(
    alloc: Global,
    words: &[String],
    source: &mut S,
    sink: &mut K,
) -> CheckStatus
    requires source { S.can_read source.old }
    requires sink { K.can_write sink.old }

    // The line of the verdict, which is right.
    ensures lawful { result ≡ CheckStatus.Lawful
        → Writes (IsCheckDue (map string_bytes words.now) (S.remaining source.old))
        CheckStatus.Lawful (K.written sink.old) (K.written sink.new) }
    ensures unlawful { result ≡ CheckStatus.Unlawful
        → Writes (IsCheckDue (map string_bytes words.now) (S.remaining source.old))
        CheckStatus.Unlawful (K.written sink.old) (K.written sink.new) }
    ensures usage { result ≡ CheckStatus.Usage
        → Writes (IsCheckDue (map string_bytes words.now) (S.remaining source.old))
        CheckStatus.Usage (K.written sink.old) (K.written sink.new) }
    ensures too_long { result ≡ CheckStatus.TooLong
        → Writes (IsCheckDue (map string_bytes words.now) (S.remaining source.old))
        CheckStatus.TooLong (K.written sink.old) (K.written sink.new) }
    ensures script { result ≡ CheckStatus.Script
        → Writes (IsCheckDue (map string_bytes words.now) (S.remaining source.old))
        CheckStatus.Script (K.written sink.old) (K.written sink.new) }

    // What is taken of the source: nothing where there are words, and else one byte more than the
    // limit at the most.
    ensures unread { map string_bytes words.now ≢ [] → source.new ≡ source.old }
    ensures taken { HandsUpTo (CHECK_LIMIT + 1) (S.remaining source.old) (S.remaining source.new) }

    // Faults come exactly where a count rose in this call, and leave nothing, or a front of what
    // was due.
    ensures reads { result ≢ CheckStatus.ReadFault → S.faults source.new ≡ S.faults source.old }
    ensures writes { result ≢ CheckStatus.WriteFault → K.faults sink.new ≡ K.faults sink.old }
    ensures read_fault { result ≡ CheckStatus.ReadFault
        → (map string_bytes words.now ≡ [])
        × Rose (S.faults source.old) (S.faults source.new)
        × (K.written sink.new ≡ K.written sink.old) }
    ensures write_fault { result ≡ CheckStatus.WriteFault
        → Rose (K.faults sink.old) (K.faults sink.new)
        × WritesPart (IsCheckDue (map string_bytes words.now) (S.remaining source.old))
        (K.written sink.old) (K.written sink.new) }
    ensures no_memory { result ≡ CheckStatus.NoMemory
        → WritesPart (IsCheckDue (map string_bytes words.now) (S.remaining source.old))
        (K.written sink.old) (K.written sink.new) }

    // What begins with a script, and can be read and written, is judged, unless memory is wanted;
    // and the status is that of the verdict that is right.
    ensures complete { map string_bytes words.now ≡ [] → IfSome (S.remaining source.old)
        (λ bytes. length bytes ≤ CHECK_LIMIT → (script : ScriptData)
        → IsScript (script_part bytes) script
        → ¬ Rose (S.faults source.old) (S.faults source.new)
        → ¬ Rose (K.faults sink.old) (K.faults sink.new)
        → (result ≡ CheckStatus.Lawful)
        ⊎ ((result ≡ CheckStatus.Unlawful) ⊎ (result ≡ CheckStatus.NoMemory))) }
    ensures exact { map string_bytes words.now ≡ [] → IfSome (S.remaining source.old)
        (λ bytes. length bytes ≤ CHECK_LIMIT → (script : ScriptData)
        → IsScript (script_part bytes) script
        → ¬ Rose (S.faults source.old) (S.faults source.new)
        → ¬ Rose (K.faults sink.old) (K.faults sink.new)
        → (verdict : Verdict) → IsVerdictOn script (journal_part bytes) verdict
        → (result ≡ verdict_status verdict) ⊎ (result ≡ CheckStatus.NoMemory)) }
{
    // Bytes spell one script, and a text has one verdict: `complete` and `exact` rest on these
    // laws, which take no step.
    bytes_have_one_answer();
    texts_have_one_verdict();
    end_of(alloc, words, source, sink)
}

/// The check, with one clause for how it ends.
fn end_of<S: Source, K: Sink>(
    alloc: Global,
    words: &[String],
    source: &mut S,
    sink: &mut K,
) -> CheckStatus
    requires source { S.can_read source.old }
    requires sink { K.can_write sink.old }
    ensures unread { map string_bytes words.now ≢ [] → source.new ≡ source.old }
    ensures taken { HandsUpTo (CHECK_LIMIT + 1) (S.remaining source.old) (S.remaining source.new) }
    ensures reads { result ≢ CheckStatus.ReadFault → S.faults source.new ≡ S.faults source.old }
    ensures writes { check_ending_of result ≢ Ending.WriteFault
        → K.faults sink.new ≡ K.faults sink.old }
    ensures ends { CheckEnds (map string_bytes words.now) (S.remaining source.old)
        (sink_change K.faults K.written sink.old sink.new
        (S.faults source.old) (S.faults source.new)) result }
{
    if words.is_empty() {
        check_source(alloc, source, sink)
    } else {
        conclude(sink, b"usage: check_main\n", CheckStatus::Usage)
    }
}

/// Takes the input, and checks it.
fn check_source<S: Source, K: Sink>(alloc: Global, source: &mut S, sink: &mut K) -> CheckStatus
    requires source { S.can_read source.old }
    requires sink { K.can_write sink.old }
    ensures taken { HandsUpTo (CHECK_LIMIT + 1) (S.remaining source.old) (S.remaining source.new) }
    ensures reads { result ≢ CheckStatus.ReadFault → S.faults source.new ≡ S.faults source.old }
    ensures writes { check_ending_of result ≢ Ending.WriteFault
        → K.faults sink.new ≡ K.faults sink.old }
    ensures ends { CheckEndsFor (S.remaining source.old)
        (sink_change K.faults K.written sink.old sink.new
        (S.faults source.old) (S.faults source.new)) result }
{
    match take_up_to(alloc, source, CHECK_LIMIT) {
        Ok(bytes) if bytes.len() > CHECK_LIMIT => {
            conclude(sink, b"input too long\n", CheckStatus::TooLong)
        }
        Ok(bytes) => check_input(alloc, &bytes, sink),
        Err(TakeFault::Failed) => CheckStatus::ReadFault,
        Err(TakeFault::NoMemory) => CheckStatus::NoMemory,
    }
}

/// Checks what was taken.
fn check_input<K: Sink>(alloc: Global, bytes: &[u8], sink: &mut K) -> CheckStatus
    requires short { length bytes.now ≤ CHECK_LIMIT }
    requires sink { K.can_write sink.old }
    ensures writes { check_ending_of result ≢ Ending.WriteFault
        → K.faults sink.new ≡ K.faults sink.old }
    ensures ends { (input : Option (List ℕ)) (reads reads_after : ℕ)
        → IfSome input (λ had. had ≡ bytes.now)
        → CheckEndsFor input
        (sink_change K.faults K.written sink.old sink.new reads reads_after) result }
{
    let (script, journal) = bytes.split_at(script_length(bytes));
    match read(alloc, script) {
        Ok(script) => check_text(alloc, &script, journal, sink),
        Err(ScriptFault::Bad { line, reason }) => {
            conclude_made(sink, print_fault(alloc, line, reason), CheckStatus::Script)
        }
        Err(ScriptFault::NoMemory) => CheckStatus::NoMemory,
    }
}

/// Checks the text that follows a script.
fn check_text<K: Sink>(alloc: Global, script: &Script, text: &[u8], sink: &mut K) -> CheckStatus
    requires { K.can_write sink.old }
    ensures writes { check_ending_of result ≢ Ending.WriteFault
        → K.faults sink.new ≡ K.faults sink.old }
    ensures ends { (input : Option (List ℕ)) (reads reads_after : ℕ)
        → IfSome input (λ bytes.
        (length bytes ≤ CHECK_LIMIT) × IsScript (script_part bytes) script.now)
        → IfSome input (λ bytes. journal_part bytes ≡ text.now)
        → CheckEndsFor input
        (sink_change K.faults K.written sink.old sink.new reads reads_after) result }
{
    match check(alloc, script, text) {
        Ok(verdict) => conclude_made(sink, print_verdict(alloc, verdict), status_of(verdict)),
        Err(_) => CheckStatus::NoMemory,
    }
}
