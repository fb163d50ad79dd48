//! The checker of texts.

ghost use Rattle.std.specs.Prelude.{◌≡◌, ◌↔◌, ℕ, List, IfOk};
ghost use Rattle.script_text.specs.ScriptData.{IsRunnable};
ghost use Rattle.journal_reader.specs.FormFlaw.{TellsJournal};
ghost use Rattle.journal_check.specs.TextFlaws.{IsLawfulText, IsFirstFlaw, IsVerdictOn};
ghost use Rattle.journal_check.specs.declared.verdict.Flaw.{Flaw};

use crate::judging::judge;
use crate::laws::texts_have_one_verdict;
use crate::traces::first_departure;
use crate::verdict::{Flaw, Verdict};
use journal_reader::read_journal;
use reg_model::NoMemory;
use script_text::{Journal, Script};
use std::alloc::Global;

/// Whether the text is that of a lawful journal of the script, and else the first line that is not,
/// by the first flaw that is found anywhere in it.
pub fn check(alloc: Global, script: &Script, text: &[u8]) -> Result<Verdict, NoMemory>
    ensures lawful { IfOk result (λ verdict. (updates : ℕ)
        → (verdict ≡ Verdict.Lawful updates) ↔ IsLawfulText script.now text.now updates) }
    ensures flaw { IfOk result (λ verdict. (line : ℕ) (flaw : Flaw)
        → (verdict ≡ Verdict.Line line flaw) ↔ IsFirstFlaw script.now text.now line flaw) }
{
    // A text has one verdict at the most: `exactly where` rests on this law, which takes no step.
    texts_have_one_verdict();
    know_runnable(script);
    verdict_of(alloc, script, text)
}

/// Every script can be run: its type says so, where a field is read.
fn know_runnable(script: &Script)
    ensures { IsRunnable script.now }
{
    let _nodes = script.nodes;
}

/// The verdict, by what it says of the text.
fn verdict_of(alloc: Global, script: &Script, text: &[u8]) -> Result<Verdict, NoMemory>
    ensures { IfOk result (IsVerdictOn script.now text.now) }
{
    match read_journal(alloc, script, text)? {
        Ok(journal) => verdict_on(alloc, script, &journal),
        Err(fault) => Ok(Verdict::Line {
            line: fault.line,
            flaw: Flaw::Form,
        }),
    }
}

/// The verdict on a journal that a text tells.
fn verdict_on(alloc: Global, script: &Script, journal: &Journal) -> Result<Verdict, NoMemory>
    ensures { IfOk result (λ verdict. (text : List ℕ)
        → TellsJournal script.now text journal.now → IsVerdictOn script.now text verdict) }
{
    if let Some(found) = judge(alloc, script, journal)? {
        return Ok(Verdict::Line {
            line: found.line,
            flaw: Flaw::of_receipts(found.flaw),
        });
    }
    match first_departure(script, journal)? {
        Some(line) => Ok(Verdict::Line {
            line,
            flaw: Flaw::Trace,
        }),
        None => Ok(Verdict::Lawful {
            updates: journal.updates,
        }),
    }
}
