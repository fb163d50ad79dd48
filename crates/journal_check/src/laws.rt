//! Laws of the definitions. Each is the contract of a function that does nothing.

ghost use Rattle.std.specs.Prelude.{◌≡◌, ℕ, ◌+◌, ◌↔◌, List, length, All};
ghost use Rattle.std.specs.List.{AllZip};
ghost use Rattle.reg_model.specs.SpanData.{SpanData};
ghost use Rattle.script_text.specs.Fields.{pieces};
ghost use Rattle.script_text.specs.Text.{answer_lines, journal_text};
ghost use Rattle.script_text.specs.declared.journal.Answer.{Answer};
ghost use Rattle.script_text.specs.ScriptData.{ScriptData, IsRunnable};
ghost use Rattle.script_text.specs.JournalData.{JournalData};
ghost use Rattle.script_text.specs.Lawful.{thread_receipts, in_one, AreInRounds};
ghost use Rattle.script_text.specs.Lawful.{IsLawfulJournal, AnswersEvent, IsUnfolded};
ghost use Rattle.receipt_check.specs.Flaws.{AccountData, told_receipts, IsFreeOf, IsFlawless};
ghost use Rattle.receipt_check.specs.Flaws.{CountsFirst};
ghost use Rattle.receipt_check.specs.declared.account.ReceiptFlaw.{ReceiptFlaw};
ghost use Rattle.receipt_check.specs.declared.account.ReceiptFlaw.TheVariants as flaw;
ghost use Rattle.journal_check.specs.Telling.{account_of, receipt_lines};
ghost use Rattle.journal_check.specs.TextFlaws.{IsVerdictOn};
ghost use Rattle.journal_check.specs.declared.verdict.Verdict.{Verdict};

/// Of what is told, one flaw at the most counts first, on one line, and none where nothing is
/// wrong.
pub fn one_verdict()
    ensures one { (a : AccountData) (line other : ℕ) (which another : ReceiptFlaw)
        → CountsFirst a line which → CountsFirst a other another
        → (line ≡ other) × (which ≡ another) }
    ensures none { (a : AccountData) (line : ℕ) (which : ReceiptFlaw)
        → IsFlawless a → CountsFirst a line which → ⊥ }
{}

/// A journal's receipts are told, each once and in order.
pub fn all_receipts_are_told()
    ensures { (script : ScriptData) (journal : JournalData)
        → told_receipts (account_of script journal).told
        ≡ in_one (thread_receipts script.images journal) }
{}

/// Each event is told on as many lines as its text has, and the last line is the text's: after it
/// comes nothing.
pub fn told_lines_are_those_of_the_text()
    ensures each { (images : List SpanData) (answer : Answer)
        → length (receipt_lines images answer) ≡ length (answer_lines answer) }
    ensures last { (script : ScriptData) (journal : JournalData)
        → (account_of script journal).last + 1 ≡ length (pieces 10 (journal_text journal)) }
{}

/// No stamp or number is against its round exactly where all lie between the updates of the rounds
/// before and those with their own.
pub fn rounds_are_judged()
    ensures { (script : ScriptData) (journal : JournalData)
        → (IsFreeOf (account_of script journal) flaw.Round
        ↔ AreInRounds 0 (thread_receipts script.images journal)) }
{}

/// Nothing is wrong with what a lawful journal tells: so the judge finds no flaw in it.
pub fn lawful_journals_are_flawless()
    ensures { (script : ScriptData) (journal : JournalData)
        → IsLawfulJournal script journal → IsFlawless (account_of script journal) }
{}

/// A journal whose answers are of the events' kinds, and whose backtraces unfold, is lawful where
/// nothing is wrong with what it tells.
pub fn flawless_journals_are_lawful()
    ensures { (script : ScriptData) (journal : JournalData)
        → AllZip (AllZip (AllZip AnswersEvent)) script.rounds journal.rounds
        → All (All (All (IsUnfolded script.sections script.snapshots))) journal.rounds
        → IsFlawless (account_of script journal) → IsLawfulJournal script journal }
{}

/// A text has one verdict at the most. That each one has a verdict is what `check` shows.
pub fn texts_have_one_verdict()
    ensures { (script : ScriptData) (text : List ℕ) (one other : Verdict) → IsRunnable script
        → IsVerdictOn script text one → IsVerdictOn script text other → one ≡ other }
{}
