//! Laws of the definitions. Each is the contract of a function that does nothing.

ghost use Rattle.std.specs.Prelude.{◌≡◌, ℕ, List};
ghost use Rattle.script_text.specs.JournalData.{JournalData};
ghost use Rattle.script_text.specs.ScriptData.{ScriptData, IsRunnable};
ghost use Rattle.script_text.specs.Lawful.{IsLawfulJournal};
ghost use Rattle.script_text.specs.Text.{journal_text};
ghost use Rattle.journal_reader.specs.FormFlaw.{TellsJournal, FormFlaw};

/// A text tells one journal at the most: two told ones with the same text are one.
pub fn reads_back()
    ensures { (script : ScriptData) (text : List ℕ) (a b : JournalData) → IsRunnable script
        → TellsJournal script text a → TellsJournal script text b → a ≡ b }
{}

/// A text has one first bad line at the most, and none where it tells a journal.
pub fn texts_have_one_answer()
    ensures one_line { (script : ScriptData) (text : List ℕ) (line other : ℕ)
        → FormFlaw script text line → FormFlaw script text other → line ≡ other }
    ensures never_both { (script : ScriptData) (text : List ℕ) (journal : JournalData) (line : ℕ)
        → TellsJournal script text journal → FormFlaw script text line → ⊥ }
{}

/// A lawful journal is told by its text.
pub fn lawful_is_told()
    ensures { (script : ScriptData) (journal : JournalData) → IsRunnable script
        → IsLawfulJournal script journal → TellsJournal script (journal_text journal) journal }
{}
