//! Laws of the definitions. Each is the contract of a function that does nothing.

ghost use Rattle.std.specs.Prelude.{◌≡◌, ◌≢◌, ℕ, ◌-◌, List, take};
ghost use Rattle.reg_model.specs.State.{AreDisjoint};
ghost use Rattle.script_text.specs.ScriptData.{ScriptData, IsRunnable};
ghost use Rattle.script_text.specs.Lawful.{fixed_members};
ghost use Rattle.script_text.specs.Spelling.{IsScript, script_text};
ghost use Rattle.script_text.specs.Fields.{pieces};
ghost use Rattle.event_script.specs.Refusal.{IsFirstBad, BeginsScript, HasOneReading};
ghost use Rattle.script_text.specs.declared.reason.Reason.{Reason};
ghost use Rattle.script_text.specs.declared.reason.Reason.TheVariants as reason;

/// Bytes spell one script at the most.
pub fn bytes_spell_one_script()
    ensures { (bytes : List ℕ) (s t : ScriptData) → IsScript bytes s → IsScript bytes t → s ≡ t }
{}

/// Bytes spell one script, or have one first bad line with one reason, and never both.
pub fn bytes_have_one_answer()
    ensures { (bytes : List ℕ) → HasOneReading bytes }
{}

/// The lines before a first bad one begin some script's text.
pub fn good_lines_begin_a_script()
    ensures { (bytes : List ℕ) (number : ℕ) (why : Reason) → IsFirstBad bytes number why
        → BeginsScript (take (number - 1) (pieces 10 bytes)) }
{}

/// No script's text begins with the lines up to a first bad one. Where the text ends too early,
/// what is there may begin one.
pub fn no_script_begins_with_a_bad_line()
    ensures { (bytes : List ℕ) (number : ℕ) (why : Reason) → IsFirstBad bytes number why
        → why ≢ reason.Missing → why ≢ reason.Unended
        → BeginsScript (take number (pieces 10 bytes)) → ⊥ }
{}

/// Where bytes spell a script, its text is these bytes, and it is spelled by its text: so what was
/// read prints back, and what was printed is read again.
pub fn scripts_print_back()
    ensures printed { (bytes : List ℕ) (s : ScriptData) → IsScript bytes s → script_text s ≡ bytes }
    ensures read_again { (bytes : List ℕ) (s : ScriptData) → IsScript bytes s
        → IsScript (script_text s) s }
{}

/// No two fixed images of a script overlap: so a registry can open with them.
pub fn fixed_images_are_disjoint()
    ensures { (s : ScriptData) → IsRunnable s → AreDisjoint (fixed_members s) }
{}
