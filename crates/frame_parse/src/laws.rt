//! What holds along the steps of every program, and of every record by itself.

ghost use Rattle.std.specs.Prelude.{◌≡◌, ◌++◌, List, length, Ok, ℕ};
ghost use Rattle.std.specs.List.{All};
ghost use Rattle.eh_bytes.specs.CursorData.{CursorData};
ghost use Rattle.frame_parse.specs.declared.records.CieRecord.{CieRecord};
ghost use Rattle.frame_parse.specs.Entries.{Record};
ghost use Rattle.frame_parse.specs.Keeping.{CieKept, RecordKept, RecordStands};
ghost use Rattle.frame_parse.specs.Records.{whole_record};
ghost use Rattle.frame_parse.specs.Instructions.{PlacedStep, StepData};
ghost use Rattle.frame_parse.specs.Programs.{PlacedProgramData, HasPlacedSteps};
ghost use Rattle.frame_parse.specs.Sections.{FdeData};
ghost use Rattle.frame_parse.specs.Steps.{ProgramData, HasSteps, left_of_initial};
ghost use Rattle.frame_parse.specs.Steps.{HaveOneCie, HaveOneProgram};
ghost use Rattle.frame_parse.specs.Order.{AreOrdered};

/// Along the steps of a program the locations never fall, and only an `Advance` moves them; in a
/// CIE they stay. At most eight states are remembered at once, and none is restored that wasn't
/// remembered.
pub fn steps_are_ordered()
    ensures lent { (p : ProgramData) (steps : List StepData) → HasSteps p steps
        → AreOrdered p.left steps }
    ensures placed { (p : PlacedProgramData) (steps : List PlacedStep) → HasPlacedSteps p steps
        → AreOrdered p steps }
{}

/// FDEs with one CIE have the same initial instructions, each of them at its own first address.
pub fn initial_instructions_are_the_cies()
    ensures { (f g : FdeData) (steps : List PlacedStep) → HaveOneCie f g
        → HasPlacedSteps (left_of_initial f) steps
        → (others : List PlacedStep) × HasPlacedSteps (left_of_initial g) others
        × HaveOneProgram others steps }
{}

/// What reading a record gives stands where it was read, and begins there.
pub fn records_stand()
    ensures { (section : ℕ) (earlier : List CieRecord) (r : CursorData) (x : Record)
        (behind : CursorData) → (whole_record section earlier).read r ≡ Ok (x, behind)
        → RecordStands section earlier r x behind }
{}

/// A record that stands in a section's bytes, after CIEs that are kept, has its programs there.
pub fn records_are_kept()
    ensures { (section : ℕ) (earlier : List CieRecord) (bytes before front after : List ℕ)
        (r : Record) → bytes ≡ before ++ (front ++ after) → All (CieKept section bytes) earlier
        → (whole_record section earlier).Spells (length before) front r
        → RecordKept section bytes r }
{}
