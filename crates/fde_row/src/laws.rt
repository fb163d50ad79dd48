//! What is read alone is what is read in a section.

ghost use Rattle.std.specs.Prelude.{◌≡◌, ◌++◌, ℕ, List, Ok};
ghost use Rattle.frame_parse.specs.Entries.{FdeRecord};
ghost use Rattle.frame_parse.specs.Sections.{HasFdes};
ghost use Rattle.fde_row.specs.Reading.{lone_fde, AreReadAlone};
ghost use Rattle.fde_row.specs.RowsOfFde.{StaysTheSame};

/// Each FDE of a section is the one that is read at its place by the CIE at that one's place.
pub fn fdes_of_sections_are_read()
    ensures { (section : ℕ) (bytes : List ℕ) (fdes : List FdeRecord) → HasFdes section bytes fdes
        → AreReadAlone section bytes fdes }
{}

/// Bytes behind those that were lent change nothing: so it is enough to lend a section up to the
/// end of the FDE.
pub fn bytes_behind_change_nothing()
    ensures { (section : ℕ) (bytes more : List ℕ) (cie fde : ℕ) (f : FdeRecord)
        → lone_fde section bytes cie fde ≡ Ok f
        → StaysTheSame section bytes (bytes ++ more) cie fde f }
{}
