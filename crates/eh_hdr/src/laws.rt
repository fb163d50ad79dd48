//! What holds of every list of bytes.

ghost use Rattle.std.specs.Prelude.{ℕ, List};
ghost use Rattle.frame_parse.specs.Sections.{SectionData};
ghost use Rattle.eh_hdr.specs.Headers.{HasOneTable};

/// Beside a section each list of bytes has one table or one first refusal, never both.
pub fn headers_have_one_answer()
    ensures { (address : ℕ) (section : SectionData) (bytes : List ℕ)
        → HasOneTable address section bytes }
{}
