//! Laws of the definitions. Each is the contract of a function that does nothing.

ghost use Rattle.std.specs.Prelude.{◌≡◌, ℕ, List, None};
ghost use Rattle.frame_expr.specs.Regions.{RegionData, word_at};
ghost use Rattle.frame_parse.specs.Sections.{FdeData};
ghost use Rattle.unwind_step.specs.NextFrame.{IsNextFrame};
ghost use Rattle.unwind_step.specs.declared.next.Stepped.{Stepped};
ghost use Rattle.unwind_step.specs.declared.next.Stepped.TheVariants.{NoBytes};
ghost use Rattle.told_memory.specs.Telling.{IsToldOf, LacksAsMemory};

/// What comes of a frame over the words that were told of a memory comes of it over that memory,
/// but for a word that is lacking and that the memory has.
pub fn told_words_serve()
    ensures { (told memory : List RegionData) (f : FdeData) (look : ℕ) (old : List ℕ)
        (outcome : Stepped) → IsToldOf told memory → LacksAsMemory memory outcome
        → IsNextFrame f look old told outcome → IsNextFrame f look old memory outcome }
{}

/// The word that a step lacks is none that was told.
pub fn asks_anew()
    ensures { (told : List RegionData) (f : FdeData) (look a : ℕ) (old : List ℕ)
        → IsNextFrame f look old told (NoBytes a) → word_at a told ≡ None }
{}
