//! Laws of the definitions. Each is the contract of a function that does nothing.

ghost use Rattle.std.specs.Prelude.{◌≡◌, ◌<◌, ◌^◌, ℕ, None, Some, Contains, true, false};
ghost use Rattle.fde_members.specs.Members.{LeadsToFde, is_kept};
ghost use Rattle.frame_parse.specs.Entries.{FdeRecord};
ghost use Rattle.frame_parse.specs.Sections.{SectionData, covers};
ghost use Rattle.reg_model.specs.History.{state_at};
ghost use Rattle.reg_model.specs.Query.{query};
ghost use Rattle.reg_model.specs.State.{State};
ghost use Rattle.reg_model.specs.declared.answer.Half.{Half};
ghost use Rattle.reg_model.specs.declared.answer.Half.TheVariants as half;
ghost use Rattle.reg_model.specs.declared.span.Member.{Member};
ghost use Rattle.word_rule.specs.Callers.{start};
ghost use Rattle.fde_writer.specs.Sections.{FdeWriterData, IsFdeWriter, IsStanding, StandsIn};
ghost use Rattle.fde_writer.specs.Standing.{StandingData};

use fde_members::laws::{found_fdes_are_given, misses_are_misses};

/// What either half finds at an address after the first k updates leads to an FDE of a section that
/// was given, which covers the address.
pub fn hits_are_given()
    ensures { (u : FdeWriterData) (k : ℕ) (half : Half) (pc : ℕ) (m : Member) → IsFdeWriter u
        → u.low < 2 ^ 64 → m.span.first < 2 ^ 64
        → query half pc (state_at (start u.client.words.terms) u.client.me.log.past k) ≡ Some m
        → LeadsToFde u.low u.ever pc m }
{
    found_fdes_are_given();
}

/// Where neither half finds anything at an address, each in a state of its own, no section whose
/// members stood in these has an FDE over the address.
pub fn missed_by_all()
    ensures { (u : FdeWriterData) (x : StandingData) (s t : State) (pc : ℕ) (f : FdeRecord)
        → IsStanding u.low u.ever x → StandsIn half.Registered x s → StandsIn half.Loaded x t
        → query half.Registered pc s ≡ None → query half.Loaded pc t ≡ None
        → Contains x.section.fdes f → is_kept f ≡ true → covers pc f ≡ false }
{
    misses_are_misses();
}
