//! Laws of the definitions. Each is the contract of a function that does nothing.

ghost use Rattle.std.specs.Prelude.{◌≡◌, ◌<◌, ◌^◌, ℕ, List, [], Some, None, All, Contains};
ghost use Rattle.std.specs.Prelude.{true, false};
ghost use Rattle.frame_parse.specs.Entries.{FdeRecord};
ghost use Rattle.frame_parse.specs.Sections.{SectionData, covers, first_cover};
ghost use Rattle.reg_model.specs.History.{state_after, state_at};
ghost use Rattle.reg_model.specs.Query.{member_at, query};
ghost use Rattle.reg_model.specs.State.{State, opening};
ghost use Rattle.reg_model.specs.SpanData.{contains};
ghost use Rattle.reg_model.specs.declared.answer.Half.{Half};
ghost use Rattle.reg_model.specs.declared.answer.Half.TheVariants as half;
ghost use Rattle.reg_model.specs.declared.answer.Update.{Update};
ghost use Rattle.reg_model.specs.declared.span.Member.{Member};
ghost use Rattle.fde_members.specs.Members.{AddsOnly, IsFdeMember, LeadsToFde, ShareNone};
ghost use Rattle.fde_members.specs.Members.{fde_address, fde_member, fde_place};

/// The payload of an FDE's member leads to the FDE.
pub fn payloads_lead()
    ensures { (low address : ℕ) (f : FdeRecord) → low < 2 ^ 64 → f.first < 2 ^ 64
        → fde_address low (fde_member low address f) ≡ fde_place address f }
{}

/// Where all members are of FDEs of these sections, a hit leads to an FDE of one of them that
/// covers the address.
pub fn hits_are_fdes()
    ensures { (low : ℕ) (sections : List SectionData) (members : List Member) (pc : ℕ) (m : Member)
        → low < 2 ^ 64 → m.span.first < 2 ^ 64
        → All (IsFdeMember low sections) members → member_at pc members ≡ Some m
        → LeadsToFde low sections pc m }
{}

/// Where each update adds only members of these sections, so are all that stand after the first k
/// updates, in either half.
pub fn added_members_stay()
    ensures registered { (low : ℕ) (sections : List SectionData) (start : State)
        (history : List Update) (k : ℕ) → All (IsFdeMember low sections) start.registered
        → All (AddsOnly low sections) history
        → All (IsFdeMember low sections) (state_at start history k).registered }
    ensures loaded { (low : ℕ) (sections : List SectionData) (start : State)
        (history : List Update) (k : ℕ) → All (IsFdeMember low sections) start.loaded
        → All (AddsOnly low sections) history
        → All (IsFdeMember low sections) (state_at start history k).loaded }
{}

/// Where the FDEs of a section share no address, one that covers an address is the first that does.
pub fn only_one_covers()
    ensures { (fdes : List FdeRecord) (pc : ℕ) (f : FdeRecord) → ShareNone fdes
        → Contains fdes f → covers pc f ≡ true → first_cover pc fdes ≡ Some f }
{}

/// Where each update of a history from an empty registry adds only members of these sections, what
/// either half finds at an address leads to an FDE of one of them that covers it.
pub fn found_fdes_are_given()
    ensures { (low loads : ℕ) (sections : List SectionData) (history : List Update) (half : Half)
        (pc : ℕ) (m : Member) → low < 2 ^ 64 → m.span.first < 2 ^ 64
        → All (AddsOnly low sections) history
        → query half pc (state_after (opening [] loads) history) ≡ Some m
        → LeadsToFde low sections pc m }
{}

/// Where neither half finds anything at an address, each in a state of its own, no member that
/// stands in its half in that state covers the address.
pub fn misses_are_misses()
    ensures registered { (s : State) (pc : ℕ) (m : Member) → query half.Registered pc s ≡ None
        → Contains s.registered m → contains m.span pc ≡ false }
    ensures loaded { (s : State) (pc : ℕ) (m : Member) → query half.Loaded pc s ≡ None
        → Contains s.loaded m → contains m.span pc ≡ false }
{}
