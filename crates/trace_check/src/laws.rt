//! What holds of every trace.

ghost use Rattle.std.specs.Prelude.{List, All};
ghost use Rattle.frame_expr.specs.declared.regs.Regs.{Regs};
ghost use Rattle.frame_expr.specs.Regions.{RegionData};
ghost use Rattle.frame_parse.specs.Sections.{SectionData};
ghost use Rattle.unwind_step.specs.Backtrace.{TraceData, Unfolds};
ghost use Rattle.trace_check.specs.Departures.{DepartsOnce};
ghost use Rattle.trace_check.specs.Words.{AreWords, HoldBytes, HasWords};
ghost use Rattle.hex.specs.Hex.{IsBytes};

/// A trace that unfolds has no departure, and no trace has two. That each one unfolds or has one is
/// a clause of `departure`.
pub fn traces_depart_once()
    ensures { (sections : List SectionData) (memory : List RegionData) (regs : Regs)
        (trace : TraceData) → DepartsOnce sections memory regs trace }
{}

/// Each number that a trace shows has 64 bits, where the sections and the memory hold bytes and the
/// recorded registers are such numbers: a register is one of these, was read as eight bytes, or was
/// worked out modulo 2^64.
pub fn traces_have_words()
    ensures { (sections : List SectionData) (memory : List RegionData) (regs : Regs)
        (trace : TraceData) → All (λ s. IsBytes s.bytes) sections → HoldBytes memory
        → AreWords regs.columns → Unfolds sections memory regs trace → HasWords trace }
{}
