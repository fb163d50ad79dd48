//! Laws of the definitions. Each is the contract of a function that does nothing.

ghost use Rattle.std.specs.Prelude.{◌≡◌, ◌≤◌, List, Some, length, map};
ghost use Rattle.std.specs.List.{AllZip};
ghost use Rattle.frame_expr.specs.Regions.{RegionData};
ghost use Rattle.frame_expr.specs.declared.regs.Regs.{Regs};
ghost use Rattle.unwind_step.specs.Backtrace.{TraceData, Unfolds, innermost};
ghost use Rattle.unwind_step.specs.declared.frame.Frame.{Frame};
ghost use Rattle.stack_walk.specs.Modules.{ModuleData};
ghost use Rattle.stack_walk.specs.StackWalks.{WalksStack};
ghost use Rattle.stack_walk.specs.Traces.{TellsSame, end_as};
ghost use Rattle.stack_walk.specs.declared.shown.ShownFrame.{ShownFrame};
ghost use Rattle.stack_walk.specs.declared.shown.WalkEnd.{WalkEnd};
ghost use Rattle.stack_walk.specs.declared.shown.WalkEnd.TheVariants.{Room};

/// A walk from recorded registers is the backtrace from them over the modules' sections.
pub fn walks_unfold()
    ensures { (ms : List ModuleData) (memory : List RegionData) (regs : Regs)
        (shown : List ShownFrame) (end : WalkEnd) (stands : Frame) (trace : TraceData)
        → WalksStack ms memory (innermost regs) shown end stands
        → AllZip (TellsSame ms) shown trace.frames → end_as end ≡ Some trace.end
        → length trace.frames ≤ 256 → (end ≡ Room → length trace.frames ≡ 256)
        → Unfolds (map (λ m. m.section) ms) memory regs trace }
{}
