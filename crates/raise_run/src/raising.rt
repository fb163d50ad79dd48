//! An exception over a snapshot of a script.

ghost use Rattle.std.specs.Prelude.{◌≡◌, Some, IfOk, slice_get};
ghost use Rattle.raise_run.specs.RaiseOutcome.{IsRaise};

use crate::words::RaiseRequest;
use event_script::laws::fixed_images_are_disjoint;
use event_script::{Script, Snapshot, members_of};
use raise_phases::{Raised, raise, steady_answers_change_no_raise};
use reg_model::{NoMemory, PlainRegistry};
use std::alloc::Global;
use std::sync::Wait;
use unwind_step::PlainFinder;
use unwind_step::laws::plain_answers_are_right;

/// Raises an exception over a snapshot of a script. Only the fixed images are asked: the script's
/// rounds aren't run.
pub fn raise_in<R: Wait>(
    rt: &R,
    alloc: Global,
    script: &Script,
    snapshot: &Snapshot,
    request: &RaiseRequest,
) -> Result<Raised, NoMemory>
    requires { slice_get script.now.snapshots request.now.snapshot ≡ Some snapshot.now }
    ensures { IfOk result (λ raised. IsRaise script.now request.now raised) }
{
    // The laws that this rests on; they take no step.
    fixed_images_are_disjoint();
    plain_answers_are_right();
    steady_answers_change_no_raise();
    let fixed = members_of(alloc, &script.images, &script.fixed)?;
    let registry = PlainRegistry::new(alloc, fixed, script.loads);
    let mut finder = PlainFinder::new(&registry, script.images.len() as u32);
    raise(
        rt,
        alloc,
        &mut finder,
        &script.sections,
        &snapshot.regs,
        &snapshot.memory,
        request.kind,
    )
}
