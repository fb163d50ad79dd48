//! The depth of the stack between operations.

ghost use Rattle.std.specs.Prelude.{◌≡◌, ◌≤◌, Some, None, if◌then◌else◌};
ghost use Rattle.frame_expr.specs.Depth.{fits, depth_after, is_pick};

use crate::operation::Operation;

/// The depth after an operation, where it finds its entries and leaves 32 at most.
pub(crate) fn depth_after(depth: u32, operation: &Operation) -> Option<u32>
    requires { depth ≤ 32 }
    ensures { result ≡ (if fits depth operation.now
        then Some (depth_after depth operation.now) else None) }
{
    let (needs, leaves) = match operation {
        Operation::Nop => (0, 0),
        Operation::Constant { .. } | Operation::Breg { .. } => (0, 1),
        Operation::Drop => (1, 0),
        Operation::Deref | Operation::Unary { .. } | Operation::PlusUconst { .. } => (1, 1),
        Operation::Dup => (1, 2),
        Operation::Binary { .. } | Operation::Compare { .. } => (2, 1),
        Operation::Swap => (2, 2),
        Operation::Over => (2, 3),
        Operation::Rot => (3, 3),
        Operation::Pick { index } => {
            if *index >= depth as u64 {
                return None;
            }
            (*index as u32 + 1, *index as u32 + 2)
        }
    };
    if needs <= depth && depth - needs + leaves <= 32 {
        Some(depth - needs + leaves)
    } else {
        None
    }
}

/// Whether what an operation needs depends on its operand.
pub(crate) fn is_pick(operation: &Operation) -> bool
    ensures { result ≡ is_pick operation.now }
{
    matches!(operation, Operation::Pick { .. })
}
