//! The next operation of an expression.

ghost use Rattle.std.specs.Prelude.{◌≡◌, ◌≤◌};
ghost use Rattle.eh_bytes.specs.Results.{with_fault};
ghost use Rattle.eh_bytes.specs.CursorData.{Gives};
ghost use Rattle.frame_expr.specs.Expressions.{expr_fault, coded, next_operation};

use crate::code::{operand, operation_code, with_operand};
use crate::depth::{depth_after, is_pick};
use crate::fault::ExprFault;
use crate::operation::{Code, Operation};
use eh_bytes::{ByteFault, Cursor};

/// A field's fault as the expression's.
fn expr_fault<T: Drop>(read: Result<T, ByteFault>) -> Result<T, ExprFault>
    ensures { result ≡ with_fault expr_fault read }
{
    match read {
        Ok(x) => Ok(x),
        Err(ByteFault::Short { at }) => Err(ExprFault::Short { at }),
        Err(ByteFault::TooWide { at }) => Err(ExprFault::TooWide { at }),
        Err(ByteFault::Encoding { at, byte }) => Err(ExprFault::Operation { at, byte }),
    }
}

/// The next operation, and the depth of the stack after it.
#[tactic(auto, unfolding(crate::specs::Expressions::next_operation))]
pub(crate) fn next(cursor: &mut Cursor, depth: u32) -> Result<(Operation, u32), ExprFault>
    requires { depth ≤ 32 }
    ensures { Gives (λ x. x) (next_operation depth).read cursor.old result cursor.new }
{
    let at = cursor.at();
    let byte = expr_fault(cursor.u8())?;
    match operation_code(byte) {
        None => Err(ExprFault::Operation { at, byte }),
        Some(code) => coded(cursor, depth, at, code),
    }
}

/// The operation whose byte was read at a place, and the depth of the stack after it.
#[tactic(auto, unfolding(crate::specs::Expressions::coded))]
fn coded(
    cursor: &mut Cursor,
    depth: u32,
    at: usize,
    code: Code,
) -> Result<(Operation, u32), ExprFault>
    requires { depth ≤ 32 }
    ensures { Gives (λ x. x) (coded depth at code).read cursor.old result cursor.new }
{
    if !is_pick(&code.operation) && depth_after(depth, &code.operation).is_none() {
        return Err(ExprFault::Depth { at });
    }
    let number = match expr_fault(operand(cursor, code.operand)) {
        Ok(number) => number,
        Err(fault) => return Err(fault),
    };
    let operation = with_operand(number, code);
    match depth_after(depth, &operation) {
        Some(depth) => Ok((operation, depth)),
        None => Err(ExprFault::Depth { at }),
    }
}
