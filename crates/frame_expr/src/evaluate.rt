//! The value of an expression.

ghost use Rattle.std.specs.Prelude.{◌≡◌, ◌<◌, length, drop, get_or, true};
ghost use Rattle.frame_expr.specs.Depth.{fits};
ghost use Rattle.frame_expr.specs.Regions.{word_at};
ghost use Rattle.frame_expr.specs.Values.{unary, binary, compare, entry, with_loaded, stack_after};
ghost use Rattle.frame_expr.specs.Values.{stack_of, IsValue};
ghost use Rattle.eh_bytes.specs.Results.{Leaves};

use crate::expr::Expr;
use crate::fault::NoBytes;
use crate::operation::{Binary, Comparison, Operation, Unary};
use crate::reading::next;
use crate::regs::Regs;
use crate::source::WordSource;
use crate::stack::Stack;
use eh_bytes::Cursor;

fn unary(by: Unary, number: u64) -> u64
    ensures { result ≡ unary by number }
{
    match by {
        Unary::Abs => number.cast_signed().unsigned_abs(),
        Unary::Neg => 0u64.wrapping_sub(number),
        Unary::Not => !number,
    }
}

/// The two upper entries, the top on the right.
fn binary(by: Binary, left: u64, right: u64) -> u64
    ensures { result ≡ binary by left right }
{
    match by {
        Binary::And => left & right,
        Binary::Or => left | right,
        Binary::Xor => left ^ right,
        Binary::Minus => left.wrapping_sub(right),
        Binary::Mul => left.wrapping_mul(right),
        Binary::Plus => left.wrapping_add(right),
        Binary::Shl if right < 64 => left << right,
        Binary::Shr if right < 64 => left >> right,
        Binary::Shl | Binary::Shr => 0,
        Binary::Shra if right < 64 => (left.cast_signed() >> right).cast_unsigned(),
        Binary::Shra => (left.cast_signed() >> 63).cast_unsigned(),
    }
}

fn compare(by: Comparison, left: u64, right: u64) -> bool
    ensures { result ≡ compare by left right }
{
    let (first, second) = (left.cast_signed(), right.cast_signed());
    match by {
        Comparison::Eq => left == right,
        Comparison::Ne => left != right,
        Comparison::Ge => first >= second,
        Comparison::Gt => first > second,
        Comparison::Le => first <= second,
        Comparison::Lt => first < second,
    }
}

/// The number in a column; no operation names one above 16.
fn column_of(regs: &Regs, column: u8) -> u64
    ensures { result ≡ get_or regs.now.columns column 0 }
{
    match regs.columns.get(column as usize) {
        Some(number) => *number,
        None => 0,
    }
}

/// Puts the eight bytes at the top's address in the place of the top.
fn load<M: WordSource>(stack: &mut Stack, memory: &M) -> Result<(), NoBytes>
    requires { 0 < length stack.old }
    ensures { Leaves
        (with_loaded (entry 0 stack.old) (drop 1 stack.old)
        (word_at (entry 0 stack.old) (M.regions memory.now)))
        result stack.new }
{
    let address = stack.entry(0);
    match memory.word(address) {
        Some(number) => {
            stack.replace(number);
            Ok(())
        }
        None => Err(NoBytes { address }),
    }
}

/// Does what an operation says.
fn apply<M: WordSource>(
    stack: &mut Stack,
    operation: &Operation,
    regs: &Regs,
    memory: &M,
) -> Result<(), NoBytes>
    requires { fits (length stack.old) operation.now ≡ true }
    ensures { Leaves
        (stack_after regs.now.columns (M.regions memory.now) operation.now stack.old)
        result stack.new }
{
    match operation {
        Operation::Nop => {}
        Operation::Constant { number } => stack.push(*number),
        Operation::Breg { column, offset } => {
            stack.push(column_of(regs, *column).wrapping_add(*offset));
        }
        Operation::Deref => return load(stack, memory),
        Operation::Dup => stack.copy(0),
        Operation::Drop => {
            let _ = stack.pop();
        }
        Operation::Over => stack.copy(1),
        Operation::Pick { index } => stack.copy(*index as usize),
        Operation::Swap => stack.swap(),
        Operation::Rot => stack.rot(),
        Operation::Unary { by } => stack.replace(unary(*by, stack.entry(0))),
        Operation::PlusUconst { number } => stack.replace(stack.entry(0).wrapping_add(*number)),
        Operation::Binary { by } => {
            let right = stack.pop();
            stack.replace(binary(*by, stack.entry(0), right));
        }
        Operation::Compare { by } => {
            let right = stack.pop();
            stack.replace(compare(*by, stack.entry(0), right) as u64);
        }
    }
    Ok(())
}

/// The value of an expression, from the registers and the words of a memory. The stack starts with
/// the number `start`, where the expression was read for one. The only fault is that the first
/// `deref` that fails finds no region for the eight bytes at an address. It takes no memory.
pub fn value<const DEPTH: u32, M: WordSource>(
    expr: &Expr<'_, DEPTH>,
    regs: &Regs,
    memory: &M,
    start: Option<u64>,
) -> Result<u64, NoBytes>
    requires { length (stack_of start) ≡ DEPTH }
    ensures { IsValue DEPTH expr.now.bytes.now regs.now.columns (M.regions memory.now) start
        result }
{
    expr.known();
    let bytes = expr.bytes();
    let mut cursor = Cursor::new(bytes, 0, bytes.len());
    let mut stack = Stack::new();
    if let Some(number) = start {
        stack.push(number);
    }
    while cursor.left() > 0 {
        match next(&mut cursor, stack.len() as u32) {
            Ok((operation, _)) => apply(&mut stack, &operation, regs, memory)?,
            // An expression has no fault, so this never comes.
            Err(_) => return Err(NoBytes { address: 0 }),
        }
    }
    Ok(stack.entry(0))
}
