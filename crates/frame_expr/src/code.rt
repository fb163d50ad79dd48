//! What an operation's byte says, and its operand.

ghost use Rattle.std.specs.Prelude.{◌≡◌};
ghost use Rattle.eh_bytes.specs.CursorData.{Reads};
ghost use Rattle.frame_expr.specs.declared.operation.Operation.TheVariants as operations;
ghost use Rattle.frame_expr.specs.Operations.{code, alone, constant_code, stack_code};
ghost use Rattle.frame_expr.specs.Operations.{comparison_code, operation_code, operand_of};
ghost use Rattle.frame_expr.specs.Operations.{with_operand};

use crate::opcode::*;
use crate::operation::{Binary, Code, Comparison, Operand, Operation, Unary};
use eh_bytes::{ByteFault, Cursor};

fn code(operand: Operand, operation: Operation) -> Option<Code>
    ensures { result ≡ code operand operation }
{
    Some(Code { operand, operation })
}

/// An operation without an operand.
fn alone(operation: Operation) -> Option<Code>
    ensures { result ≡ alone operation }
{
    code(Operand::Absent, operation)
}

/// Constants, and `deref`.
#[tactic(auto, unfolding(crate::specs::Operations::constant_code))]
fn constant_code(byte: u8) -> Option<Code>
    ensures { result ≡ constant_code byte }
{
    let constant = Operation::Constant { number: 0 };
    match byte {
        DW_OP_addr => code(Operand::U64, constant),
        DW_OP_deref => alone(Operation::Deref),
        DW_OP_const1u => code(Operand::U8, constant),
        DW_OP_const1s => code(Operand::I8, constant),
        DW_OP_const2u => code(Operand::U16, constant),
        DW_OP_const2s => code(Operand::I16, constant),
        DW_OP_const4u => code(Operand::U32, constant),
        DW_OP_const4s => code(Operand::I32, constant),
        DW_OP_const8u => code(Operand::U64, constant),
        DW_OP_const8s => code(Operand::I64, constant),
        DW_OP_constu => code(Operand::Uleb, constant),
        DW_OP_consts => code(Operand::Sleb, constant),
        _ => None,
    }
}

fn unary(by: Unary) -> Option<Code>
    ensures { result ≡ alone (operations.Unary by) }
{
    alone(Operation::Unary { by })
}

fn binary(by: Binary) -> Option<Code>
    ensures { result ≡ alone (operations.Binary by) }
{
    alone(Operation::Binary { by })
}

fn comparison(by: Comparison) -> Option<Code>
    ensures { result ≡ alone (operations.Compare by) }
{
    alone(Operation::Compare { by })
}

/// The stack, and arithmetic.
#[tactic(auto, unfolding(crate::specs::Operations::stack_code))]
fn stack_code(byte: u8) -> Option<Code>
    ensures { result ≡ stack_code byte }
{
    match byte {
        DW_OP_dup => alone(Operation::Dup),
        DW_OP_drop => alone(Operation::Drop),
        DW_OP_over => alone(Operation::Over),
        DW_OP_pick => code(Operand::U8, Operation::Pick { index: 0 }),
        DW_OP_swap => alone(Operation::Swap),
        DW_OP_rot => alone(Operation::Rot),
        DW_OP_abs => unary(Unary::Abs),
        DW_OP_and => binary(Binary::And),
        DW_OP_minus => binary(Binary::Minus),
        DW_OP_mul => binary(Binary::Mul),
        DW_OP_neg => unary(Unary::Neg),
        DW_OP_not => unary(Unary::Not),
        DW_OP_or => binary(Binary::Or),
        DW_OP_plus => binary(Binary::Plus),
        DW_OP_plus_uconst => code(Operand::Uleb, Operation::PlusUconst { number: 0 }),
        DW_OP_shl => binary(Binary::Shl),
        DW_OP_shr => binary(Binary::Shr),
        DW_OP_shra => binary(Binary::Shra),
        DW_OP_xor => binary(Binary::Xor),
        _ => None,
    }
}

/// Comparisons.
#[tactic(auto, unfolding(crate::specs::Operations::comparison_code))]
fn comparison_code(byte: u8) -> Option<Code>
    ensures { result ≡ comparison_code byte }
{
    match byte {
        DW_OP_eq => comparison(Comparison::Eq),
        DW_OP_ge => comparison(Comparison::Ge),
        DW_OP_gt => comparison(Comparison::Gt),
        DW_OP_le => comparison(Comparison::Le),
        DW_OP_lt => comparison(Comparison::Lt),
        DW_OP_ne => comparison(Comparison::Ne),
        _ => None,
    }
}

/// What an operation's byte says, where it is one.
#[tactic(auto, unfolding(crate::specs::Operations::operation_code))]
pub(crate) fn operation_code(byte: u8) -> Option<Code>
    ensures { result ≡ operation_code byte }
{
    if byte < DW_OP_dup {
        constant_code(byte)
    } else if byte < DW_OP_bra {
        stack_code(byte)
    } else if byte < DW_OP_lit0 {
        comparison_code(byte)
    } else if byte < DW_OP_reg0 {
        alone(Operation::Constant {
            number: u64::from(byte - DW_OP_lit0),
        })
    } else if byte < DW_OP_breg0 {
        None
    } else if byte <= DW_OP_breg16 {
        code(
            Operand::Sleb,
            Operation::Breg {
                column: byte - DW_OP_breg0,
                offset: 0,
            },
        )
    } else if byte == DW_OP_nop {
        alone(Operation::Nop)
    } else {
        None
    }
}

/// The number after an operation's byte, modulo 2^64.
pub(crate) fn operand(cursor: &mut Cursor, operand: Operand) -> Result<u64, ByteFault>
    ensures { Reads (λ x. x) (operand_of operand).read cursor.old result cursor.new }
{
    match operand {
        Operand::Absent => Ok(0),
        Operand::U8 => Ok(u64::from(cursor.u8()?)),
        Operand::U16 => Ok(u64::from(cursor.u16()?)),
        Operand::U32 => Ok(u64::from(cursor.u32()?)),
        Operand::U64 | Operand::I64 => cursor.u64(),
        Operand::I8 => Ok(i64::from(cursor.i8()?).cast_unsigned()),
        Operand::I16 => Ok(i64::from(cursor.i16()?).cast_unsigned()),
        Operand::I32 => Ok(i64::from(cursor.i32()?).cast_unsigned()),
        Operand::Uleb => cursor.uleb(),
        Operand::Sleb => Ok(cursor.sleb()?.cast_unsigned()),
    }
}

/// The operation with its operand in place.
pub(crate) fn with_operand(number: u64, code: Code) -> Operation
    ensures { result ≡ with_operand number code }
{
    if let Operand::Absent = code.operand {
        return code.operation;
    }
    match code.operation {
        Operation::Constant { .. } => Operation::Constant { number },
        Operation::Breg { column, .. } => Operation::Breg {
            column,
            offset: number,
        },
        Operation::Pick { .. } => Operation::Pick { index: number },
        Operation::PlusUconst { .. } => Operation::PlusUconst { number },
        operation => operation,
    }
}
