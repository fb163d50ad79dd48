//! Expressions of call frame programs, after DWARF 5, section 2.5: what their bytes spell, and
//! their value from the registers of a frame and the memory that was recorded with it. The crate
//! stands on the cursor of `eh_bytes` alone. An expression is read once, and refused where an
//! operation isn't known or doesn't find its numbers; from then on its value is worked out without
//! memory and without refusals, but for an address at which nothing is recorded.
#![tactic(auto)]

mod code;
mod depth;
mod evaluate;
mod expr;
mod fault;
mod lent;
mod memory;
mod opcode;
mod operation;
mod reading;
mod regs;
mod source;
mod stack;

pub use evaluate::value;
pub use expr::{CfaExpr, ColumnExpr, Expr, one_answer};
pub use fault::{ExprFault, NoBytes};
pub use lent::Lent;
pub use memory::{Memory, RegionFault};
pub use operation::{Binary, Code, Comparison, Operand, Operation, Unary};
pub use regs::Regs;
pub use source::WordSource;
