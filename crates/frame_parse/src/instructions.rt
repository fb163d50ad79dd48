//! What instructions say, with factored offsets.

mod blocks;
mod context;
mod decode;
mod effect;
mod lending;
mod opcodes;
mod steps;

pub use context::{Context, ProgramKind};
use frame_expr::{CfaExpr, ColumnExpr};
pub use lending::lent_expr;
pub(crate) use lending::lent_step;
pub(crate) use steps::{first_state, initial_state, step, steps};

/// A rule for a column, as an instruction sets it. `E` tells its expression.
#[derive(Clone, Copy, Debug, PartialEq, Eq)]
pub enum ReadRuleWith<E> {
    Undefined,
    Same,
    /// Saved at the CFA plus an offset, modulo 2^64.
    Offset { by: u64 },
    /// The CFA plus an offset, modulo 2^64.
    ValOffset { by: u64 },
    /// Saved in another column.
    Register { column: u8 },
    /// Saved at the value of an expression, which starts with the CFA.
    Expression { expr: E },
    /// The value of an expression, which starts with the CFA.
    ValExpression { expr: E },
}

/// An instruction. What isn't applied is a `Nop`. `C` tells the expression of the CFA, `E` that of
/// a column.
#[derive(Clone, Copy, Debug, PartialEq, Eq)]
pub enum InstructionWith<C, E> {
    Nop,
    /// The location moves.
    Advance,
    Set { column: u8, rule: ReadRuleWith<E> },
    Restore { column: u8 },
    Remember,
    RestoreState,
    /// The CFA is a column plus an offset.
    Cfa { column: u8, by: u64 },
    CfaColumn { column: u8 },
    CfaOffset { by: u64 },
    /// The CFA is the value of an expression.
    CfaExpression { expr: C },
}

/// An instruction with the location at which it holds.
#[derive(Clone, Copy, Debug, PartialEq, Eq)]
pub struct StepWith<C, E> {
    pub location: u64,
    pub instruction: InstructionWith<C, E>,
}

/// Instructions that lend their expressions.
pub type ReadRule<'a> = ReadRuleWith<ColumnExpr<'a>>;

pub type Instruction<'a> = InstructionWith<CfaExpr<'a>, ColumnExpr<'a>>;

pub type Step<'a> = StepWith<CfaExpr<'a>, ColumnExpr<'a>>;

/// Instructions that tell the places of their expressions' blocks in the section: they are small,
/// and `lent_expr` lends the expressions.
pub type PlacedReadRule = ReadRuleWith<usize>;

pub type PlacedInstruction = InstructionWith<usize, usize>;

pub type PlacedStep = StepWith<usize, usize>;

/// What an instruction spells, before its effect on the location is tested.
#[derive(Clone, Copy, Debug, PartialEq, Eq)]
pub enum RawInstruction {
    /// On by as many code alignments.
    Advance { delta: u64 },
    SetLocation { address: u64 },
    Other { instruction: PlacedInstruction },
}
