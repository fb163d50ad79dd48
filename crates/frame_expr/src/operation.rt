//! The operations of expressions, by the names of DWARF 5, sections 2.5.1 and 7.7.1.

/// One operation. What only differs in how its number is written is one variant.
#[derive(Clone, Copy, Debug, PartialEq, Eq)]
pub enum Operation {
    /// `nop` does nothing.
    Nop,
    /// `addr`, `const1u` to `consts` and `lit0` to `lit31` push a number.
    Constant { number: u64 },
    /// `breg0` to `breg16` push the number of a column, with an offset added.
    Breg { column: u8, offset: u64 },
    /// `deref` puts the eight bytes at the top's address in the place of the top.
    Deref,
    /// `dup` pushes the top once more.
    Dup,
    /// `drop` removes the top.
    Drop,
    /// `over` pushes the entry below the top.
    Over,
    /// `pick` pushes the entry that stands so far below the top.
    Pick { index: u64 },
    /// `swap` exchanges the top and the entry below it.
    Swap,
    /// `rot` turns the three upper entries: the top goes below the two others.
    Rot,
    /// An operation on the top alone.
    Unary { by: Unary },
    /// `plus_uconst` adds a number to the top.
    PlusUconst { number: u64 },
    /// An operation on the top and the entry below it, which stands on the left.
    Binary { by: Binary },
    /// A comparison of these two as signed numbers.
    Compare { by: Comparison },
}

/// What is done with the top alone.
#[derive(Clone, Copy, Debug, PartialEq, Eq)]
pub enum Unary {
    Abs,
    Neg,
    Not,
}

/// What is done with the two upper entries.
#[derive(Clone, Copy, Debug, PartialEq, Eq)]
pub enum Binary {
    And,
    Or,
    Xor,
    Minus,
    Mul,
    Plus,
    Shl,
    Shr,
    Shra,
}

/// How the two upper entries are compared.
#[derive(Clone, Copy, Debug, PartialEq, Eq)]
pub enum Comparison {
    Eq,
    Ge,
    Gt,
    Le,
    Lt,
    Ne,
}

/// How the number after an operation's byte is written.
#[derive(Clone, Copy, Debug, PartialEq, Eq)]
pub enum Operand {
    /// There is none.
    Absent,
    U8,
    U16,
    U32,
    U64,
    I8,
    I16,
    I32,
    I64,
    Uleb,
    Sleb,
}

/// What an operation's byte says: how its operand is written, and the operation with 0 in its
/// place.
#[derive(Clone, Copy, Debug, PartialEq, Eq)]
pub struct Code {
    pub operand: Operand,
    pub operation: Operation,
}
