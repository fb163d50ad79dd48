//! Why bytes are no expression.

/// What is wrong with the bytes of an expression. `at` is a place in these bytes, counted from 0.
#[derive(Clone, Copy, Debug, PartialEq, Eq)]
pub enum ExprFault {
    /// An operand isn't whole. The place is the operand's first byte.
    Short { at: usize },
    /// A whole LEB128 number doesn't fit 64 bits. The place is its first byte.
    TooWide { at: usize },
    /// No operation that is known here begins with the byte.
    Operation { at: usize, byte: u8 },
    /// An operation finds too few numbers on the stack, or leaves more than 32. The place is its
    /// byte. Or no number is left at the end, and the place is the first after the bytes.
    Depth { at: usize },
}

/// No region of the memory holds all eight bytes at an address that a `deref` reads.
#[derive(Clone, Copy, Debug, PartialEq, Eq)]
pub struct NoBytes {
    pub address: u64,
}
