//! The registers of a frame.

/// The numbers in the columns of x86-64, by their DWARF numbers: 0 RAX, 1 RDX, 2 RCX, 3 RBX, 4 RSI,
/// 5 RDI, 6 RBP, 7 RSP, 8 to 15 R8 to R15, and 16 the address of the frame's instruction.
#[derive(Clone, Copy, Debug, PartialEq, Eq)]
pub struct Regs {
    pub columns: [u64; 17],
}
