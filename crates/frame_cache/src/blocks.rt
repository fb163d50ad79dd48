//! Blocks of addresses, by whose numbers slots are told apart.

/// How many addresses are a block. Code mostly begins with one.
pub(crate) const BLOCK: u64 = 16;

/// How many blocks have numbers of their own; further ones have the same again.
pub(crate) const NUMBERS: u64 = 1 << 16;
