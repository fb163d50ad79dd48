//! A child of an inner node with its separator.

/// The child holds the entries up to and including the separator.
#[derive(Clone, Copy, Debug, PartialEq, Eq)]
pub struct Pair {
    pub child: u32,
    pub separator: u64,
}
