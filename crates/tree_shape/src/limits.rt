//! How much a node may hold, where a full one is cut, and how high the tree may stand. Definitions
//! cite these numbers too.

/// The greatest number of pairs of an inner node.
pub const PAIRS: usize = 15;

/// The greatest number of entries of a leaf.
pub const ENTRIES: usize = 10;

/// The fewest pairs of an inner node that isn't the root.
pub const FEWEST_PAIRS: usize = 6;

/// The fewest pairs of a root that is no leaf.
pub const FEWEST_ROOT_PAIRS: usize = 2;

/// The fewest entries of a leaf that isn't the root.
pub const FEWEST_ENTRIES: usize = 4;

/// How many pairs the left half of a full inner node gets.
pub const LEFT_PAIRS: usize = 7;

/// How many entries the left half of a full leaf gets.
pub const LEFT_ENTRIES: usize = 5;

/// The greatest level of the root.
pub const HIGHEST_LEVEL: u32 = 12;
