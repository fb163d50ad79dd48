//! Where the nodes stand, the words of a node by their numbers, the kinds of nodes, the halves of
//! the clock, and the bits of a version lock. Where each word of the table stands is stated in
//! `specs/Places`, and what a node's words spell in `specs/Spelling`.
ghost use Rattle.std.specs.Prelude.{◌≡◌, ◌+◌, ◌*◌};
ghost use Rattle.word_rule.specs.Places.{lower};

/// Where the nodes begin in the table.
pub const FIRST_NODE: usize = 4;

/// The words of a node, its version word first.
pub const NODE_WORDS: usize = 36;

/// Where a node begins, with its version word.
pub(crate) fn place_of(node: u32) -> usize
    ensures { result ≡ 4 + 36 * node }
{
    FIRST_NODE + NODE_WORDS * node as usize
}

/// A node's words after its version: its kind, its level, its fences and its count.
pub const KIND: u32 = 1;

pub const LEVEL: u32 = 2;

pub const LOW: u32 = 3;

pub const HIGH: u32 = 4;

pub const COUNT: u32 = 5;

/// Where a node's first pair or entry stands, or what links a free one to the next.
pub const FIRST: u32 = 6;

pub const LINK: u32 = FIRST;

/// The words of a pair: its child and its separator.
pub const PAIR_WORDS: u32 = 2;

/// The words of an entry: its base, its size and its payload.
pub const ENTRY_WORDS: u32 = 3;

/// The kinds of nodes.
pub const INNER: u64 = 0;

pub const LEAF: u64 = 1;

pub const FREE: u64 = 2;

/// Where the clock stands.
pub const CLOCK: u32 = 0;

/// What the lower half of the clock counts up to: accepted updates stand in it, publications of the
/// loader in the upper half.
pub const LOWER: u64 = 1 << 32;

/// How many updates were accepted at a value of the clock.
pub fn updates_at(clock: u64) -> u32
    ensures { result ≡ lower clock }
{
    (clock % LOWER) as u32
}

/// The bit of a version word that is set while it is locked, and that which is set while threads
/// sleep on it.
pub const LOCKED: u64 = 1;

pub const SLEEPERS: u64 = 2;

/// What a version rises by, each time that its lock is let go.
pub const VERSION: u64 = 4;
