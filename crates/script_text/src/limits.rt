//! The limits of scripts.

/// The versions of the format.
pub const FIRST_VERSION: u32 = 1;

pub const LAST_VERSION: u32 = 2;

/// The first version that has `replace` events.
pub const REPLACE_VERSION: u32 = 2;

/// Nodes of the tree of registered ranges, the root included.
pub const LEAST_NODES: u32 = 4;

pub const MOST_NODES: u32 = 16_384;

/// Images that may be loaded at a time.
pub const LEAST_LOADS: u32 = 1;

pub const MOST_LOADS: u32 = 1_024;

pub const MOST_IMAGES: usize = 4_096;

/// Bytes of one section.
pub const MOST_SECTION_BYTES: usize = 65_536;

pub const MOST_SNAPSHOTS: usize = 4_096;

/// Recorded bytes of one snapshot.
pub const MOST_MEMORY_BYTES: usize = 65_536;

pub const MOST_ROUNDS: usize = 64;

/// Threads of one round.
pub const MOST_THREADS: usize = 16;

/// Events of one thread.
pub const MOST_EVENTS: usize = 4_096;

/// `unwind` events of a whole script.
pub const MOST_UNWINDS: usize = 16_384;
