//! What callers know, as plain data for proofs: no value of a log is ever made.

use reg_model::{Member, Receipt, Update};
use std::collections::LinkedList;
use tree_shape::{Node, NodeBounds};

/// A version lock: that of a node, or the loader's.
#[derive(Clone, Copy, Debug, PartialEq, Eq)]
pub enum LockId {
    Node { node: u32 },
    Loader,
}

/// What a load is asked for: the receipt that it may append.
#[derive(Clone, Copy, Debug, PartialEq, Eq)]
pub enum Ask {
    Nothing,
    Registered { pc: u64 },
    Loaded { pc: u64 },
    Refused { update: Update },
}

/// With what the words were made.
pub struct Terms {
    pub nodes: u64,
    pub loads: u64,
    pub payloads: u64,
    pub fixed: LinkedList<Member>,
}

/// Whose a log is: a caller's, a note's, a reader's, or nobody's, where it was joined or learnt
/// into another.
pub enum Role {
    Caller,
    Note,
    Reader,
    Spent,
}

/// What a caller may still do.
pub struct Budget {
    /// Update calls that it may still begin, and those begun and not yet accepted.
    pub allowance: u64,
    /// Releases that it may still make.
    pub credit: u64,
}

/// The receipts of one caller, in order, and how many updates it had seen when it was split off.
pub struct ReceiptList {
    pub since: u64,
    pub list: LinkedList<Receipt>,
}

/// The receipts of a caller, and of each caller that was joined into it, directly or through
/// others; and what it heard of the history as it took in another.
pub struct Receipts {
    /// How many updates it had seen when it was split off.
    pub since: u64,
    pub own: LinkedList<Receipt>,
    pub joined: LinkedList<ReceiptList>,
    /// The shorter of what it had seen and what the one had that it took in last.
    pub heard: LinkedList<Update>,
}

/// A node that the caller has locked.
pub struct Holding {
    pub node: u64,
    /// The version at which it was locked.
    pub version: u64,
    /// The node's part in the tree, which changes where contents settle.
    pub settled: Node,
    /// The words after the version, as they are now.
    pub words: LinkedList<u64>,
    /// Whether a word was stored since it was locked.
    pub stored: bool,
    /// Its place in the tree, as its parent gives it, where it is marked live.
    pub mark: Option<NodeBounds>,
}

/// The nodes that a caller has locked, and those that it has taken out of the tree or the free
/// list.
pub struct Holdings {
    pub held: LinkedList<Holding>,
    pub out: LinkedList<u64>,
}

/// The loader's lock.
pub struct LoaderHolding {
    /// The version at which it was locked.
    pub version: u64,
    /// How often the loader published.
    pub published: u64,
    /// The words of the active copy.
    pub active: LinkedList<u64>,
    /// Those of the other copy, as they are now.
    pub spare: LinkedList<u64>,
    /// Whether a word was stored since it was locked, or since its last publication.
    pub stored: bool,
}

/// A load or a refused exchange, with what its caller had then.
pub struct LoadEvent {
    pub word: u64,
    pub found: u64,
    pub held: LinkedList<Holding>,
    pub out: LinkedList<u64>,
    pub stores: LinkedList<u64>,
    /// How many receipts of its own.
    pub receipts: u64,
    /// How many turns.
    pub turns: u64,
}

/// The steps of a caller.
pub struct CallerTrace {
    /// Its loads and refused exchanges.
    pub loads: LinkedList<LoadEvent>,
    /// The nodes in which it stored.
    pub stores: LinkedList<u64>,
    /// How many of its steps changed a word.
    pub writes: u64,
    /// How many callers and notes it forked off or took in.
    pub meetings: u64,
}

/// A word that was loaded, counted from the first word of its node, or in the whole table.
pub struct LoadedWord {
    pub at: u64,
    pub value: u64,
}

/// Words of a node that were loaded under a version.
pub struct NodeSight {
    pub node: u64,
    pub version: u64,
    /// The words loaded since, the last one first.
    pub words: LinkedList<LoadedWord>,
    /// The lower half of the clock, where it was loaded since.
    pub clock: Option<u64>,
    /// The node's place in the tree, as its parent's sight gave it, where it is marked live.
    pub mark: Option<NodeBounds>,
}

/// Words of the loader's active copy that were loaded under the clock's upper half.
pub struct CopySight {
    pub guard: u64,
    /// The words loaded since, the last one first.
    pub words: LinkedList<LoadedWord>,
}

/// What a caller has loaded under versions, and under the clock's upper half.
pub struct Sights {
    pub nodes: LinkedList<NodeSight>,
    pub copies: Option<CopySight>,
}

/// How callers and notes were forked from one another.
pub struct Lineage {
    /// What it has of the whole that the first caller had, of which each that is forked off is
    /// given a part, and which comes back with what is joined or learnt.
    pub share: u128,
}

/// What a caller has seen and done.
pub struct Log {
    pub terms: Terms,
    pub role: Role,
    /// The updates that it has seen.
    pub past: LinkedList<Update>,
    pub budget: Budget,
    pub receipts: Receipts,
    pub trace: CallerTrace,
    pub holdings: Holdings,
    pub loader: Option<LoaderHolding>,
    pub sights: Sights,
    /// How many callers it, or one joined into it, split off.
    pub made: u64,
    pub lineage: Lineage,
}
