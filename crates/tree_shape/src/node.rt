//! Nodes of the tree as plain values.

ghost use Rattle.std.specs.Prelude.{◌≡◌, ◌≤◌, ◌+◌, ◌-◌, ◌^◌, [], ◌++◌, length};
ghost use Rattle.tree_shape.specs.NodeData.{Entries, Pairs, entries_of, frame_of, pairs_of};
ghost use Rattle.tree_shape.specs.Nodes.{body_of, IsCounted};

use crate::array_front::fill;
use crate::limits::{ENTRIES, PAIRS};
use crate::pair::Pair;
use reg_model::{Member, Span};
use std::marker::Model;

/// What a node holds. The first `count` places of an array are in use.
#[derive(Drop)]
pub enum Content {
    Inner {
        count: u32,
        pairs: [Pair; PAIRS],
    },
    Leaf {
        count: u32,
        entries: [Member; ENTRIES],
    },
    Free {
        next: u32,
    },
}

/// A node's level and its two fences.
#[derive(Clone, Copy)]
pub struct NodeBounds {
    pub level: u32,
    pub low: u64,
    pub high: u64,
}

/// A node with its level and its two fences.
#[derive(Drop)]
pub struct Node {
    pub level: u32,
    pub low: u64,
    pub high: u64,
    pub content: Content,
}

impl Model for Node {
    ghost use Rattle.tree_shape.specs.NodeData.{NodeData};

    ghost Value = { NodeData };

    ghost use Rattle.tree_shape.specs.Nodes.{node_data, IsCounted};

    ghost view = { node_data };

    ghost invariant = { λ n. IsCounted n.content };
}

// What stands in the places of an array that are not in use.
fn unused() -> Member {
    Member {
        span: Span::new(0, 1).unwrap(),
        payload: 0,
    }
}

/// A leaf's content: three lists of entries, one after another.
pub fn leaf_of(first: &[Member], middle: &[Member], last: &[Member]) -> Content
    requires { length first.now + length middle.now + length last.now ≤ ENTRIES }
    ensures body { body_of result ≡ Entries (first.now ++ middle.now ++ last.now) }
    ensures counted { IsCounted result }
{
    let mut entries = [unused(); ENTRIES];
    fill(&mut entries, first, middle, last);
    let count = (first.len() + middle.len() + last.len()) as u32;
    Content::Leaf { count, entries }
}

/// An inner node's content: three lists of pairs, one after another.
pub fn inner_of(first: &[Pair], middle: &[Pair], last: &[Pair]) -> Content
    requires { length first.now + length middle.now + length last.now ≤ PAIRS }
    ensures body { body_of result ≡ Pairs (first.now ++ middle.now ++ last.now) }
    ensures counted { IsCounted result }
{
    let unused = Pair {
        child: 0,
        separator: 0,
    };
    let mut pairs = [unused; PAIRS];
    fill(&mut pairs, first, middle, last);
    let count = (first.len() + middle.len() + last.len()) as u32;
    Content::Inner { count, pairs }
}

impl Node {
    /// A leaf with nothing in it.
    pub fn empty_leaf(low: u64, high: u64) -> Node
        requires { low ≤ high }
        ensures { result ≡ record { level = 0; low = low; high = high; body = Entries [] } }
    {
        Node {
            level: 0,
            low,
            high,
            content: leaf_of(&[], &[], &[]),
        }
    }

    /// The low fence.
    pub(crate) fn low(&self) -> u64
        ensures { result ≡ self.now.low }
    {
        self.low
    }

    /// The high fence.
    pub(crate) fn high(&self) -> u64
        ensures { result ≡ self.now.high }
    {
        self.high
    }

    /// The level and the fences.
    pub(crate) fn frame(&self) -> NodeBounds
        ensures value { result ≡ frame_of self.now }
        ensures low_fits { self.now.low ≤ 2 ^ 64 - 1 }
        ensures high_fits { self.now.high ≤ 2 ^ 64 - 1 }
    {
        NodeBounds {
            level: self.level,
            low: self.low(),
            high: self.high(),
        }
    }

    /// What it holds, once more.
    pub(crate) fn content(&self) -> Content
        ensures body { body_of result ≡ self.now.body }
        ensures counted { IsCounted result }
    {
        match &self.content {
            Content::Inner { .. } => inner_of(self.pairs(), &[], &[]),
            Content::Leaf { .. } => leaf_of(self.entries(), &[], &[]),
            Content::Free { next } => Content::Free { next: *next },
        }
    }

    /// The node with something else in it.
    pub(crate) fn holding(&self, content: Content) -> Node
        requires { IsCounted content }
        ensures { let s = self.now in result ≡ record s { body = body_of content } }
    {
        Node {
            level: self.level,
            low: self.low,
            high: self.high,
            content,
        }
    }

    /// The entries of a leaf, and none of another node.
    pub fn entries(&self) -> &[Member]
        ensures value { result.now ≡ entries_of self.now }
        ensures count { length (entries_of self.now) ≤ ENTRIES }
    {
        match &self.content {
            Content::Leaf { count, entries } => &entries[..*count as usize],
            _ => &[],
        }
    }

    /// The pairs of an inner node, and none of another.
    pub fn pairs(&self) -> &[Pair]
        ensures value { result.now ≡ pairs_of self.now }
        ensures count { length (pairs_of self.now) ≤ PAIRS }
    {
        match &self.content {
            Content::Inner { count, pairs } => &pairs[..*count as usize],
            _ => &[],
        }
    }
}
