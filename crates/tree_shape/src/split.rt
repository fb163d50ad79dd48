//! One node made into two.

ghost use Rattle.std.specs.Prelude.{◌≡◌, ◌+◌, ◌-◌, ◌<◌, ◌≤◌, ◌^◌, [], ◌∷◌, ◌++◌, length, take};
ghost use Rattle.tree_shape.specs.NodeData.{IsLeaf, IsInner, Pairs, Entries, InOrder};
ghost use Rattle.tree_shape.specs.NodeData.{entries_of, pairs_of};
ghost use Rattle.tree_shape.specs.Nodes.{framed};
ghost use Rattle.tree_shape.specs.Changes.{first_half, last_half, pair, pairs_end};

use crate::array_front::{cut, item};
use crate::limits::{ENTRIES, HIGHEST_LEVEL, LEFT_ENTRIES, LEFT_PAIRS, PAIRS};
use crate::node::{Node, NodeBounds, inner_of, leaf_of};
use crate::pair::Pair;
use reg_model::Member;

/// The two leaves that a leaf with these entries is cut into.
pub fn cut_leaf(frame: NodeBounds, first: &[Member], last: &[Member], n: usize) -> (Node, Node)
    requires some { 0 < n }
    requires left { n ≤ ENTRIES }
    requires enough { n < length first.now + length last.now }
    requires right { length first.now + length last.now ≤ n + ENTRIES }
    ensures left { result.0 ≡ first_half n (framed frame (Entries (first.now ++ last.now))) }
    ensures right { result.1 ≡ last_half n (framed frame (Entries (first.now ++ last.now))) }
{
    let fence = item(first, last, n - 1).span.last();
    let (before, after) = cut(first, last, n);
    let left = Node {
        level: frame.level,
        low: frame.low,
        high: fence,
        content: leaf_of(before.0, before.1, &[]),
    };
    let right = Node {
        level: frame.level,
        low: fence + 1,
        high: frame.high,
        content: leaf_of(after.0, after.1, &[]),
    };
    (left, right)
}

/// The two inner nodes that an inner node with these pairs is cut into.
pub fn cut_inner(frame: NodeBounds, first: &[Pair], last: &[Pair], n: usize) -> (Node, Node)
    requires some { 0 < n }
    requires left { n ≤ PAIRS }
    requires enough { n < length first.now + length last.now }
    requires right { length first.now + length last.now ≤ n + PAIRS }
    requires below_top { pairs_end 0 (take n (first.now ++ last.now)) < 2 ^ 64 - 1 }
    ensures left { result.0 ≡ first_half n (framed frame (Pairs (first.now ++ last.now))) }
    ensures right { result.1 ≡ last_half n (framed frame (Pairs (first.now ++ last.now))) }
{
    let fence = item(first, last, n - 1).separator;
    let (before, after) = cut(first, last, n);
    let left = Node {
        level: frame.level,
        low: frame.low,
        high: fence,
        content: inner_of(before.0, before.1, &[]),
    };
    let right = Node {
        level: frame.level,
        low: fence + 1,
        high: frame.high,
        content: inner_of(after.0, after.1, &[]),
    };
    (left, right)
}

/// A full leaf's first five and last five entries. The fence between them is the last address of
/// the fifth.
pub fn split_leaf(node: &Node) -> (Node, Node)
    requires leaf { IsLeaf node.now }
    requires full { length (entries_of node.now) ≡ ENTRIES }
    ensures left { result.0 ≡ first_half LEFT_ENTRIES node.now }
    ensures right { result.1 ≡ last_half LEFT_ENTRIES node.now }
{
    cut_leaf(node.frame(), node.entries(), &[], LEFT_ENTRIES)
}

/// A full inner node's first seven and last eight pairs. The fence between them is the seventh
/// separator.
pub fn split_inner(node: &Node) -> (Node, Node)
    requires inner { IsInner node.now }
    requires full { length (pairs_of node.now) ≡ PAIRS }
    requires ordered { InOrder node.now }
    ensures left { result.0 ≡ first_half LEFT_PAIRS node.now }
    ensures right { result.1 ≡ last_half LEFT_PAIRS node.now }
{
    cut_inner(node.frame(), node.pairs(), &[], LEFT_PAIRS)
}

/// The root raised by a level, with one child, and that child, which has what the root had.
pub fn lift_root(node: &Node, child: u32) -> (Node, Node)
    requires level { node.now.level < HIGHEST_LEVEL }
    ensures root { let s = node.now in
        result.0 ≡ record s { level = s.level + 1; body = Pairs (pair child s.high ∷ []) } }
    ensures moved { result.1 ≡ node.now }
{
    let all = Pair {
        child,
        separator: node.high,
    };
    let root = Node {
        level: node.level + 1,
        low: node.low,
        high: node.high,
        content: inner_of(&[all], &[], &[]),
    };
    (root, node.holding(node.content()))
}
