//! What a node says of an address or a span.

ghost use Rattle.std.specs.Prelude.{◌≡◌, ◌≤◌, ◌<◌, length, IfSome, IfNone};
ghost use Rattle.std.specs.List.{find};
ghost use Rattle.reg_model.specs.SpanData.{contains};
ghost use Rattle.reg_model.specs.State.{IsFree, IsLowestOverlap};
ghost use Rattle.tree_shape.specs.NodeData.{IsLeaf, IsInner, entries_of, pairs_of, InOrder};
ghost use Rattle.tree_shape.specs.NodeData.{slot_for};

use crate::node::Node;
use reg_model::{Member, Span};

/// The place of the first pair whose separator is at least the address: its child is the one that
/// the address leads to.
pub fn inner_slot(node: &Node, pc: u64) -> usize
    requires inner { IsInner node.now }
    requires ordered { InOrder node.now }
    requires low { node.now.low ≤ pc }
    requires high { pc ≤ node.now.high }
    ensures first { result ≡ slot_for pc (pairs_of node.now) }
    ensures found { result < length (pairs_of node.now) }
{
    let pairs = node.pairs();
    for (slot, pair) in pairs.iter().enumerate() {
        if pc <= pair.separator {
            return slot;
        }
    }
    pairs.len()
}

/// The entry that contains the address.
pub fn leaf_slot(node: &Node, pc: u64) -> Option<Member>
    requires { IsLeaf node.now }
    ensures { result ≡ find (λ m. contains m.span pc) (entries_of node.now) }
{
    for entry in node.entries() {
        if entry.span.contains(pc) {
            return Some(*entry);
        }
    }
    None
}

/// Of the entries that overlap the span, the one with the least first address.
pub fn first_overlap(node: &Node, span: &Span) -> Option<Member>
    requires leaf { IsLeaf node.now }
    requires ordered { InOrder node.now }
    ensures found { IfSome result (IsLowestOverlap span.now (entries_of node.now)) }
    ensures none { IfNone result (IsFree span.now (entries_of node.now)) }
{
    for first in node.entries() {
        if first.span.overlaps(span) {
            return Some(*first);
        }
    }
    None
}
