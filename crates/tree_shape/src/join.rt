//! Two neighbours made into one, or given even shares, or a new fence between them.

ghost use Rattle.std.specs.Prelude.{◌≡◌, ◌+◌, ◌/◌, ◌<◌};
ghost use Rattle.tree_shape.specs.NodeData.{InOrder, AreNeighbours};
ghost use Rattle.tree_shape.specs.Nodes.{body_of, IsCounted};
ghost use Rattle.tree_shape.specs.Changes.{both, Fit, Overfill, joined, first_half, last_half};
ghost use Rattle.tree_shape.specs.Changes.{share_of, ends_at_as, ends_at_fence, begins_after};

use crate::node::{Content, Node, NodeBounds, inner_of, leaf_of};
use crate::pair::Pair;
use crate::split::{cut_inner, cut_leaf};

// What two nodes that fit together hold.
fn joined_content(left: &Node, right: &Node) -> Content
    requires { Fit left.now right.now }
    ensures body { body_of result ≡ both left.now.body right.now.body }
    ensures counted { IsCounted result }
{
    match &left.content {
        Content::Leaf { .. } => leaf_of(left.entries(), right.entries(), &[]),
        _ => inner_of(left.pairs(), right.pairs(), &[]),
    }
}

/// One node in place of two neighbours that fit together.
pub fn join_pair(left: &Node, right: &Node) -> Node
    requires { Fit left.now right.now }
    ensures { result ≡ joined left.now right.now }
{
    Node {
        level: left.level,
        low: left.low,
        high: right.high,
        content: joined_content(left, right),
    }
}

/// Two neighbours that don't fit together, with even shares: the left one has the smaller half.
pub fn even_pair(left: &Node, right: &Node) -> (Node, Node)
    requires neighbours { AreNeighbours left.now right.now }
    requires overfill { Overfill left.now right.now }
    requires left_ordered { InOrder left.now }
    requires right_ordered { InOrder right.now }
    ensures left { result.0
        ≡ first_half (share_of left.now right.now) (joined left.now right.now) }
    ensures right { result.1
        ≡ last_half (share_of left.now right.now) (joined left.now right.now) }
{
    let end = right.frame();
    let frame = NodeBounds {
        level: left.level,
        low: left.low,
        high: end.high,
    };
    match &left.content {
        Content::Leaf { .. } => {
            let (first, last) = (left.entries(), right.entries());
            cut_leaf(frame, first, last, (first.len() + last.len()) / 2)
        }
        _ => {
            let (first, last) = (left.pairs(), right.pairs());
            cut_inner(frame, first, last, (first.len() + last.len()) / 2)
        }
    }
}

/// The root in place of its only two children, which fit together: it takes their level.
pub fn sink_root(root: &Node, left: &Node, right: &Node) -> Node
    requires { Fit left.now right.now }
    ensures { let s = joined left.now right.now in
        result ≡ record s { low = root.now.low; high = root.now.high } }
{
    let level = left.level;
    Node {
        level,
        low: root.low,
        high: root.high,
        content: joined_content(left, right),
    }
}

// What a node holds once it ends at another fence.
fn raised_content(node: &Node, fence: u64) -> Content
    ensures body { body_of result ≡ ends_at_as fence node.now.body }
    ensures counted { IsCounted result }
{
    let pairs = node.pairs();
    if pairs.is_empty() {
        return node.content();
    }
    let before = pairs.len() - 1;
    let last = Pair {
        child: pairs[before].child,
        separator: fence,
    };
    inner_of(&pairs[..before], &[last], &[])
}

/// Two neighbours with a higher fence between them. Where the left one is an inner node, its last
/// separator is the fence.
pub fn move_fence(left: &Node, right: &Node, fence: u64) -> (Node, Node)
    requires { fence < right.now.high }
    ensures left { result.0 ≡ ends_at_fence fence left.now }
    ensures right { result.1 ≡ begins_after fence right.now }
{
    let high = right.high();
    let raised = Node {
        level: left.level,
        low: left.low,
        high: fence,
        content: raised_content(left, fence),
    };
    let shortened = Node {
        level: right.level,
        low: fence + 1,
        high,
        content: right.content(),
    };
    (raised, shortened)
}
