//! The calls run on outside values, and a plain tree over an array of nodes run by these calls.

ghost use Rattle.std.specs.Prelude.{◌<◌, ◌↔◌, IsTrue, IsSome};
ghost use Rattle.reg_model.specs.State.{at_base};
ghost use Rattle.tree_shape.specs.NodeData.{IsLeaf, IsInner, InOrder, EntriesWithin, Cut};
ghost use Rattle.tree_shape.specs.Changes.{Fit, Overfill};

use reg_model::{Member, Span};
use std::process::Abort;
use std::test::Fail;
use tree_shape::{
    Content, Node, Pair, drop_pair, even_pair, first_overlap, inner_slot, join_pair, leaf_slot,
    lift_root, move_fence, put_entry, put_pair, set_separator, sink_root, split_inner, split_leaf,
    take_entry,
};

// Tests of what the calls ask for.

fn is_leaf(node: &Node) -> bool
    ensures { IsTrue result ↔ IsLeaf node.now }
{
    matches!(&node.content, Content::Leaf { .. })
}

fn is_inner(node: &Node) -> bool
    ensures { IsTrue result ↔ IsInner node.now }
{
    matches!(&node.content, Content::Inner { .. })
}

fn within(low: u64, high: u64, entries: &[Member]) -> bool
    ensures { IsTrue result → EntriesWithin low high entries.now }
{
    match entries {
        [] => true,
        [entry, rest @ ..] => {
            let (first, last) = (entry.span.first(), entry.span.last());
            low <= first && last <= high && within(last + 1, high, rest)
        }
    }
}

fn cuts(low: u64, high: u64, pairs: &[Pair]) -> bool
    ensures { IsTrue result → Cut low high pairs.now }
{
    match pairs {
        [] => false,
        [last] => low <= last.separator && last.separator == high,
        [pair, rest @ ..] => {
            let separator = pair.separator;
            low <= separator && separator < high && cuts(separator + 1, high, rest)
        }
    }
}

fn in_order(node: &Node) -> bool
    ensures { IsTrue result → InOrder node.now }
{
    if is_leaf(node) {
        within(node.low, node.high, node.entries())
    } else {
        is_inner(node) && cuts(0, node.high, node.pairs())
    }
}

fn holds(entries: &[Member], base: u64) -> bool
    ensures { IsTrue result → IsSome (at_base base entries.now) }
{
    match entries {
        [] => false,
        [entry, rest @ ..] => entry.span.first() == base || holds(rest, base),
    }
}

fn fit(left: &Node, right: &Node) -> bool
    ensures { IsTrue result → Fit left.now right.now }
{
    if is_leaf(left) {
        is_leaf(right) && left.entries().len() + right.entries().len() <= 10
    } else {
        is_inner(left) && is_inner(right) && left.pairs().len() + right.pairs().len() <= 15
    }
}

fn overfill(left: &Node, right: &Node) -> bool
    ensures { IsTrue result → Overfill left.now right.now }
{
    if is_leaf(left) {
        is_leaf(right) && left.entries().len() + right.entries().len() > 10
    } else {
        is_inner(left) && is_inner(right) && left.pairs().len() + right.pairs().len() > 15
    }
}

fn member(rt: &impl Abort, base: u64, size: u64) -> Member {
    let span = Span::new(base, size).expect(rt, "a span");
    Member { span, payload: 0 }
}

// A leaf with entries of size 10 (hexadecimal) at these bases.
fn leaf(rt: &impl Abort, low: u64, high: u64, bases: &[u64]) -> Node {
    assert!(rt; low <= high);
    let mut node = Node::empty_leaf(low, high);
    for base in bases {
        assert!(rt; is_leaf(&node));
        assert!(rt; node.entries().len() < 10);
        node = put_entry(&node, &member(rt, *base, 0x10));
    }
    node
}

/// The bases of a leaf that is next to one with the bases `FOUR`: nine, or five.
const NINE: [u64; 9] = [
    0x1000, 0x1100, 0x1200, 0x1300, 0x1400, 0x1500, 0x1600, 0x1700, 0x1800,
];

const FIVE: [u64; 5] = [0x1000, 0x1100, 0x1200, 0x1300, 0x1400];

const FOUR: [u64; 4] = [0x100, 0x200, 0x300, 0x400];

#[test]
fn a_full_leaf_splits_into_five_and_five(rt: HostRuntime) {
    let bases = [
        0x1000, 0x1100, 0x1200, 0x1300, 0x1400, 0x1500, 0x1600, 0x1700, 0x1800, 0x1900,
    ];
    let node = leaf(&rt, 0, u64::MAX, &bases);
    assert!(rt; is_leaf(&node) && node.entries().len() == 10);
    let (left, right) = split_leaf(&node);
    assert!(rt; left.entries().len() == 5 && right.entries().len() == 5);
    assert!(rt; left.high == 0x140f && right.low == 0x1410 && right.high == u64::MAX);
}

#[test]
fn four_and_nine_become_six_and_seven(rt: HostRuntime) {
    let left = leaf(&rt, 0, 0xfff, &FOUR);
    let right = leaf(&rt, 0x1000, 0x2000, &NINE);
    assert!(rt; left.level == right.level && left.high < right.low && left.high + 1 == right.low);
    assert!(rt; overfill(&left, &right) && in_order(&left) && in_order(&right));
    let (left, right) = even_pair(&left, &right);
    assert!(rt; left.entries().len() == 6 && right.entries().len() == 7);
    assert!(rt; left.high == 0x110f && right.low == 0x1110);
}

#[test]
fn four_and_five_are_joined_to_nine(rt: HostRuntime) {
    let left = leaf(&rt, 0, 0xfff, &FOUR);
    let right = leaf(&rt, 0x1000, 0x2000, &FIVE);
    assert!(rt; fit(&left, &right));
    let node = join_pair(&left, &right);
    assert!(rt; node.entries().len() == 9 && node.low == 0 && node.high == 0x2000);
}

#[test]
fn what_a_leaf_holds_at_an_address_and_in_a_span(rt: HostRuntime) {
    let node = leaf(&rt, 0, u64::MAX, &[0x1000, 0x1100, 0x1200]);
    assert!(rt; is_leaf(&node) && in_order(&node));
    let second = Some(member(&rt, 0x1100, 0x10));
    assert!(rt; leaf_slot(&node, 0x1108) == second && leaf_slot(&node, 0x1110).is_none());
    let (wide, between) = (member(&rt, 0x1080, 0x200), member(&rt, 0x1010, 0x10));
    assert!(rt; first_overlap(&node, &wide.span) == second);
    assert!(rt; first_overlap(&node, &between.span).is_none());
}

// An inner node of level 1 over all addresses whose children 1 to 15 have 1000 (hexadecimal) each.
fn node_of_fifteen(rt: &impl Abort) -> Node {
    let mut inner = node_of_one(rt, 1);
    for child in 2u32..16 {
        assert!(rt; is_inner(&inner));
        assert!(rt; inner.pairs().len() > 0 && inner.pairs().len() < 15);
        let last = inner.pairs().len() - 1;
        inner = put_pair(&inner, last, 0x1000 * child as u64 - 1, child);
    }
    inner
}

#[test]
fn a_fence_is_its_lower_childs(rt: HostRuntime) {
    let inner = node_of_fifteen(&rt);
    assert!(rt; is_inner(&inner) && inner.pairs().len() == 15);
    assert!(rt; slot_of(&rt, &inner, 0x1fff) == 0);
    assert!(rt; slot_of(&rt, &inner, 0x2000) == 1);
}

// The halves of that node, of which the lower one has seven pairs.
fn halves(rt: &impl Abort) -> (Node, Node) {
    let inner = node_of_fifteen(rt);
    assert!(rt; is_inner(&inner) && inner.pairs().len() == 15);
    assert!(rt; in_order(&inner));
    split_inner(&inner)
}

#[test]
fn a_fence_between_two_halves_is_moved(rt: HostRuntime) {
    let (left, right) = halves(&rt);
    assert!(rt; left.pairs().len() == 7 && left.high == 0x7fff && right.pairs().len() == 8);
    assert!(rt; 0x8800 < right.high);
    let (left, right) = move_fence(&left, &right, 0x8800);
    assert!(rt; left.high == 0x8800 && right.low == 0x8801);
    assert!(rt; is_inner(&left) && left.pairs().len() == 7);
    assert!(rt; left.pairs()[6].separator == 0x8800);
}

#[test]
fn a_pair_goes_and_a_separator_changes(rt: HostRuntime) {
    let (left, _) = halves(&rt);
    assert!(rt; is_inner(&left) && left.pairs().len() == 7);
    assert!(rt; drop_pair(&left, 0).pairs().len() == 6);
    let moved = set_separator(&left, 0, 0x1000);
    assert!(rt; moved.pairs().len() == 7);
    assert!(rt; moved.pairs()[0].child == 1 && moved.pairs()[0].separator == 0x1000);
}

// An inner node of level 1 over all addresses with one pair.
fn node_of_one(rt: &impl Abort, child: u32) -> Node {
    let empty = Node::empty_leaf(0, u64::MAX);
    assert!(rt; empty.level < 12);
    lift_root(&empty, child).0
}

// A plain tree: an array of nodes, of which node 0 is the root.

fn node<'a>(rt: &impl Abort, nodes: &'a [Node], number: u32) -> &'a Node {
    assert!(rt; (number as usize) < nodes.len());
    &nodes[number as usize]
}

fn set(rt: &impl Abort, nodes: &mut [Node], number: u32, node: Node) {
    assert!(rt; (number as usize) < nodes.len());
    nodes[number as usize] = node;
}

fn child_at(rt: &impl Abort, node: &Node, slot: usize) -> u32 {
    assert!(rt; slot < node.pairs().len());
    node.pairs()[slot].child
}

fn slot_of(rt: &impl Abort, node: &Node, pc: u64) -> usize {
    assert!(rt; is_inner(node));
    assert!(rt; in_order(node));
    assert!(rt; node.low <= pc && pc <= node.high);
    inner_slot(node, pc)
}

fn is_full(node: &Node) -> bool {
    node.entries().len() == 10 || node.pairs().len() == 15
}

// Splits the child at a slot of a node that has room.
fn split_child(
    rt: &impl Abort,
    nodes: &mut Vec<Node>,
    parent: u32,
    slot: usize,
) -> Result<(), Fail> {
    let fresh = nodes.len();
    assert!(rt; fresh < 100);
    let child = child_at(rt, node(rt, nodes.as_slice(), parent), slot);
    let full = node(rt, nodes.as_slice(), child);
    let (left, right) = if is_leaf(full) {
        assert!(rt; full.entries().len() == 10);
        split_leaf(full)
    } else {
        assert!(rt; is_inner(full));
        assert!(rt; full.pairs().len() == 15);
        assert!(rt; in_order(full));
        split_inner(full)
    };
    let above = node(rt, nodes.as_slice(), parent);
    assert!(rt; is_inner(above));
    assert!(rt; slot < above.pairs().len() && above.pairs().len() < 15);
    let above = put_pair(above, slot, left.high, fresh as u32);
    set(rt, nodes.as_mut_slice(), parent, above);
    set(rt, nodes.as_mut_slice(), child, left);
    nodes.push(right)?;
    Ok(())
}

fn insert(rt: &impl Abort, nodes: &mut Vec<Node>, member: &Member) -> Result<(), Fail> {
    if is_full(node(rt, nodes.as_slice(), 0)) {
        let fresh = nodes.len();
        assert!(rt; fresh < 100);
        let top = node(rt, nodes.as_slice(), 0);
        assert!(rt; top.level < 12);
        let (root, moved) = lift_root(top, fresh as u32);
        set(rt, nodes.as_mut_slice(), 0, root);
        nodes.push(moved)?;
        split_child(rt, nodes, 0, 0)?;
    }
    let mut at = 0;
    for _ in 0..13 {
        if is_leaf(node(rt, nodes.as_slice(), at)) {
            break;
        }
        let slot = slot_of(rt, node(rt, nodes.as_slice(), at), member.span.first());
        let child = child_at(rt, node(rt, nodes.as_slice(), at), slot);
        if is_full(node(rt, nodes.as_slice(), child)) {
            split_child(rt, nodes, at, slot)?;
        }
        let slot = slot_of(rt, node(rt, nodes.as_slice(), at), member.span.first());
        at = child_at(rt, node(rt, nodes.as_slice(), at), slot);
    }
    let leaf = node(rt, nodes.as_slice(), at);
    assert!(rt; is_leaf(leaf));
    assert!(rt; leaf.entries().len() < 10);
    let leaf = put_entry(leaf, member);
    set(rt, nodes.as_mut_slice(), at, leaf);
    Ok(())
}

// Joins a small child with its neighbour, or shares evenly; the root sinks over its last two
// children.
fn mend(rt: &impl Abort, nodes: &mut [Node], parent: u32, slot: usize) {
    let above = node(rt, nodes, parent);
    let pairs = above.pairs().len();
    let first = if slot < pairs && slot + 1 < pairs {
        slot
    } else {
        slot.saturating_sub(1)
    };
    assert!(rt; first < 15);
    let left_number = child_at(rt, above, first);
    let right_number = child_at(rt, above, first + 1);
    let left = node(rt, nodes, left_number);
    let right = node(rt, nodes, right_number);
    if !fit(left, right) {
        assert!(rt;
            left.level == right.level && left.high < right.low && left.high + 1 == right.low
        );
        assert!(rt; overfill(left, right));
        assert!(rt; in_order(left));
        assert!(rt; in_order(right));
        let (left, right) = even_pair(left, right);
        assert!(rt; is_inner(above));
        assert!(rt; first < above.pairs().len());
        let above = set_separator(above, first, left.high);
        set(rt, nodes, parent, above);
        set(rt, nodes, left_number, left);
        set(rt, nodes, right_number, right);
    } else if parent == 0 && pairs == 2 {
        let root = sink_root(above, left, right);
        set(rt, nodes, 0, root);
    } else {
        assert!(rt; is_inner(above));
        assert!(rt; first + 1 < above.pairs().len());
        let joined = join_pair(left, right);
        let above = drop_pair(above, first);
        set(rt, nodes, parent, above);
        set(rt, nodes, left_number, joined);
    }
}

fn remove(rt: &impl Abort, nodes: &mut [Node], base: u64) -> Member {
    let mut at = 0;
    for _ in 0..26 {
        if is_leaf(node(rt, nodes, at)) {
            break;
        }
        let slot = slot_of(rt, node(rt, nodes, at), base);
        let child = node(rt, nodes, child_at(rt, node(rt, nodes, at), slot));
        if child.entries().len() + child.pairs().len() < if is_leaf(child) { 5 } else { 7 } {
            mend(rt, nodes, at, slot);
            if is_leaf(node(rt, nodes, at)) {
                break;
            }
        }
        let slot = slot_of(rt, node(rt, nodes, at), base);
        at = child_at(rt, node(rt, nodes, at), slot);
    }
    let leaf = node(rt, nodes, at);
    assert!(rt; is_leaf(leaf));
    assert!(rt; in_order(leaf));
    assert!(rt; holds(leaf.entries(), base));
    let (leaf, taken) = take_entry(leaf, base);
    set(rt, nodes, at, leaf);
    taken
}

// The first addresses of the entries below a node, from left to right.
fn collect(
    rt: &impl Abort,
    nodes: &[Node],
    number: u32,
    levels: u32,
    bases: &mut Vec<u64>,
) -> Result<(), Fail> {
    let node = node(rt, nodes, number);
    for entry in node.entries() {
        bases.push(entry.span.first())?;
    }
    if levels > 0 {
        for pair in node.pairs() {
            collect(rt, nodes, pair.child, levels - 1, bases)?;
        }
    }
    Ok(())
}

#[test]
fn a_plain_tree_holds_what_a_sorted_list_holds(rt: HostRuntime) -> Result<(), Fail> {
    let mut nodes = Vec::new(rt.alloc());
    nodes.push(Node::empty_leaf(0, u64::MAX))?;
    let mut sorted: Vec<u64> = Vec::new(rt.alloc());
    for range in 0..11u64 {
        let base = 0x1000 + 0x100 * range;
        insert(&rt, &mut nodes, &member(&rt, base, 0x10))?;
        sorted.push(base)?;
        let mut bases = Vec::new(rt.alloc());
        collect(&rt, nodes.as_slice(), 0, 12, &mut bases)?;
        assert_eq!(rt; bases.as_slice(), sorted.as_slice());
    }
    assert!(rt; node(&rt, nodes.as_slice(), 0).level == 1);
    for range in 0..10u64 {
        let base = 0x1000 + 0x100 * range;
        let taken = remove(&rt, nodes.as_mut_slice(), base);
        assert_eq!(rt; taken, member(&rt, base, 0x10));
        assert!(rt; sorted.len() > 0);
        let _ = sorted.remove(0);
        let mut bases = Vec::new(rt.alloc());
        collect(&rt, nodes.as_slice(), 0, 12, &mut bases)?;
        assert_eq!(rt; bases.as_slice(), sorted.as_slice());
    }
    assert!(rt; node(&rt, nodes.as_slice(), 0).level == 0);
    Ok(())
}
