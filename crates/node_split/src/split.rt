//! The split of a full child under its parent.
ghost use Rattle.std.specs.Prelude.{◌≡◌, ◌<◌, IsSome, IsSomeAnd, length, true};
ghost use Rattle.tree_shape.specs.Changes.{first_half, last_half};
ghost use Rattle.tree_shape.specs.NodeData.{InOrder, IsInFences, IsInner, pairs_of};
ghost use Rattle.tree_laws.specs.Steps.{IsFull, middle};
ghost use Rattle.tree_laws.specs.Lawful.{IsOrdered};
ghost use Rattle.tree_shape.specs.declared.limits.TheConstants.{PAIRS};
ghost use Rattle.word_rule.specs.NodeTells.{HolderTells};
ghost use Rattle.word_rule.specs.Held.{held_of};
ghost use Rattle.word_rule.specs.Spelling.{spelled};
ghost use Rattle.word_rule.specs.CallerData.{surplus};
ghost use Rattle.node_store.specs.Holding.{SpellsHeld};
ghost use Rattle.tree_descent.specs.Paths.{StepsOnNodes};
ghost use Rattle.node_split.specs.Halves.{WritesParts};
ghost use Rattle.node_split.specs.Splits.{HoldsFull, HoldsFullChild, IsRoomFor, SplitsChild};
ghost use Rattle.node_split.specs.Splits.{other_in, parts_for, way_in};

use node_store::{Busy, Locking, outline_of, take_free, write_held};
use tree_descent::{Held, content_of};
use tree_laws::laws;
use tree_shape::{Node, inner_slot, put_pair, split_inner, split_leaf};
use word_rule::exchange::exchange_decided;
use word_rule::places::{COUNT, LEVEL};
use word_rule::{Caller, LockId, Words};

/// Whether full nodes are split on the way down, or none was free for that.
#[derive(Clone, Copy, Debug, PartialEq, Eq)]
pub enum Room {
    Splitting,
    NoneFree,
}

/// A node that is held under its parent.
#[derive(Drop)]
pub struct Coupled {
    pub parent: Held,
    pub child: Held,
    pub room: Room,
}

/// A full child that is held under its parent, and the free node that is out for its last half.
#[derive(Drop)]
pub struct FullChild {
    pub parent: Held,
    pub child: Held,
    pub fresh: u32,
}

/// The halves of a full node.
pub(crate) fn halves(node: &Node) -> (Node, Node)
    requires ordered { IsOrdered node.now }
    requires full { IsFull node.now.body }
    ensures left { result.0 ≡ first_half (middle node.now.body) node.now }
    ensures right { result.1 ≡ last_half (middle node.now.body) node.now }
{
    if node.level == 0 {
        split_leaf(node)
    } else {
        split_inner(node)
    }
}

/// What the nodes of a split are to hold.
#[derive(Drop)]
pub(crate) struct SplitNodes {
    pub(crate) left: Node,
    pub(crate) right: Node,
    pub(crate) above: Node,
}

/// The halves of a full child, and its parent with a pair more.
fn parts_of(words: &Words, me: &mut Caller, full: &FullChild, pc: u64) -> SplitNodes
    requires table { me.old.table ≡ words.now.table }
    requires above { full.now.parent.node < words.now.terms.nodes }
    requires below { full.now.child.node < words.now.terms.nodes }
    requires parent { SpellsHeld full.now.parent.node full.now.parent.content me.old.log }
    requires child { SpellsHeld full.now.child.node full.now.child.content me.old.log }
    requires ordered { IsOrdered full.now.child.content }
    requires is_full { IsFull full.now.child.content.body }
    requires inner { IsInner full.now.parent.content }
    requires in_order { InOrder full.now.parent.content }
    requires here { IsInFences pc full.now.parent.content }
    requires room { length (pairs_of full.now.parent.content) < PAIRS }
    ensures parts { result ≡ parts_for full.now pc }
    ensures same { StepsOnNodes me.old me.new }
    ensures holdings { me.new.log.holdings ≡ me.old.log.holdings }
{
    let child = content_of(words, me, &full.child);
    let parent = content_of(words, me, &full.parent);
    let (left, right) = halves(&child);
    let slot = inner_slot(&parent, pc);
    let above = put_pair(&parent, slot, left.high, full.fresh);
    SplitNodes { left, right, above }
}

/// Writes the halves of a full child, and its parent with a pair more.
fn write_parts(words: &Words, me: &mut Caller, full: &FullChild, pc: u64) -> SplitNodes
    requires table { me.old.table ≡ words.now.table }
    requires held { HoldsFullChild words.now.terms full.now pc me.old.log.holdings }
    ensures parts { result ≡ parts_for full.now pc }
    ensures written { WritesParts full.now pc me.old me.new }
{
    // By this load it is known of which tree the nodes are.
    words.load_node(me, full.parent.node, LEVEL);
    let parts = parts_of(words, me, full, pc);
    write_held(words, me, full.fresh, &parts.right);
    write_held(words, me, full.parent.node, &parts.above);
    write_held(words, me, full.child.node, &parts.left);
    parts
}

/// The node of a split to which an address leads, and the other one.
#[derive(Clone, Copy)]
pub(crate) struct Ways {
    pub(crate) way: u32,
    pub(crate) other: u32,
}

/// Which of the nodes of two halves is on the way to an address, and which isn't.
pub(crate) fn ways_of(left: u32, right: u32, parts: &SplitNodes, pc: u64) -> Ways
    ensures way { result.way ≡ (way_in left right pc parts.now).node }
    ensures other { result.other ≡ other_in left right pc parts.now }
{
    if pc <= parts.left.high {
        Ways {
            way: left,
            other: right,
        }
    } else {
        Ways {
            way: right,
            other: left,
        }
    }
}

/// What a split left on the way, where it has settled: the node above, and the half for the
/// address.
pub(crate) fn settled_split(words: &Words, me: &mut Caller, above: u32, way: u32) -> Coupled
    requires table { me.old.table ≡ words.now.table }
    requires above { above < words.now.terms.nodes }
    requires below { way < words.now.terms.nodes }
    requires held_above { IsSomeAnd (held_of above me.old.log.holdings.held)
        (λ h. IsSome (spelled h.words)) }
    requires held_way { IsSomeAnd (held_of way me.old.log.holdings.held)
        (λ h. IsSome (spelled h.words)) }
    ensures parent { (result.parent.node ≡ above) × (result.parent.changed ≡ true) }
    ensures way { (result.child.node ≡ way) × (result.child.changed ≡ true) }
    ensures room { result.room ≡ Room.Splitting }
    ensures spells_parent { SpellsHeld above result.parent.content me.old.log }
    ensures spells_way { SpellsHeld way result.child.content me.old.log }
    ensures tells_parent { HolderTells above me.old.log }
    ensures tells_way { HolderTells way me.old.log }
    ensures same { StepsOnNodes me.old me.new }
    ensures holdings { me.new.log.holdings ≡ me.old.log.holdings }
{
    // By these loads it is known that both are at their places in the tree.
    words.load_node(me, way, LEVEL);
    words.load_node(me, above, LEVEL);
    let parent = Held {
        node: above,
        content: outline_of(words, me, above),
        changed: true,
    };
    let child = Held {
        node: way,
        content: outline_of(words, me, way),
        changed: true,
    };
    Coupled {
        parent,
        child,
        room: Room::Splitting,
    }
}

/// Splits a full child under its parent, and lets go of the half that isn't on the way to an
/// address: with it all three nodes settle.
pub fn split_child<L: Locking>(
    locking: &L,
    words: &Words,
    me: &mut Caller,
    full: &FullChild,
    pc: u64,
) -> Coupled
    requires table { me.old.table ≡ words.now.table }
    requires terms { me.old.log.terms ≡ words.now.terms }
    requires held { HoldsFullChild words.now.terms full.now pc me.old.log.holdings }
    requires surplus { 0 < surplus me.old }
    ensures { SplitsChild words.now.terms full.now pc result me.old me.new }
{
    laws::split();
    laws::transfer();
    laws::widen();
    exchange_decided();
    let parts = write_parts(words, me, full, pc);
    let ways = ways_of(full.child.node, full.fresh, &parts, pc);
    locking.let_go(words, me, LockId::Node { node: ways.other });
    settled_split(words, me, full.parent.node, ways.way)
}

/// Takes a free node for one that is full, on the way to an address, or None where none is free:
/// the loads of the full count and of the head say so then. Busy where the free list moves too
/// often and `locking` gives up.
pub fn room_for<L: Locking>(
    locking: &L,
    words: &Words,
    me: &mut Caller,
    full: &Held,
    pc: u64,
) -> Result<Option<u32>, Busy>
    requires table { me.old.table ≡ words.now.table }
    requires full { HoldsFull words.now.terms full.now pc me.old.log.holdings }
    ensures { IsRoomFor L.gives_up pc me.old me.new result }
{
    let _ = pc;
    words.load_node(me, full.node, COUNT);
    take_free(locking, words, me)
}
