//! The lift of the full root, which is split with it.
ghost use Rattle.std.specs.Prelude.{◌≡◌, ◌≢◌, ◌<◌, true, IfErr, MatchBool, OnOk};
ghost use Rattle.tree_shape.specs.declared.limits.TheConstants.{HIGHEST_LEVEL};
ghost use Rattle.tree_laws.specs.Steps.{IsFull};
ghost use Rattle.tree_laws.specs.Lawful.{IsOrdered};
ghost use Rattle.word_rule.specs.CallerData.{surplus};
ghost use Rattle.node_store.specs.Holding.{SpellsHeld};
ghost use Rattle.tree_descent.specs.Loads.{FoundNoRoom};
ghost use Rattle.tree_descent.specs.Paths.{StepsOnNodes};
ghost use Rattle.node_split.specs.Halves.{WritesRootParts};
ghost use Rattle.node_split.specs.Splits.{GivesBack, HoldsFullAlone, HoldsFullRoot, HoldsOneFree};
ghost use Rattle.node_split.specs.Splits.{IsRoomForRoot, LiftsRoot, LosesFree, StaysHeld};
ghost use Rattle.node_split.specs.Splits.{root_parts_for};

use crate::split::{Coupled, SplitNodes, halves, room_for, settled_split, ways_of};
use node_store::{Busy, Locking, give_free, write_held};
use tree_descent::{Held, content_of};
use tree_laws::laws;
use tree_shape::limits::HIGHEST_LEVEL;
use tree_shape::{lift_root, put_pair};
use word_rule::exchange::exchange_decided;
use word_rule::places::{COUNT, LEVEL};
use word_rule::{Caller, LockId, Words};

/// The full root, held, and the two free nodes that are out for its halves.
#[derive(Drop)]
pub struct FullRoot {
    pub root: Held,
    pub left: u32,
    pub right: u32,
}

/// The halves of the full root, and the root over them.
fn root_parts(words: &Words, me: &mut Caller, full: &FullRoot) -> SplitNodes
    requires table { me.old.table ≡ words.now.table }
    requires inside { full.now.root.node < words.now.terms.nodes }
    requires root { SpellsHeld full.now.root.node full.now.root.content me.old.log }
    requires ordered { IsOrdered full.now.root.content }
    requires is_full { IsFull full.now.root.content.body }
    requires height { full.now.root.content.level < HIGHEST_LEVEL }
    ensures parts { result ≡ root_parts_for full.now }
    ensures same { StepsOnNodes me.old me.new }
    ensures holdings { me.new.log.holdings ≡ me.old.log.holdings }
{
    let root = content_of(words, me, &full.root);
    let (left, right) = halves(&root);
    let (lifted, _) = lift_root(&root, full.left);
    let above = put_pair(&lifted, 0, left.high, full.right);
    SplitNodes { left, right, above }
}

/// Writes the halves of the full root, and the root over them.
fn write_root_parts(words: &Words, me: &mut Caller, full: &FullRoot, pc: u64) -> SplitNodes
    requires table { me.old.table ≡ words.now.table }
    requires held { HoldsFullRoot words.now.terms full.now pc me.old.log.holdings }
    ensures parts { result ≡ root_parts_for full.now }
    ensures written { WritesRootParts full.now me.old me.new }
{
    let _ = pc;
    // By this load it is known of which tree the root is.
    words.load_node(me, full.root.node, LEVEL);
    let parts = root_parts(words, me, full);
    write_held(words, me, full.left, &parts.left);
    write_held(words, me, full.right, &parts.right);
    write_held(words, me, full.root.node, &parts.above);
    parts
}

/// Lifts the full root by a level over its two halves, and lets go of the half that isn't on the
/// way to an address: with it all three nodes settle. So a settled root never has one child.
pub fn lift<L: Locking>(
    locking: &L,
    words: &Words,
    me: &mut Caller,
    full: &FullRoot,
    pc: u64,
) -> Coupled
    requires table { me.old.table ≡ words.now.table }
    requires terms { me.old.log.terms ≡ words.now.terms }
    requires held { HoldsFullRoot words.now.terms full.now pc me.old.log.holdings }
    requires surplus { 0 < surplus me.old }
    ensures { LiftsRoot words.now.terms full.now pc result me.old me.new }
{
    laws::split_root();
    laws::transfer();
    laws::widen();
    exchange_decided();
    let parts = write_root_parts(words, me, full, pc);
    let ways = ways_of(full.left, full.right, &parts, pc);
    locking.let_go(words, me, LockId::Node { node: ways.other });
    settled_split(words, me, full.root.node, ways.way)
}

/// Two free nodes.
#[derive(Clone, Copy)]
pub struct TwoNodes {
    pub left: u32,
    pub right: u32,
}

/// Whether the root has the highest level, so that it can't be lifted.
fn is_highest(root: &Held) -> bool
    ensures { MatchBool result (root.now.content.level ≡ HIGHEST_LEVEL)
        (root.now.content.level ≢ HIGHEST_LEVEL) }
{
    root.content.level() == HIGHEST_LEVEL
}

/// Loads the full root's count and then its level, which is the highest: so there is no room.
fn load_height(words: &Words, me: &mut Caller, root: &Held, pc: u64)
    requires table { me.old.table ≡ words.now.table }
    requires held { HoldsFullAlone words.now.terms root.now pc me.old.log.holdings }
    requires highest { root.now.content.level ≡ HIGHEST_LEVEL }
    ensures stays { StaysHeld me.old me.new }
    ensures cause { FoundNoRoom pc me.old me.new }
{
    let _ = pc;
    words.load_node(me, root.node, COUNT);
    words.load_node(me, root.node, LEVEL);
}

/// Gives back the one free node that was taken.
fn give_back<L: Locking>(locking: &L, words: &Words, me: &mut Caller, node: u32) -> Result<(), Busy>
    requires table { me.old.table ≡ words.now.table }
    requires inside { node < words.now.terms.nodes }
    requires held { HoldsOneFree node me.old.log.holdings }
    requires surplus { 0 < surplus me.old }
    ensures ok { OnOk result (GivesBack me.old me.new) }
    ensures lost { IfErr result (λ e. LosesFree e me.old me.new × (L.gives_up ≡ true)) }
{
    exchange_decided();
    // By this load it is known that no lock of it is marked live.
    words.load_node(me, node, LEVEL);
    give_free(locking, words, me, node)
}

/// Takes two free nodes for the full root, or None where it can't be split: it has the highest
/// level, or none is free, or only one, which is given back. The loads say so then. Busy where
/// the free list moves too often and `locking` gives up.
pub fn room_for_root<L: Locking>(
    locking: &L,
    words: &Words,
    me: &mut Caller,
    root: &Held,
    pc: u64,
) -> Result<Option<TwoNodes>, Busy>
    requires table { me.old.table ≡ words.now.table }
    requires terms { me.old.log.terms ≡ words.now.terms }
    requires held { HoldsFullAlone words.now.terms root.now pc me.old.log.holdings }
    requires surplus { 0 < surplus me.old }
    ensures { IsRoomForRoot L.gives_up root.now pc me.old me.new result }
{
    if is_highest(root) {
        load_height(words, me, root, pc);
        return Ok(None);
    }
    let Some(left) = room_for(locking, words, me, root, pc)? else {
        return Ok(None);
    };
    match room_for(locking, words, me, root, pc) {
        Ok(Some(right)) => Ok(Some(TwoNodes { left, right })),
        Ok(None) => match give_back(locking, words, me, left) {
            Ok(()) => Ok(None),
            Err(lost) => Err(lost),
        },
        Err(busy) => match give_back(locking, words, me, left) {
            Ok(()) => Err(busy),
            Err(lost) => Err(lost),
        },
    }
}
