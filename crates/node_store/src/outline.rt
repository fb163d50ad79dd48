//! Held nodes without their items: an outline, and the pairs of an inner node found by its words.
//!
//! Of a node on the way down an update wants the level, the number of items and one pair. So these
//! words alone are loaded, and what else the node holds is known to the logic.
ghost use Rattle.std.specs.Prelude.{◌≡◌, ◌+◌, ◌*◌, ◌<◌, ◌≤◌, IsSome};
ghost use Rattle.std.specs.Prelude.{IsSomeAnd, Some, length, slice_get};
ghost use Rattle.tree_shape.specs.declared.limits.TheConstants.{PAIRS};
ghost use Rattle.tree_shape.specs.NodeData.{InOrder, IsInFences, IsInner, pairs_of, slot_for};
ghost use Rattle.word_rule.specs.Held.{held_of, now_in};
ghost use Rattle.word_rule.specs.Spelling.{spelled};
ghost use Rattle.node_store.specs.Holding.{IsLiveHeld, SpellsHeld};
ghost use Rattle.node_store.specs.Outlines.{IsCountOf, OnlyLoads};

use crate::reading::{COUNT, FIRST, HIGH, LEVEL, PAIR_WORDS};
use std::marker::Model;
use std::snapshot::Snapshot;
use tree_shape::Pair;
use word_rule::{Caller, Words};

// The node that the words of a held one spell, which only clauses read.
#[derive(Drop)]
struct Shape {
    node: u32,
    seen: Snapshot<Caller>,
}

impl Model for Shape {
    ghost use Rattle.tree_shape.specs.NodeData.{NodeData};

    ghost Value = { NodeData };

    ghost use Rattle.word_rule.specs.Held.{now_in};

    ghost view = { λ s. now_in s.seen.value.log.holdings.held s.node };
}

/// A node of which the level and the number of items are at hand. Clauses see the whole node.
#[derive(Drop)]
pub struct Outline {
    level: u32,
    count: u64,
    shape: Snapshot<Shape>,
}

impl Model for Outline {
    ghost use Rattle.tree_shape.specs.NodeData.{NodeData};

    ghost Value = { NodeData };

    ghost use Rattle.node_store.specs.Outlines.{IsOutline};

    ghost view = { λ o. o.shape.value };

    ghost invariant = { λ o. IsOutline o.level o.count o.shape.value };
}

impl Outline {
    /// The node's level.
    pub fn level(&self) -> u32
        ensures { result ≡ self.now.level }
    {
        self.level
    }

    /// How many pairs or entries it has. Of a free node it is any number.
    pub fn count(&self) -> u64
        ensures { IsCountOf result self.now.body }
    {
        self.count
    }
}

// The outline of a held node with this level and count.
fn outlined(me: &Caller, node: u32, level: u32, count: u64) -> Outline
    requires level { level ≡ (now_in me.now.log.holdings.held node).level }
    requires count { IsCountOf count (now_in me.now.log.holdings.held node).body }
    ensures { result ≡ now_in me.now.log.holdings.held node }
{
    let shape = Shape {
        node,
        seen: Snapshot::of(me),
    };
    Outline {
        level,
        count,
        shape: Snapshot::of(&shape),
    }
}

/// The outline of a held node as its words are now: its level and its count are loaded. Where the
/// node is live and no word of it was stored, its children are nodes that there are.
pub fn outline_of(words: &Words, me: &mut Caller, node: u32) -> Outline
    requires table { me.old.table ≡ words.now.table }
    requires inside { node < words.now.terms.nodes }
    requires held { IsSomeAnd (held_of node me.old.log.holdings.held)
        (λ h. IsSome (spelled h.words)) }
    ensures spells { SpellsHeld node result me.old.log }
    ensures live { IsLiveHeld node me.old.log result }
    ensures loads { OnlyLoads me.old me.new }
    ensures holdings { me.new.log.holdings ≡ me.old.log.holdings }
{
    let level = words.load_node(me, node, LEVEL as u32);
    let count = words.load_node(me, node, COUNT as u32);
    outlined(me, node, level as u32, count)
}

// Where the pair at a slot begins.
fn at_pair(slot: usize) -> u32
    requires { slot ≤ PAIRS }
    ensures { result ≡ 6 + 2 * slot }
{
    (FIRST + PAIR_WORDS * slot) as u32
}

/// The place of the first pair of a held inner node whose separator is at least the address: its
/// child is the one that the address leads to. The separators up to it are loaded.
pub fn slot_of(words: &Words, me: &mut Caller, node: u32, outline: &Outline, pc: u64) -> usize
    requires table { me.old.table ≡ words.now.table }
    requires inside { node < words.now.terms.nodes }
    requires spells { SpellsHeld node outline.now me.old.log }
    requires inner { IsInner outline.now }
    requires ordered { InOrder outline.now }
    requires here { IsInFences pc outline.now }
    ensures first { result ≡ slot_for pc (pairs_of outline.now) }
    ensures found { result < length (pairs_of outline.now) }
    ensures loads { OnlyLoads me.old me.new }
    ensures holdings { me.new.log.holdings ≡ me.old.log.holdings }
{
    let count = outline.count() as u32;
    for slot in 0..count {
        if pc <= words.load_node(me, node, at_pair(slot as usize) + 1) {
            return slot as usize;
        }
    }
    unreachable!()
}

/// The pair at a slot of a held inner node, by its two words.
pub fn pair_of(words: &Words, me: &mut Caller, node: u32, outline: &Outline, slot: usize) -> Pair
    requires table { me.old.table ≡ words.now.table }
    requires inside { node < words.now.terms.nodes }
    requires spells { SpellsHeld node outline.now me.old.log }
    requires inner { IsInner outline.now }
    requires slot { slot < length (pairs_of outline.now) }
    ensures pair { slice_get (pairs_of outline.now) slot ≡ Some result }
    ensures loads { OnlyLoads me.old me.new }
    ensures holdings { me.new.log.holdings ≡ me.old.log.holdings }
{
    let _ = outline;
    let at = at_pair(slot);
    let child = words.load_node(me, node, at) as u32;
    let separator = words.load_node(me, node, at + 1);
    Pair { child, separator }
}

/// The high fence of a held node, by its word.
pub fn high_of(words: &Words, me: &mut Caller, node: u32, outline: &Outline) -> u64
    requires table { me.old.table ≡ words.now.table }
    requires inside { node < words.now.terms.nodes }
    requires spells { SpellsHeld node outline.now me.old.log }
    ensures high { result ≡ outline.now.high }
    ensures loads { OnlyLoads me.old me.new }
    ensures holdings { me.new.log.holdings ≡ me.old.log.holdings }
{
    let _ = outline;
    words.load_node(me, node, HIGH as u32)
}
