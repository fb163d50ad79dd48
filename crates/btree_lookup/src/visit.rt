//! The way down from the root, a node at a time.
//!
//! A sight of each node is begun when its version is first loaded. It is marked live when the
//! parent's version is found again, since the parent then still named the node. Nothing that was
//! loaded of a node is trusted before its own version is found again.
ghost use Rattle.std.specs.Prelude.{◌≡◌, ◌≢◌, ℕ, ◌+◌, ◌<◌, ◌≤◌, [], IfOk, IfErr, IfSome, IsNone};
ghost use Rattle.std.specs.Prelude.{IsOk, if◌then◌else◌};
ghost use Rattle.reg_model.specs.declared.answer.Again.TheVariants.{Changed, Locked};
ghost use Rattle.word_rule.specs.CallerData.{CallerData};
ghost use Rattle.word_rule.specs.Callers.{IsAlone};
ghost use Rattle.word_rule.specs.Places.{TOP, node_place};
ghost use Rattle.btree_lookup.specs.Tries.{EndsOnWay};
ghost use Rattle.btree_lookup.specs.Visits.{IsInSight, SeesBelow, SeesChild, SeesCount};
ghost use Rattle.btree_lookup.specs.Visits.{SeesNone, Way};

use reg_model::Again;
use std::ops::Range;
use tree_shape::PAIRS;
use tree_shape::limits::HIGHEST_LEVEL;
use word_rule::places::{FIRST, LEVEL, PAIR_WORDS};
use word_rule::{Ask, FIRST_NODE, Looker, NODE_WORDS, Words};

/// The first child of an inner node, and its first separator. The next pair stands two words on.
const CHILD: u32 = FIRST;

const SEPARATOR: u32 = FIRST + 1;

/// How many separators are looked at before the others are loaded.
const HALF: u32 = 8;

/// A node on the way down: the version with which the sight of it began, and its level.
#[derive(Clone, Copy)]
pub struct Visit {
    pub node: u32,
    pub version: u64,
    pub level: u64,
}

/// Where the version word of a node stands. There are few nodes, so it is a number of 32 bits.
fn version_word(words: &Words, node: u32) -> u32
    requires { node < words.now.terms.nodes }
    ensures { result ≡ node_place node }
{
    let _few = words.nodes();
    FIRST_NODE as u32 + NODE_WORDS as u32 * node
}

/// A node's version was found locked.
fn locked(words: &Words, node: u32, seen: u64) -> Again
    requires { node < words.now.terms.nodes }
    ensures { result ≡ Locked (node_place node) seen }
{
    Again::Locked {
        word: version_word(words, node),
        seen,
    }
}

/// A node's version is another one than that of the visit.
pub(crate) fn changed(words: &Words, visit: Visit, second: u64) -> Again
    requires { visit.node < words.now.terms.nodes }
    ensures { result ≡ Changed (node_place visit.node) visit.version second }
{
    Again::Changed {
        word: version_word(words, visit.node),
        first: visit.version,
        second,
    }
}

/// The root, where the way down begins.
pub fn root<L: Looker>(words: &Words, me: &mut L) -> Result<Visit, Again>
    requires table { (L.known me.old).table ≡ words.now.table }
    ensures table { (L.known me.new).table ≡ (L.known me.old).table }
    ensures inside { IfOk result (λ visit. visit.node < words.now.terms.nodes) }
    ensures ok { (pc : ℕ) → pc ≤ TOP
        → IfOk result (λ visit. Way words.now.terms pc (L.known me.old) visit (L.known me.new)) }
    ensures err { (pc : ℕ)
        → IfErr result
        (λ again. EndsOnWay words.now.terms pc (L.known me.old) again (L.known me.new)) }
    ensures alone { IsAlone (L.known me.old).log.lineage → (L.known me.old).log.holdings.held ≡ []
        → IsOk result }
{
    let _some = words.nodes();
    let version = me.begin_sight(words, 0);
    if version % 2 != 0 {
        return Err(locked(words, 0, version));
    }
    let level = me.load_node(words, 0, LEVEL);
    let visit = Visit {
        node: 0,
        version,
        level,
    };
    if level > HIGHEST_LEVEL as u64 {
        let second = me.load_version(words, 0, Ask::Nothing);
        return Err(changed(words, visit, second));
    }
    Ok(visit)
}

/// All of a number where something holds, else 0, without a branch.
#[inline(always)]
pub(crate) fn where_holds(number: u32, holds: bool) -> u32
    ensures { result ≡ (if holds then number else 0) }
{
    number * u32::from(holds)
}

/// The first of these slots whose separator is at least the address, or their end. All of them are
/// looked at, also those behind the count: so no branch depends on the address.
#[inline(always)]
fn below<L: Looker>(words: &Words, me: &mut L, visit: Visit, pc: u64, slots: Range<u32>) -> u32
    requires table { (L.known me.old).table ≡ words.now.table }
    requires inside { visit.node < words.now.terms.nodes }
    requires slots { (slots.start ≤ slots.end) × (slots.end ≤ 15) }
    ensures table { (L.known me.new).table ≡ (L.known me.old).table }
    ensures few { result ≤ slots.end }
    ensures below { (k : CallerData) → (count : ℕ)
        → SeesBelow words.now.terms pc k visit count slots.start slots.start (L.known me.old)
        → SeesBelow words.now.terms pc k visit count slots.end result (L.known me.new) }
{
    let mut slot = slots.start;
    let mut ahead = 1;
    for at in slots.start..slots.end {
        let separator = me.load_node(words, visit.node, SEPARATOR + PAIR_WORDS * at);
        ahead = where_holds(ahead, separator < pc);
        slot += ahead;
    }
    slot
}

/// The first slot whose separator is at least the address, whatever the count says. The second half
/// is loaded only where all of the first are below it.
#[inline(always)]
fn slot_for<L: Looker>(words: &Words, me: &mut L, visit: Visit, pc: u64) -> u32
    requires table { (L.known me.old).table ≡ words.now.table }
    requires inside { visit.node < words.now.terms.nodes }
    ensures table { (L.known me.new).table ≡ (L.known me.old).table }
    ensures below { (k : CallerData) → (count : ℕ)
        → SeesBelow words.now.terms pc k visit count 0 0 (L.known me.old)
        → SeesBelow words.now.terms pc k visit count 15 result (L.known me.new) }
{
    let slot = below(words, me, visit, pc, 0..HALF);
    if slot < HALF {
        return slot;
    }
    below(words, me, visit, pc, HALF..PAIRS as u32)
}

/// The child of the first of so many pairs whose separator is at least the address. None where
/// there is no such pair, or where it names no other node below the root: then the version has
/// changed.
fn child_for<L: Looker>(words: &Words, me: &mut L, visit: Visit, count: u64, pc: u64) -> Option<u32>
    requires table { (L.known me.old).table ≡ words.now.table }
    requires inside { visit.node < words.now.terms.nodes }
    ensures table { (L.known me.new).table ≡ (L.known me.old).table }
    ensures inside { IfSome result (λ child. child < words.now.terms.nodes) }
    ensures child { (k : CallerData) → 0 < visit.level
        → SeesCount words.now.terms pc k visit count (L.known me.old)
        → IfSome result
        (λ child. SeesChild words.now.terms pc k visit count child (L.known me.new)) }
    ensures none { (k : CallerData) → 0 < visit.level
        → SeesCount words.now.terms pc k visit count (L.known me.old)
        → IsNone result → SeesNone words.now.terms pc k visit (L.known me.new) }
{
    if count > PAIRS as u64 {
        return None;
    }
    let slot = slot_for(words, me, visit, pc);
    if slot as u64 >= count {
        return None;
    }
    let child = me.load_node(words, visit.node, CHILD + PAIR_WORDS * slot);
    if child == 0 || child == visit.node as u64 || child >= words.nodes() as u64 {
        return None;
    }
    Some(child as u32)
}

/// From a node whose count was loaded to the child that the address leads to. The node stays in
/// sight: where it is locked at the visit's version, it has that count.
pub fn descend<L: Looker>(
    words: &Words,
    me: &mut L,
    visit: Visit,
    count: u64,
    pc: u64,
) -> Result<Visit, Again>
    requires table { (L.known me.old).table ≡ words.now.table }
    requires inside { visit.node < words.now.terms.nodes }
    requires above { 0 < visit.level }
    ensures table { (L.known me.new).table ≡ (L.known me.old).table }
    ensures inside { IfOk result (λ next. next.node < words.now.terms.nodes) }
    ensures level { IfOk result (λ next. next.level + 1 ≡ visit.level) }
    ensures ok { (k : CallerData) → SeesCount words.now.terms pc k visit count (L.known me.old)
        → IfOk result (λ next. Way words.now.terms pc k next (L.known me.new)) }
    ensures kept { (k : CallerData) → SeesCount words.now.terms pc k visit count (L.known me.old)
        → IfOk result
        (λ next. (next.node ≢ visit.node) × IsInSight pc visit count (L.known me.new)) }
    ensures err { (k : CallerData) → SeesCount words.now.terms pc k visit count (L.known me.old)
        → IfErr result (λ again. EndsOnWay words.now.terms pc k again (L.known me.new)) }
    ensures alone { (k : CallerData) → SeesCount words.now.terms pc k visit count (L.known me.old)
        → IsAlone k.log.lineage → k.log.holdings.held ≡ [] → IsOk result }
{
    let Some(node) = child_for(words, me, visit, count, pc) else {
        let second = me.load_version(words, visit.node, Ask::Nothing);
        return Err(changed(words, visit, second));
    };
    let version = me.begin_sight(words, node);
    if version % 2 != 0 {
        return Err(locked(words, node, version));
    }
    let second = me.load_version(words, visit.node, Ask::Nothing);
    if second != visit.version {
        return Err(changed(words, visit, second));
    }
    Ok(Visit {
        node,
        version,
        level: visit.level - 1,
    })
}
