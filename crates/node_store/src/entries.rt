//! The entries of a held leaf, found and changed in their places.
//!
//! An update of a leaf changes one entry, and moves those behind it by one. So the entries from
//! that place on are loaded, each once, and stored again where they differ: the whole node is
//! known to the logic alone. The stores are those by which `write_held` writes the leaf, in their
//! order.
ghost use Rattle.std.specs.Prelude.{◌≡◌, ◌+◌, ◌-◌, ◌*◌, ◌^◌, ◌<◌, ◌≤◌, length, IsSome, Some};
ghost use Rattle.std.specs.Prelude.{slice_get, if◌then◌else◌};
ghost use Rattle.reg_model.specs.SpanData.{IsSpan};
ghost use Rattle.tree_shape.specs.NodeData.{IsLeaf, entries_of, place_for};
ghost use Rattle.tree_shape.specs.declared.limits.TheConstants.{ENTRIES};
ghost use Rattle.word_rule.specs.Held.{held_of};
ghost use Rattle.word_rule.specs.NodeTells.{HolderTells};
ghost use Rattle.word_rule.specs.Steps.{MayStore};
ghost use Rattle.node_store.specs.Entries.{AreOfEntry, HasEntryWords, leaf_with, leaf_without};
ghost use Rattle.node_store.specs.Entries.{member_of_words, store_over, stores_over};
ghost use Rattle.node_store.specs.Entries.{words_of_entry};
ghost use Rattle.node_store.specs.Holding.{SpellsHeld, StoresHeld, WritesInOrder};
ghost use Rattle.node_store.specs.Holding.{after_node_stores};
ghost use Rattle.node_store.specs.Outlines.{OnlyLoads};

use crate::outline::Outline;
use crate::reading;
use crate::writing::{Store, writes};
use reg_model::{Member, Span};
use tree_shape::ENTRIES;
use word_rule::{Caller, Words};

// Where the count and the first entry stand in a node, and how far on the next entry does.
const COUNT: u32 = reading::COUNT as u32;

const FIRST: u32 = reading::FIRST as u32;

const ENTRY_WORDS: u32 = reading::ENTRY_WORDS as u32;

/// A member, and the place that it has among the entries of a leaf.
#[derive(Clone, Copy, Debug, PartialEq, Eq)]
pub struct Placed {
    pub place: usize,
    pub member: Member,
}

// The words of an entry, and the number of the first of them in its node.
#[derive(Clone, Copy)]
struct EntryWords {
    at: u32,
    base: u64,
    size: u64,
    payload: u64,
}

impl EntryWords {
    // The words that a member is to have.
    fn of(at: u32, member: &Member) -> EntryWords
        ensures words { result ≡ words_of_entry at member.now }
        ensures span { IsSpan member.now.span }
        ensures payload { member.now.payload < 2 ^ 32 }
    {
        let span = &member.span;
        EntryWords {
            at,
            base: span.first(),
            size: span.last() - span.first() + 1,
            payload: member.payload as u64,
        }
    }

    // The member that they are.
    fn member(self) -> Member
        requires { AreOfEntry self }
        ensures { result ≡ member_of_words self }
    {
        let Some(span) = Span::new(self.base, self.size) else {
            unreachable!()
        };
        let payload = self.payload as u32;
        Member { span, payload }
    }
}

// Where the entry at a place begins.
fn at_entry(place: usize) -> u32
    requires { place ≤ ENTRIES }
    ensures { result ≡ 6 + 3 * place }
{
    FIRST + ENTRY_WORDS * place as u32
}

// Loads the words of an entry of a held node, or those that stand behind the last one.
#[inline(always)]
fn load_entry(words: &Words, me: &mut Caller, node: u32, at: u32) -> EntryWords
    requires table { me.old.table ≡ words.now.table }
    requires inside { node < words.now.terms.nodes }
    requires word { (6 ≤ at) × (at ≤ 33) }
    requires held { IsSome (held_of node me.old.log.holdings.held) }
    ensures at { result.at ≡ at }
    ensures words { HasEntryWords node result me.old.log }
    ensures holder { HolderTells node me.old.log }
    ensures loads { OnlyLoads me.old me.new }
{
    let base = words.load_node(me, node, at);
    let size = words.load_node(me, node, at + 1);
    let payload = words.load_node(me, node, at + 2);
    EntryWords {
        at,
        base,
        size,
        payload,
    }
}

// Stores a word of a held node, not its kind, where another stands there.
#[inline(always)]
fn store_word(words: &Words, me: &mut Caller, node: u32, old: u64, store: Store)
    requires table { me.old.table ≡ words.now.table }
    requires inside { node < words.now.terms.nodes }
    requires word { (5 ≤ store.at) × (store.at ≤ 35) }
    requires may { MayStore node me.old.log }
    ensures log { me.new
        ≡ record me.old { log = after_node_stores node (store_over old store) me.old.log } }
    ensures may { MayStore node me.new.log }
{
    if old != store.value {
        words.store_node(me, node, store.at, store.value);
    }
}

// Stores an entry's words over others, the greatest number first.
#[inline(always)]
fn store_entry(words: &Words, me: &mut Caller, node: u32, old: &EntryWords, new: &EntryWords)
    requires table { me.old.table ≡ words.now.table }
    requires inside { node < words.now.terms.nodes }
    requires word { (6 ≤ old.now.at) × (old.now.at ≤ 33) }
    requires may { MayStore node me.old.log }
    ensures log { me.new
        ≡ record me.old { log = after_node_stores node (stores_over old.now new.now) me.old.log } }
    ensures may { MayStore node me.new.log }
{
    let payload = Store {
        at: old.at + 2,
        value: new.payload,
    };
    store_word(words, me, node, old.payload, payload);
    let size = Store {
        at: old.at + 1,
        value: new.size,
    };
    store_word(words, me, node, old.size, size);
    let base = Store {
        at: old.at,
        value: new.base,
    };
    store_word(words, me, node, old.base, base);
}

// The number where a condition holds, and 0 where it doesn't: a product, and so no branch.
#[inline(always)]
fn where_holds(number: u32, holds: bool) -> u32
    ensures { result ≡ (if holds then number else 0) }
{
    number * u32::from(holds)
}

/// How many entries of a held leaf begin at or below the address, up to one that doesn't. All that
/// there is room for are looked at: so no branch depends on the address.
pub fn begun_in(words: &Words, me: &mut Caller, node: u32, outline: &Outline, pc: u64) -> usize
    requires table { me.old.table ≡ words.now.table }
    requires inside { node < words.now.terms.nodes }
    requires spells { SpellsHeld node outline.now me.old.log }
    requires leaf { IsLeaf outline.now }
    ensures begun { result ≡ place_for pc (entries_of outline.now) }
    ensures few { result ≤ length (entries_of outline.now) }
    ensures loads { OnlyLoads me.old me.new }
    ensures holdings { me.new.log.holdings ≡ me.old.log.holdings }
{
    let count = outline.count() as u32;
    let mut begun = 0;
    let mut ahead = 1;
    for place in 0..ENTRIES as u32 {
        let base = words.load_node(me, node, at_entry(place as usize));
        ahead = where_holds(ahead, base <= pc);
        begun += ahead;
    }
    begun.min(count) as usize
}

/// The entry at a place of a held leaf, by its words.
pub fn entry_of(
    words: &Words,
    me: &mut Caller,
    node: u32,
    outline: &Outline,
    place: usize,
) -> Member
    requires table { me.old.table ≡ words.now.table }
    requires inside { node < words.now.terms.nodes }
    requires spells { SpellsHeld node outline.now me.old.log }
    requires leaf { IsLeaf outline.now }
    requires place { place < length (entries_of outline.now) }
    ensures entry { slice_get (entries_of outline.now) place ≡ Some result }
    ensures loads { OnlyLoads me.old me.new }
    ensures holdings { me.new.log.holdings ≡ me.old.log.holdings }
{
    let _ = outline;
    load_entry(words, me, node, at_entry(place)).member()
}

/// Puts a member into a held leaf at its place. The entries from there on move by one.
pub fn put_in_place(words: &Words, me: &mut Caller, node: u32, outline: &Outline, placed: &Placed)
    requires table { me.old.table ≡ words.now.table }
    requires inside { node < words.now.terms.nodes }
    requires may { MayStore node me.old.log }
    requires spells { SpellsHeld node outline.now me.old.log }
    requires leaf { IsLeaf outline.now }
    requires place { placed.now.place ≤ length (entries_of outline.now) }
    requires room { length (entries_of outline.now) < ENTRIES }
    ensures stores { StoresHeld node (leaf_with placed.now.place placed.now.member outline.now)
        me.old me.new }
    ensures order { WritesInOrder node (leaf_with placed.now.place placed.now.member outline.now)
        me.old.log }
    ensures spells { SpellsHeld node (leaf_with placed.now.place placed.now.member outline.now)
        me.new.log }
{
    writes();
    let count = outline.count();
    let first = at_entry(placed.place);
    let mut old = load_entry(words, me, node, at_entry(count as usize));
    while first < old.at {
        let moved = load_entry(words, me, node, old.at - ENTRY_WORDS);
        store_entry(words, me, node, &old, &moved);
        old = moved;
    }
    let put = EntryWords::of(first, &placed.member);
    store_entry(words, me, node, &old, &put);
    let counted = Store {
        at: COUNT,
        value: count + 1,
    };
    store_word(words, me, node, count, counted);
}

/// Cuts the entry at a place out of a held leaf: that entry. The entries behind it move by one.
pub fn cut_in_place(
    words: &Words,
    me: &mut Caller,
    node: u32,
    outline: &Outline,
    place: usize,
) -> Member
    requires table { me.old.table ≡ words.now.table }
    requires inside { node < words.now.terms.nodes }
    requires may { MayStore node me.old.log }
    requires spells { SpellsHeld node outline.now me.old.log }
    requires leaf { IsLeaf outline.now }
    requires place { place < length (entries_of outline.now) }
    ensures entry { slice_get (entries_of outline.now) place ≡ Some result }
    ensures stores { StoresHeld node (leaf_without place outline.now) me.old me.new }
    ensures order { WritesInOrder node (leaf_without place outline.now) me.old.log }
    ensures spells { SpellsHeld node (leaf_without place outline.now) me.new.log }
{
    writes();
    let count = outline.count();
    let first = at_entry(place);
    let mut later = load_entry(words, me, node, at_entry(count as usize - 1));
    while first < later.at {
        let old = load_entry(words, me, node, later.at - ENTRY_WORDS);
        store_entry(words, me, node, &old, &later);
        later = old;
    }
    let counted = Store {
        at: COUNT,
        value: count - 1,
    };
    store_word(words, me, node, count, counted);
    later.member()
}
