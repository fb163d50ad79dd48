//! The words that a node is to have, and the stores that bring old words to them.
//!
//! Only words that differ are stored, each once: the greatest number first, and the count last.
ghost use Rattle.std.specs.Prelude.{◌≡◌, ◌+◌, ◌^◌, ◌<◌, ◌≤◌, ℕ, List, length};
ghost use Rattle.std.specs.List.{AllByRecursion};
ghost use Rattle.reg_model.specs.SpanData.{IsSpan};
ghost use Rattle.tree_shape.specs.NodeData.{NodeData};
ghost use Rattle.node_store.specs.Writing.{item_words, pair_words, entry_words};
ghost use Rattle.node_store.specs.Writing.{AreSpelledOver, spelled_entries, spelled_link};
ghost use Rattle.node_store.specs.Writing.{spelled_pairs};
ghost use Rattle.node_store.specs.Writing.{FitsWords, Write, place_in_turn, store_in_turn, stores};
ghost use Rattle.word_rule.specs.Places.{CONTENT_WORDS};

use crate::reading::{
    CONTENT_WORDS, COUNT, ENTRY_WORDS, FIRST, HIGH, KIND, LEVEL, LOW, PAIR_WORDS,
};
use reg_model::Member;
use tree_shape::{Content, Node, Pair};
use word_rule::places::{FREE, INNER, LEAF};

/// The turns of a write: each word after the version has one.
pub(crate) const TURNS: u32 = 35;

// The last turn, which is that of the count.
const LAST_TURN: u32 = 34;

// The words from the first item on.
const ITEM_WORDS: u32 = 30;

/// A word of a node that is stored: its number in the node, and what it becomes.
#[derive(Clone, Copy, Debug, PartialEq, Eq)]
pub struct Store {
    pub at: u32,
    pub value: u64,
}

// That a number of 32 bits is one, as its type has it. Here and below nothing is done.
fn number_fits(number: u32)
    ensures { number < 2 ^ 32 }
{}

// That children are numbers of 32 bits.
fn children_fit(pairs: &[Pair])
    ensures { AllByRecursion (λ p. p.child < 2 ^ 32) pairs.now }
{
    let mut left = pairs;
    while let [pair, rest @ ..] = left {
        number_fits(pair.child);
        left = rest;
    }
}

// That entries have spans, and payloads of 32 bits.
fn entries_fit(entries: &[Member])
    ensures { AllByRecursion (λ m. IsSpan m.span × (m.payload < 2 ^ 32)) entries.now }
{
    let mut left = entries;
    while let [entry, rest @ ..] = left {
        let _first = entry.span.first();
        number_fits(entry.payload);
        left = rest;
    }
}

// That the numbers of a node fit their words.
pub(crate) fn node_fits(node: &Node)
    ensures { FitsWords node.now }
{
    number_fits(node.level);
    match &node.content {
        Content::Inner { count, pairs } => children_fit(&pairs[..*count as usize]),
        Content::Leaf { count, entries } => entries_fit(&entries[..*count as usize]),
        Content::Free { next } => number_fits(*next),
    }
}

// Writes pairs over words: word 1 is the kind then, word 5 the count, and from word 6 on they
// stand. How many words matter.
fn spell_pairs(pairs: &[Pair], words: &mut [u64; CONTENT_WORDS]) -> usize
    requires wide { length words.old ≡ CONTENT_WORDS }
    requires room { length (pair_words pairs.now) ≤ 30 }
    ensures words { words.new ≡ spelled_pairs pairs.now words.old }
    ensures count { result ≡ 5 + length (pair_words pairs.now) }
{
    words[KIND - 1] = INNER;
    words[COUNT - 1] = pairs.len() as u64;
    let mut left = pairs;
    let mut place = FIRST - 1;
    while let [pair, rest @ ..] = left {
        words[place] = pair.child as u64;
        words[place + 1] = pair.separator;
        place += PAIR_WORDS;
        left = rest;
    }
    place
}

// Writes entries over words likewise.
fn spell_entries(entries: &[Member], words: &mut [u64; CONTENT_WORDS]) -> usize
    requires wide { length words.old ≡ CONTENT_WORDS }
    requires room { length (entry_words entries.now) ≤ 30 }
    ensures words { words.new ≡ spelled_entries entries.now words.old }
    ensures count { result ≡ 5 + length (entry_words entries.now) }
{
    words[KIND - 1] = LEAF;
    words[COUNT - 1] = entries.len() as u64;
    let mut left = entries;
    let mut place = FIRST - 1;
    while let [entry, rest @ ..] = left {
        let span = &entry.span;
        words[place] = span.first();
        words[place + 1] = span.last() - span.first() + 1;
        words[place + 2] = entry.payload as u64;
        place += ENTRY_WORDS;
        left = rest;
    }
    place
}

// Writes a free node's link over words likewise. Its count is none.
fn spell_link(next: u32, words: &mut [u64; CONTENT_WORDS]) -> usize
    requires wide { length words.old ≡ CONTENT_WORDS }
    ensures words { words.new ≡ spelled_link next words.old }
    ensures count { result ≡ 6 }
{
    words[KIND - 1] = FREE;
    words[FIRST - 1] = next as u64;
    FIRST
}

/// Writes a node over words, where any will do they stay. How many words matter: behind these any
/// will do.
pub(crate) fn spell(node: &Node, words: &mut [u64; CONTENT_WORDS]) -> usize
    requires wide { length words.old ≡ CONTENT_WORDS }
    requires fits { FitsWords node.now }
    ensures spells { AreSpelledOver node.now words.old words.new }
    ensures count { result ≡ 5 + length (item_words node.now.body) }
    ensures some { result ≤ 35 }
{
    words[LEVEL - 1] = node.level as u64;
    words[LOW - 1] = node.low;
    words[HIGH - 1] = node.high;
    match &node.content {
        Content::Inner { count, pairs } => spell_pairs(&pairs[..*count as usize], words),
        Content::Leaf { count, entries } => spell_entries(&entries[..*count as usize], words),
        Content::Free { next } => spell_link(*next, words),
    }
}

// The word whose turn it is.
fn place_in_turn(turn: u32) -> u32
    requires { turn < 35 }
    ensures { result ≡ place_in_turn turn }
{
    if turn < ITEM_WORDS {
        CONTENT_WORDS as u32 - turn
    } else if turn < LAST_TURN {
        LAST_TURN - turn
    } else {
        COUNT as u32
    }
}

/// The store of a turn, where the word whose turn it is isn't yet as it is to be.
pub(crate) fn store_in_turn(
    words: &[u64; CONTENT_WORDS],
    wanted: &[u64; CONTENT_WORDS],
    turn: u32,
) -> Option<Store>
    requires { turn < 35 }
    ensures { (s : NodeData) → AreSpelledOver s words.now wanted.now
        → result ≡ store_in_turn s words.now turn }
{
    let at = place_in_turn(turn);
    let value = wanted[at as usize - 1];
    if words[at as usize - 1] == value {
        return None;
    }
    Some(Store { at, value })
}

/// Whatever the words are, the stores of a node over them write it.
pub(crate) fn writes()
    ensures { (s : NodeData) (words : List ℕ) → length words ≡ CONTENT_WORDS → FitsWords s
        → Write s words (stores s words) }
{}
