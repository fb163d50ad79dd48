//! The node that the words of a node spell.
//!
//! A node has 36 words. The first is its version; the 35 after it are its kind, its level, its two
//! fences, its count, and from word 6 on its pairs, its entries, or the next free node.
ghost use Rattle.std.specs.Prelude.{◌≡◌, ◌+◌, ◌≤◌, Some, None, option_map, IfSome, nat_le};
ghost use Rattle.std.specs.Prelude.{if◌then◌else◌};
ghost use Rattle.tree_shape.specs.NodeData.{Pairs, Entries};
ghost use Rattle.tree_shape.specs.Nodes.{body_of, IsCounted};
ghost use Rattle.tree_shape.specs.declared.limits.TheConstants.{PAIRS, ENTRIES};
ghost use Rattle.word_rule.specs.Spelling.{node_word, is_short, pair_at, pairs_at, entry_at};
ghost use Rattle.word_rule.specs.Spelling.{entries_at, is_entry_at, body_of_kind, spelled};

use reg_model::{Member, Span};
use tree_shape::{Content, ENTRIES, Node, PAIRS, Pair};
use word_rule::places::{self, FREE, INNER, LEAF};

/// The words of a node after its version word.
pub const CONTENT_WORDS: usize = 35;

/// The words of a node, by their numbers among those of an array.
pub const KIND: usize = places::KIND as usize;

pub const LEVEL: usize = places::LEVEL as usize;

pub const LOW: usize = places::LOW as usize;

pub const HIGH: usize = places::HIGH as usize;

pub const COUNT: usize = places::COUNT as usize;

/// Where the first pair, the first entry or the link stands.
pub const FIRST: usize = places::FIRST as usize;

/// The words of a pair: its child and its separator.
pub const PAIR_WORDS: usize = places::PAIR_WORDS as usize;

/// The words of an entry: its base, its size and its payload.
pub const ENTRY_WORDS: usize = places::ENTRY_WORDS as usize;

// The word of a node with this number.
pub(crate) fn word(words: &[u64; CONTENT_WORDS], at: usize) -> u64
    requires first { 1 ≤ at }
    requires last { at ≤ 35 }
    ensures { result ≡ node_word words.now at }
{
    words[at - 1]
}

// The number of 32 bits that a word is, if it is one.
fn short(value: u64) -> Option<u32>
    ensures { result ≡ (if is_short value then Some value else None) }
{
    u32::try_from(value).ok()
}

// The pair that stands at a word.
fn pair_in(words: &[u64; CONTENT_WORDS], at: usize) -> Option<Pair>
    requires first { 1 ≤ at }
    requires last { at ≤ 34 }
    ensures { result
        ≡ (if is_short (node_word words.now at) then Some (pair_at words.now at) else None) }
{
    let child = short(word(words, at))?;
    Some(Pair {
        child,
        separator: word(words, at + 1),
    })
}

// The entry that stands at a word.
fn entry_in(words: &[u64; CONTENT_WORDS], at: usize) -> Option<Member>
    requires first { 1 ≤ at }
    requires last { at ≤ 33 }
    ensures { result
        ≡ (if is_entry_at words.now at then Some (entry_at words.now at) else None) }
{
    let span = Span::new(word(words, at), word(words, at + 1))?;
    let payload = short(word(words, at + 2))?;
    Some(Member { span, payload })
}

// The count, where so many items have room.
fn count_in(words: &[u64; CONTENT_WORDS], room: usize) -> Option<u32>
    requires { room ≤ 35 }
    ensures { result ≡ (if nat_le (node_word words.now 5) room
        then Some (node_word words.now 5) else None) }
{
    let count = word(words, COUNT);
    if count <= room as u64 {
        Some(count as u32)
    } else {
        None
    }
}

// What an inner node with these words holds.
fn inner_in(words: &[u64; CONTENT_WORDS]) -> Option<Content>
    ensures value { option_map body_of result ≡ (if nat_le (node_word words.now 5) PAIRS
        then option_map Pairs (pairs_at words.now 6 (node_word words.now 5)) else None) }
    ensures counted { IfSome result IsCounted }
{
    let count = count_in(words, PAIRS)?;
    let mut pairs = [Pair {
        child: 0,
        separator: 0,
    }; PAIRS];
    for slot in 0..count as usize {
        pairs[slot] = pair_in(words, FIRST + PAIR_WORDS * slot)?;
    }
    Some(Content::Inner { count, pairs })
}

// What a leaf with these words holds.
fn leaf_in(words: &[u64; CONTENT_WORDS]) -> Option<Content>
    ensures value { option_map body_of result ≡ (if nat_le (node_word words.now 5) ENTRIES
        then option_map Entries (entries_at words.now 6 (node_word words.now 5)) else None) }
    ensures counted { IfSome result IsCounted }
{
    let count = count_in(words, ENTRIES)?;
    let unused = Member {
        span: Span::new(0, 1)?,
        payload: 0,
    };
    let mut entries = [unused; ENTRIES];
    for slot in 0..count as usize {
        entries[slot] = entry_in(words, FIRST + ENTRY_WORDS * slot)?;
    }
    Some(Content::Leaf { count, entries })
}

// What a free node with these words holds.
fn link_in(words: &[u64; CONTENT_WORDS]) -> Option<Content>
    ensures value { option_map body_of result ≡ body_of_kind words.now 2 0 }
    ensures counted { IfSome result IsCounted }
{
    let next = short(word(words, FIRST))?;
    Some(Content::Free { next })
}

// What the words say that the node holds.
fn content_in(words: &[u64; CONTENT_WORDS]) -> Option<Content>
    ensures value { option_map body_of result
        ≡ body_of_kind words.now (node_word words.now 1) (node_word words.now 5) }
    ensures counted { IfSome result IsCounted }
{
    match word(words, KIND) {
        INNER => inner_in(words),
        LEAF => leaf_in(words),
        FREE => link_in(words),
        _ => None,
    }
}

/// The node that the words after a node's version word spell, if they spell one.
pub fn node_of(words: &[u64; CONTENT_WORDS]) -> Option<Node>
    ensures { result ≡ spelled words.now }
{
    let level = short(word(words, LEVEL))?;
    let content = content_in(words)?;
    Some(Node {
        level,
        low: word(words, LOW),
        high: word(words, HIGH),
        content,
    })
}
