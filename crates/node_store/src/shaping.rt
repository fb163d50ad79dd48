//! The node of words that are known to spell one: nothing is asked of them again.
ghost use Rattle.std.specs.Prelude.{◌≡◌, ◌+◌, ◌^◌, ◌<◌, ◌≤◌, Some, IsSome, true};
ghost use Rattle.tree_shape.specs.Nodes.{body_of, IsCounted};
ghost use Rattle.word_rule.specs.Spelling.{node_word, pair_at, is_entry_at, entry_at};
ghost use Rattle.word_rule.specs.Spelling.{body_of_kind, spelled};

use crate::reading::{
    CONTENT_WORDS, COUNT, ENTRY_WORDS, FIRST, HIGH, KIND, LEVEL, LOW, PAIR_WORDS, word,
};
use reg_model::{Member, Span};
use tree_shape::{Content, ENTRIES, Node, PAIRS, Pair};
use word_rule::places::{INNER, LEAF};

// A word that is a number of 32 bits.
fn short_word(words: &[u64; CONTENT_WORDS], at: usize) -> u32
    requires first { 1 ≤ at }
    requires last { at ≤ 35 }
    requires short { node_word words.now at < 2 ^ 32 }
    ensures { result ≡ node_word words.now at }
{
    word(words, at) as u32
}

// The pair that stands at a word.
fn pair_from(words: &[u64; CONTENT_WORDS], at: usize) -> Pair
    requires first { 1 ≤ at }
    requires last { at ≤ 34 }
    requires short { node_word words.now at < 2 ^ 32 }
    ensures { result ≡ pair_at words.now at }
{
    Pair {
        child: short_word(words, at),
        separator: word(words, at + 1),
    }
}

// The entry that stands at a word.
fn entry_from(words: &[u64; CONTENT_WORDS], at: usize) -> Member
    requires first { 1 ≤ at }
    requires last { at ≤ 33 }
    requires entry { is_entry_at words.now at ≡ true }
    ensures { result ≡ entry_at words.now at }
{
    let Some(span) = Span::new(word(words, at), word(words, at + 1)) else {
        unreachable!()
    };
    Member {
        span,
        payload: short_word(words, at + 2),
    }
}

// What an inner node with these words holds.
fn inner_from(words: &[u64; CONTENT_WORDS]) -> Content
    requires { IsSome (body_of_kind words.now 0 (node_word words.now 5)) }
    ensures body { body_of_kind words.now 0 (node_word words.now 5) ≡ Some (body_of result) }
    ensures counted { IsCounted result }
{
    let count = short_word(words, COUNT);
    let mut pairs = [Pair {
        child: 0,
        separator: 0,
    }; PAIRS];
    for slot in 0..count as usize {
        pairs[slot] = pair_from(words, FIRST + PAIR_WORDS * slot);
    }
    Content::Inner { count, pairs }
}

// What a leaf with these words holds.
fn leaf_from(words: &[u64; CONTENT_WORDS]) -> Content
    requires { IsSome (body_of_kind words.now 1 (node_word words.now 5)) }
    ensures body { body_of_kind words.now 1 (node_word words.now 5) ≡ Some (body_of result) }
    ensures counted { IsCounted result }
{
    let count = short_word(words, COUNT);
    let Some(span) = Span::new(0, 1) else {
        unreachable!()
    };
    let unused = Member { span, payload: 0 };
    let mut entries = [unused; ENTRIES];
    for slot in 0..count as usize {
        entries[slot] = entry_from(words, FIRST + ENTRY_WORDS * slot);
    }
    Content::Leaf { count, entries }
}

// What a node with these words holds.
fn content_from(words: &[u64; CONTENT_WORDS]) -> Content
    requires { IsSome (body_of_kind words.now (node_word words.now 1) (node_word words.now 5)) }
    ensures body { body_of_kind words.now (node_word words.now 1) (node_word words.now 5)
        ≡ Some (body_of result) }
    ensures counted { IsCounted result }
{
    match word(words, KIND) {
        INNER => inner_from(words),
        LEAF => leaf_from(words),
        _ => Content::Free {
            next: short_word(words, FIRST),
        },
    }
}

/// The node that words spell which spell one.
pub(crate) fn node_in(words: &[u64; CONTENT_WORDS]) -> Node
    requires { IsSome (spelled words.now) }
    ensures { spelled words.now ≡ Some result }
{
    let level = short_word(words, LEVEL);
    let content = content_from(words);
    Node {
        level,
        low: word(words, LOW),
        high: word(words, HIGH),
        content,
    }
}
