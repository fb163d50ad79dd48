//! Sights of nodes: a version that wasn't locked, and the words that were loaded after it.
//!
//! Nothing that a sight has is trusted before its version is found again. Then its words are those
//! of one node that the tree once had, and had still when the version was found again.
ghost use Rattle.std.specs.Prelude.{◌≡◌, ◌≢◌, ◌+◌, ◌*◌, ◌<◌, IfOk, IsErr, length};
ghost use Rattle.word_rule.specs.Places.{node_place};
ghost use Rattle.node_store.specs.declared.sight.Sight.{Sight};
ghost use Rattle.node_store.specs.Sights.{Checks, IsKept, Peeks};

use crate::reading::{CONTENT_WORDS, node_of};
use reg_model::Again;
use tree_shape::Node;
use word_rule::{Ask, Caller, FIRST_NODE, LockId, NODE_WORDS, Words};

/// The words of a node that were loaded under a version.
#[derive(Clone, Copy, Debug, PartialEq, Eq)]
pub struct Sight {
    pub node: u32,
    pub version: u64,
    /// The words after the version, word 1 first.
    pub words: [u64; CONTENT_WORDS],
}

// Where the version word of a node stands in the table. There are few nodes, so it is a number of
// 32 bits.
fn place_of_node(words: &Words, node: u32) -> u32
    requires { node < words.now.terms.nodes }
    ensures { result ≡ node_place node }
{
    let _few = words.nodes();
    FIRST_NODE as u32 + NODE_WORDS as u32 * node
}

// That a node has so many words, as the array's type has it. Nothing is done.
fn all_words(words: &[u64; CONTENT_WORDS])
    ensures { length words.now ≡ 35 }
{}

/// Loads a node's version and its words. Locked where the version has bit 0 set, as it has where
/// the caller holds the node, with the word found.
#[tactic(auto, unfolding(crate::specs::Sights::after_words))]
pub fn peek(words: &Words, me: &mut Caller, node: u32) -> Result<Sight, Again>
    requires table { me.old.table ≡ words.now.table }
    requires inside { node < words.now.terms.nodes }
    ensures peeks { Peeks node me.old me.new result }
    ensures holdings { me.new.log.holdings ≡ me.old.log.holdings }
    ensures others { (s : Sight) → s.node ≢ node → IsKept me.old.log s → IsKept me.new.log s }
    ensures locked { IsErr result → (s : Sight) → IsKept me.old.log s → IsKept me.new.log s }
    ensures kept { IfOk result (λ sight. IsKept me.new.log sight) }
{
    let version = words.load_version(me, LockId::Node { node }, Ask::Nothing);
    if version % 2 != 0 {
        return Err(Again::Locked {
            word: place_of_node(words, node),
            seen: version,
        });
    }
    let mut loaded = [0; CONTENT_WORDS];
    for at in 0..CONTENT_WORDS {
        loaded[at] = words.load_node(me, node, at as u32 + 1);
    }
    Ok(Sight {
        node,
        version,
        words: loaded,
    })
}

/// The node that a sight is of, where its version still stands. Changed where it doesn't, with the
/// sight's version and the word found.
pub fn check(words: &Words, me: &mut Caller, sight: &Sight) -> Result<Node, Again>
    requires table { me.old.table ≡ words.now.table }
    requires inside { sight.now.node < words.now.terms.nodes }
    requires kept { IsKept me.old.log sight.now }
    ensures { Checks sight.now me.old me.new result }
{
    let node = sight.node;
    let version = words.load_version(me, LockId::Node { node }, Ask::Nothing);
    if version != sight.version {
        return Err(Again::Changed {
            word: place_of_node(words, node),
            first: sight.version,
            second: version,
        });
    }
    all_words(&sight.words);
    let Some(shape) = node_of(&sight.words) else {
        unreachable!()
    };
    Ok(shape)
}
