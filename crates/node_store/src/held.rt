//! The words of nodes that a caller holds, read and written.
ghost use Rattle.std.specs.Prelude.{◌≡◌, ◌+◌, ◌<◌, length, IsSome, IsSomeAnd};
ghost use Rattle.word_rule.specs.Held.{held_of};
ghost use Rattle.word_rule.specs.NodeTells.{HolderTells};
ghost use Rattle.word_rule.specs.Places.{CONTENT_WORDS};
ghost use Rattle.word_rule.specs.Spelling.{spelled};
ghost use Rattle.word_rule.specs.Steps.{MayStore};
ghost use Rattle.node_store.specs.Holding.{AreHeld, IsLiveHeld, ReadsHeld, SpellsHeld};
ghost use Rattle.node_store.specs.Holding.{StoresHeld, WritesInOrder};
ghost use Rattle.node_store.specs.Sights.{after_words};

use crate::reading::CONTENT_WORDS;
use crate::shaping::node_in;
use crate::writing::{TURNS, node_fits, spell, store_in_turn, writes};
use tree_shape::Node;
use word_rule::{Caller, Words};

// Loads the words of a node, one after another: of a held one those that the log has.
#[tactic(auto, unfolding(crate::specs::Sights::after_words))]
fn load_words(words: &Words, me: &mut Caller, node: u32, loaded: &mut [u64; CONTENT_WORDS])
    requires table { me.old.table ≡ words.now.table }
    requires inside { node < words.now.terms.nodes }
    requires wide { length loaded.old ≡ CONTENT_WORDS }
    ensures wide { length loaded.new ≡ CONTENT_WORDS }
    ensures held { AreHeld node loaded.new CONTENT_WORDS me.old.log }
    ensures holder { HolderTells node me.old.log }
    ensures log { me.new
        ≡ record me.old { log = after_words node loaded.new CONTENT_WORDS me.old.log } }
{
    for at in 0..CONTENT_WORDS {
        loaded[at] = words.load_node(me, node, at as u32 + 1);
    }
}

/// The node that the words of a held node spell, as they are now. Where the node is live and no
/// word of it was stored, its children are nodes that there are.
pub fn read_held(words: &Words, me: &mut Caller, node: u32) -> Node
    requires table { me.old.table ≡ words.now.table }
    requires inside { node < words.now.terms.nodes }
    requires held { IsSomeAnd (held_of node me.old.log.holdings.held)
        (λ h. IsSome (spelled h.words)) }
    ensures reads { ReadsHeld node me.old me.new result }
    ensures live { IsLiveHeld node me.old.log result }
    ensures holdings { me.new.log.holdings ≡ me.old.log.holdings }
{
    let mut loaded = [0; CONTENT_WORDS];
    load_words(words, me, node, &mut loaded);
    node_in(&loaded)
}

/// Writes a node into one that is held. Only words that differ are stored, each once: the greatest
/// number first, and the count last of all. Afterwards its words spell the node.
pub fn write_held(words: &Words, me: &mut Caller, node: u32, content: &Node)
    requires table { me.old.table ≡ words.now.table }
    requires inside { node < words.now.terms.nodes }
    requires may { MayStore node me.old.log }
    ensures stores { StoresHeld node content.now me.old me.new }
    ensures order { WritesInOrder node content.now me.old.log }
    ensures spells { SpellsHeld node content.now me.new.log }
{
    node_fits(content);
    writes();
    let mut old = [0; CONTENT_WORDS];
    load_words(words, me, node, &mut old);
    let mut wanted = old;
    let reach = spell(content, &mut wanted);
    for turn in (CONTENT_WORDS - reach) as u32..TURNS {
        if let Some(store) = store_in_turn(&old, &wanted, turn) {
            words.store_node(me, node, store.at, store.value);
        }
    }
}
