//! What a lookup needs of one that looks: it is the same of a caller and of a reader.
ghost use Rattle.std.specs.Prelude.{◌≡◌, ◌<◌, ◌≤◌, IfSome};
ghost use Rattle.word_rule.specs.Callers.{IsLockedAt};
ghost use Rattle.word_rule.specs.Clock.{AfterClock, MayAsk};
ghost use Rattle.word_rule.specs.Held.{held_of};
ghost use Rattle.word_rule.specs.NodeTells.{AloneTells, SightTells};
ghost use Rattle.word_rule.specs.Places.{copy_place, word_count};
ghost use Rattle.word_rule.specs.Sights.{after_copy_load, after_node_begin, after_node_load};
ghost use Rattle.word_rule.specs.Sights.{after_node_version};

use crate::caller::Caller;
use crate::log::{Ask, LockId};
use crate::readers::Reader;
use crate::words::Words;

/// One that may look: a caller, or a reader.
pub trait Looker {
    ghost use Rattle.word_rule.specs.CallerData.{CallerData};

    ghost known: { Self → CallerData };

    /// Loads a node's version, and begins a sight of it where it isn't locked.
    fn begin_sight(&mut self, words: &Words, node: u32) -> u64
        requires table { (known self.old).table ≡ words.now.table }
        requires inside { node < words.now.terms.nodes }
        ensures log { known self.new
            ≡ record (known self.old) { log = after_node_begin node result (known self.old).log } }
        ensures held { IfSome (held_of node (known self.old).log.holdings.held)
            (λ h. IsLockedAt h.version result) }
        ensures alone { AloneTells node result (known self.old).log };

    /// Loads a node's version, which begins a sight of it, or finds that the sight stands.
    fn load_version(&mut self, words: &Words, node: u32, ask: Ask) -> u64
        requires table { (known self.old).table ≡ words.now.table }
        requires inside { node < words.now.terms.nodes }
        ensures log { known self.new ≡ record (known self.old) {
          log = after_node_version ask node result (known self.old).log;
        } }
        ensures tells { ((known self.old).log.terms ≡ words.now.terms)
            × SightTells node result (known self.old).log }
        ensures alone { AloneTells node result (known self.old).log };

    /// Loads a word of a node.
    fn load_node(&mut self, words: &Words, node: u32, at: u32) -> u64
        requires table { (known self.old).table ≡ words.now.table }
        requires inside { node < words.now.terms.nodes }
        requires word { (1 ≤ at) × (at ≤ 35) }
        ensures log { known self.new ≡ record (known self.old) {
          log = after_node_load node at result (known self.old).log;
        } };

    /// Loads the clock.
    fn load_clock(&mut self, words: &Words, ask: Ask) -> u64
        requires table { (known self.old).table ≡ words.now.table }
        requires ask { MayAsk words.now.terms ask (known self.old).log }
        ensures log { AfterClock words.now.terms ask result (known self.old).log
            (known self.new).log }
        ensures rest { known self.new
            ≡ record (known self.old) { log = (known self.new).log } };

    /// Loads a word of a copy.
    fn load_copy(&mut self, words: &Words, at: u32) -> u64
        requires table { (known self.old).table ≡ words.now.table }
        requires copy { (copy_place words.now.terms 0 ≤ at) × (at < word_count words.now.terms) }
        ensures log { known self.new
            ≡ record (known self.old) { log = after_copy_load at result (known self.old).log } };
}

impl Looker for Caller {
    ghost known = { λ c. c };

    fn begin_sight(&mut self, words: &Words, node: u32) -> u64 {
        words.begin_sight(self, node)
    }

    fn load_version(&mut self, words: &Words, node: u32, ask: Ask) -> u64 {
        words.load_version(self, LockId::Node { node }, ask)
    }

    fn load_node(&mut self, words: &Words, node: u32, at: u32) -> u64 {
        words.load_node(self, node, at)
    }

    fn load_clock(&mut self, words: &Words, ask: Ask) -> u64 {
        words.load_clock(self, ask)
    }

    fn load_copy(&mut self, words: &Words, at: u32) -> u64 {
        words.load_copy(self, at)
    }
}

impl Looker for Reader {
    ghost known = { λ r. r };

    fn begin_sight(&mut self, words: &Words, node: u32) -> u64 {
        words.begin_reading(self, node)
    }

    fn load_version(&mut self, words: &Words, node: u32, ask: Ask) -> u64 {
        words.read_version(self, node, ask)
    }

    fn load_node(&mut self, words: &Words, node: u32, at: u32) -> u64 {
        words.read_node(self, node, at)
    }

    fn load_clock(&mut self, words: &Words, ask: Ask) -> u64 {
        words.read_clock(self, ask)
    }

    fn load_copy(&mut self, words: &Words, at: u32) -> u64 {
        words.read_copy(self, at)
    }
}
