//! The nodes that an insertion keeps locked above the one at which it stands.
ghost use Rattle.std.specs.Prelude.{◌≡◌, ◌<◌, ◌≤◌, [], ◌∷◌, List, length, map};
ghost use Rattle.word_rule.specs.CallerData.{surplus};
ghost use Rattle.word_rule.specs.declared.log.Holding.{Holding};
ghost use Rattle.btree_change.specs.Kept.{HoldsPath, LeavesBelow, PopsLowest, as_changed};

use node_store::Locking;
use std::marker::Model;
use tree_descent::let_go_of;
use word_rule::{Caller, Words};

/// A node that is kept, and whether a word was stored under its lock.
#[derive(Clone, Copy, Debug)]
pub(crate) struct KeptNode {
    pub(crate) node: u32,
    pub(crate) changed: bool,
}

/// At most twelve nodes, one of each level above the leaves, from the lowest up. They stand at the
/// end of the array, the lowest at `lowest`, so that the list of them is what is left there.
#[derive(Drop)]
pub(crate) struct Path {
    nodes: [KeptNode; 12],
    lowest: usize,
}

impl Model for Path {
    ghost use Rattle.std.specs.Prelude.{List, drop, ◌≤◌};
    ghost use Rattle.btree_change.specs.declared.path.KeptNode.{KeptNode};

    ghost Value = { List KeptNode };

    ghost view = { λ p. drop p.lowest p.nodes };

    ghost invariant = { λ p. p.lowest ≤ 12 };
}

impl Path {
    /// One node.
    pub(crate) fn of(kept: KeptNode) -> Path
        ensures { result ≡ kept ∷ [] }
    {
        Path {
            nodes: [kept; 12],
            lowest: 11,
        }
    }

    /// Keeps a node below the others.
    pub(crate) fn push(&mut self, kept: KeptNode)
        requires { length self.old < 12 }
        ensures { self.new ≡ kept ∷ self.old }
    {
        self.lowest -= 1;
        self.nodes[self.lowest] = kept;
    }

    /// Takes the lowest node out.
    fn pop(&mut self) -> Option<KeptNode>
        ensures { PopsLowest self.old self.new result }
    {
        if self.lowest == 12 {
            return None;
        }
        let kept = self.nodes[self.lowest];
        self.lowest += 1;
        Some(kept)
    }

    /// Says of each node that a word was stored under its lock.
    pub(crate) fn change_all(&mut self)
        ensures { self.new ≡ map as_changed self.old }
    {
        if let Some(kept) = self.pop() {
            self.change_all();
            self.push(KeptNode {
                node: kept.node,
                changed: true,
            });
        }
    }
}

/// Lets go of the nodes of a path, of which each was changed or wasn't, as it says.
pub(crate) fn let_go_of_path<L: Locking>(
    locking: &L,
    words: &Words,
    me: &mut Caller,
    mut path: Path,
)
    requires table { me.old.table ≡ words.now.table }
    requires path { (below : List Holding)
        × HoldsPath words.now.terms path below me.old.log.holdings }
    requires surplus { length path ≤ surplus me.old }
    ensures { (below : List Holding) → HoldsPath words.now.terms path below me.old.log.holdings
        → LeavesBelow (length path) below me.old me.new }
{
    while let Some(kept) = path.pop() {
        let_go_of(locking, words, me, kept.node, kept.changed);
    }
}
