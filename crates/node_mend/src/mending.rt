//! Two neighbouring children of a held node made into one, or given even shares; and the root that
//! takes the place of its only two.
ghost use Rattle.std.specs.Prelude.{◌≡◌, ◌+◌, ◌<◌, ◌||◌, true, IsTrue, IfOk, IfErr, OnOk, length};
ghost use Rattle.tree_shape.specs.Changes.{Fit, Overfill, joined};
ghost use Rattle.tree_shape.specs.NodeData.{IsInFences, pairs_of};
ghost use Rattle.word_rule.specs.CallerData.{surplus};
ghost use Rattle.tree_descent.specs.Paths.{StepsOnNodes};
ghost use Rattle.tree_descent.specs.Returns.{KeepsOut, ReturnsNode};
ghost use Rattle.node_mend.specs.Shares.{IsChosen, shares_for};
ghost use Rattle.node_mend.specs.Siblings.{HasPairToSpare, HoldsGone, HoldsSiblings, HoldsSunk};
ghost use Rattle.node_mend.specs.Siblings.{IsInEither, LeavesParent, MayGiveBack, MendsSiblings};
ghost use Rattle.node_mend.specs.Siblings.{SinksRoot, is_small_body, joined_above, sunk_root};

use crate::sibling::Siblings;
use node_store::{Busy, Locking, Outline, give_free, outline_of, write_held};
use tree_descent::{Held, content_of, let_go_of};
use tree_laws::laws;
use tree_shape::{Node, drop_pair, even_pair, join_pair, set_separator, sink_root};
use word_rule::exchange::exchange_decided;
use word_rule::places::{FREE, KIND, LEVEL, LINK};
use word_rule::{Caller, LockId, Words};

/// What two children and the node above them hold.
fn contents_of(words: &Words, me: &mut Caller, x: &Siblings) -> (Node, Node, Node)
    requires table { me.old.table ≡ words.now.table }
    requires held { HoldsSiblings words.now.terms x.now me.old.log.holdings }
    ensures left { result.0 ≡ x.now.left.content }
    ensures right { result.1 ≡ x.now.right.content }
    ensures above { result.2 ≡ x.now.above.content }
    ensures steps { StepsOnNodes me.old me.new }
    ensures holdings { me.new.log.holdings ≡ me.old.log.holdings }
{
    // By this load it is known that they are three nodes.
    words.load_node(me, x.right.node, LEVEL);
    let left = content_of(words, me, &x.left);
    let right = content_of(words, me, &x.right);
    let above = content_of(words, me, &x.above);
    (left, right, above)
}

/// Gives back a node that is out, where all else that is held has settled.
fn give_back<L: Locking>(locking: &L, words: &Words, me: &mut Caller, node: u32) -> Result<(), Busy>
    requires table { me.old.table ≡ words.now.table }
    requires inside { node < words.now.terms.nodes }
    requires may { MayGiveBack node me.old.log.holdings }
    requires surplus { 0 < surplus me.old }
    ensures ok { OnOk result (ReturnsNode node me.old me.new) }
    ensures lost { IfErr result (λ e. KeepsOut node e me.old me.new × (L.gives_up ≡ true)) }
{
    exchange_decided();
    give_free(locking, words, me, node)
}

/// Writes what two children hold into the left one, and makes the right one free: with that it has
/// left the tree. Their parent has one pair less.
fn join_into_left(words: &Words, me: &mut Caller, x: &Siblings, content: &Node, above: &Node)
    requires table { me.old.table ≡ words.now.table }
    requires terms { me.old.log.terms ≡ words.now.terms }
    requires held { HoldsSiblings words.now.terms x.now me.old.log.holdings }
    requires fit { Fit x.now.left.content x.now.right.content }
    requires spare { HasPairToSpare x.now }
    requires content { content.now ≡ joined x.now.left.content x.now.right.content }
    requires above { above.now ≡ joined_above x.now }
    ensures gone { HoldsGone words.now.terms x.now me.new.log.holdings }
    ensures same { StepsOnNodes me.old me.new }
{
    laws::join();
    laws::transfer();
    laws::widen();
    exchange_decided();
    // By this load it is known of which tree the nodes are.
    words.load_node(me, x.right.node, LEVEL);
    write_held(words, me, x.left.node, content);
    write_held(words, me, x.above.node, above);
    // A base above 2^32 in the place of the link would spell no node.
    words.store_node(me, x.right.node, LINK, 0);
    words.store_node(me, x.right.node, KIND, FREE);
}

/// Joins two children that fit into one node: the left one holds both, and the right one leaves the
/// tree and is given back.
pub fn join<L: Locking>(
    locking: &L,
    words: &Words,
    me: &mut Caller,
    x: &Siblings,
) -> Result<Held, Busy>
    requires table { me.old.table ≡ words.now.table }
    requires terms { me.old.log.terms ≡ words.now.terms }
    requires held { HoldsSiblings words.now.terms x.now me.old.log.holdings }
    requires fit { Fit x.now.left.content x.now.right.content }
    requires spare { HasPairToSpare x.now }
    requires surplus { 1 < surplus me.old }
    ensures mends { IfOk result
        (λ at. MendsSiblings words.now.terms x.now at me.old me.new
        × (at.content ≡ joined x.now.left.content x.now.right.content)) }
    ensures lost { IfErr result (λ e. LeavesParent x.now e me.old me.new × (L.gives_up ≡ true)) }
{
    let (left, right, parent) = contents_of(words, me, x);
    let both = join_pair(&left, &right);
    let above = drop_pair(&parent, x.slot);
    join_into_left(words, me, x, &both, &above);
    let node = x.left.node;
    if let Err(busy) = give_back(locking, words, me, x.right.node) {
        let_go_of(locking, words, me, node, true);
        return Err(busy);
    }
    words.load_node(me, node, LEVEL);
    let content = outline_of(words, me, node);
    Ok(Held {
        node,
        content,
        changed: true,
    })
}

/// What two children hold once they have even shares, and their parent.
#[derive(Drop)]
pub(crate) struct Shares {
    left: Node,
    right: Node,
    above: Node,
}

/// Even shares of two children that don't fit into one node.
fn shares_of(words: &Words, me: &mut Caller, x: &Siblings) -> Shares
    requires table { me.old.table ≡ words.now.table }
    requires held { HoldsSiblings words.now.terms x.now me.old.log.holdings }
    requires overfill { Overfill x.now.left.content x.now.right.content }
    ensures shares { result ≡ shares_for x.now }
    ensures steps { StepsOnNodes me.old me.new }
    ensures holdings { me.new.log.holdings ≡ me.old.log.holdings }
{
    let (first, last, parent) = contents_of(words, me, x);
    let (left, right) = even_pair(&first, &last);
    let above = set_separator(&parent, x.slot, left.high);
    Shares { left, right, above }
}

/// Of two children with even shares the one that has an address, and the other.
#[derive(Drop)]
struct Chosen {
    node: u32,
    other: u32,
}

/// Which of two children has an address once they have even shares.
fn choose(x: &Siblings, shares: &Shares, pc: u64) -> Chosen
    requires { shares.now ≡ shares_for x.now }
    ensures { IsChosen x.now pc result }
{
    if pc <= shares.left.high {
        Chosen {
            node: x.left.node,
            other: x.right.node,
        }
    } else {
        Chosen {
            node: x.right.node,
            other: x.left.node,
        }
    }
}

/// Gives two children that don't fit into one node even shares, and lets go of the one that hasn't
/// the address.
pub fn share<L: Locking>(locking: &L, words: &Words, me: &mut Caller, x: &Siblings, pc: u64) -> Held
    requires table { me.old.table ≡ words.now.table }
    requires terms { me.old.log.terms ≡ words.now.terms }
    requires held { HoldsSiblings words.now.terms x.now me.old.log.holdings }
    requires overfill { Overfill x.now.left.content x.now.right.content }
    requires small { IsTrue (is_small_body x.now.left.content.body
        || is_small_body x.now.right.content.body) }
    requires between { IsInEither pc x.now }
    requires surplus { 0 < surplus me.old }
    ensures mends { MendsSiblings words.now.terms x.now result me.old me.new }
    ensures fences { IsInFences pc result.content }
{
    laws::share();
    laws::transfer();
    laws::widen();
    exchange_decided();
    let shares = shares_of(words, me, x);
    // By this load it is known of which tree the nodes are.
    words.load_node(me, x.above.node, LEVEL);
    write_held(words, me, x.left.node, &shares.left);
    write_held(words, me, x.right.node, &shares.right);
    write_held(words, me, x.above.node, &shares.above);
    let chosen = choose(x, &shares, pc);
    locking.let_go(words, me, LockId::Node { node: chosen.other });
    let node = chosen.node;
    words.load_node(me, node, LEVEL);
    let content = outline_of(words, me, node);
    Held {
        node,
        content,
        changed: true,
    }
}

/// The level above that of a node.
fn next_level(node: &Outline) -> u64
    ensures { result ≡ node.now.level + 1 }
{
    node.level() as u64 + 1
}

/// Writes what the root's only two children hold into the root, and makes both leave the tree.
fn sink_into_root(words: &Words, me: &mut Caller, x: &Siblings, content: &Node)
    requires table { me.old.table ≡ words.now.table }
    requires terms { me.old.log.terms ≡ words.now.terms }
    requires held { HoldsSiblings words.now.terms x.now me.old.log.holdings }
    requires root { x.now.above.node ≡ 0 }
    requires two { length (pairs_of x.now.above.content) ≡ 2 }
    requires fit { Fit x.now.left.content x.now.right.content }
    requires content { content.now ≡ sunk_root x.now }
    ensures gone { HoldsSunk x.now me.new.log.holdings }
    ensures same { StepsOnNodes me.old me.new }
{
    laws::sink();
    laws::transfer();
    laws::widen();
    exchange_decided();
    // By these loads it is known of which tree the nodes are.
    words.load_node(me, x.left.node, LEVEL);
    words.load_node(me, x.right.node, LEVEL);
    write_held(words, me, x.above.node, content);
    // The right one must differ too, so as to leave with the left one.
    words.store_node(me, x.right.node, LEVEL, next_level(&x.right.content));
    words.store_node(me, x.left.node, LINK, 0);
    words.store_node(me, x.left.node, KIND, FREE);
}

/// The root takes the place of its only two children, which fit together: both leave the tree and
/// are given back.
pub fn sink<L: Locking>(
    locking: &L,
    words: &Words,
    me: &mut Caller,
    x: &Siblings,
) -> Result<Held, Busy>
    requires table { me.old.table ≡ words.now.table }
    requires terms { me.old.log.terms ≡ words.now.terms }
    requires held { HoldsSiblings words.now.terms x.now me.old.log.holdings }
    requires root { x.now.above.node ≡ 0 }
    requires two { length (pairs_of x.now.above.content) ≡ 2 }
    requires fit { Fit x.now.left.content x.now.right.content }
    requires surplus { 1 < surplus me.old }
    ensures sinks { IfOk result (λ at. SinksRoot words.now.terms x.now at me.old me.new
        × (at.content ≡ sunk_root x.now)) }
    ensures lost { IfErr result (λ e. LeavesParent x.now e me.old me.new × (L.gives_up ≡ true)) }
{
    let (left, right, root) = contents_of(words, me, x);
    let sunk = sink_root(&root, &left, &right);
    sink_into_root(words, me, x, &sunk);
    if let Err(busy) = give_back(locking, words, me, x.left.node) {
        let_go_of(locking, words, me, x.right.node, true);
        return Err(busy);
    }
    if let Err(lost) = give_back(locking, words, me, x.right.node) {
        return Err(lost);
    }
    words.load_node(me, 0, LEVEL);
    let content = outline_of(words, me, 0);
    Ok(Held {
        node: 0,
        content,
        changed: true,
    })
}
