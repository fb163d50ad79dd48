//! A child of a held node, and a neighbour beside it, locked and outlined.
ghost use Rattle.std.specs.Prelude.{◌≡◌, ◌≢◌, ◌<◌, ◌+◌, ◌^◌, ◌⊎◌, true, IfOk, IfErr, length, ℕ};
ghost use Rattle.tree_laws.specs.Decisions.{is_entries};
ghost use Rattle.tree_laws.specs.Lawful.{IsOrdered};
ghost use Rattle.tree_shape.specs.NodeData.{IsInner, pairs_of};
ghost use Rattle.word_rule.specs.CallerData.{surplus};
ghost use Rattle.version_locks.specs.Locking.{FoundBusy};
ghost use Rattle.tree_descent.specs.Paths.{HoldsNothing};
ghost use Rattle.tree_descent.specs.Releases.{Spends};
ghost use Rattle.tree_descent.specs.Stands.{HoldsChild};
ghost use Rattle.node_mend.specs.Siblings.{HoldsSiblings, IsInEither, is_small_body};

use node_store::{Busy, Locking, Outline, outline_of, pair_of, slot_of};
use tree_descent::{Child, ENTRIES_TO_SPARE, Held, PAIRS_TO_SPARE, let_go_of, take_node};
use word_rule::places::LEVEL;
use word_rule::{Caller, LockId, Words};

/// Two neighbouring children that are held under their parent: those of the pair at the slot and of
/// the next.
#[derive(Drop)]
pub struct Siblings {
    pub above: Held,
    pub left: Held,
    pub right: Held,
    pub slot: usize,
}

/// Whether a node of a tree is a leaf.
pub fn is_leaf(node: &Outline) -> bool
    requires { IsOrdered node.now }
    ensures { result ≡ is_entries node.now.body }
{
    node.level() == 0
}

/// Whether a node of a tree has no pair or entry to spare.
pub fn is_small(node: &Outline) -> bool
    requires { IsOrdered node.now }
    ensures { result ≡ is_small_body node.now.body }
{
    if is_leaf(node) {
        node.count() < ENTRIES_TO_SPARE
    } else {
        node.count() < PAIRS_TO_SPARE
    }
}

/// How many pairs an inner node has.
pub fn pair_count(node: &Outline) -> u64
    requires { IsInner node.now }
    ensures { result ≡ length (pairs_of node.now) }
{
    node.count()
}

/// Lets go of a child, in which nothing was stored, and of its parent.
fn let_go_of_child<L: Locking>(locking: &L, words: &Words, me: &mut Caller, child: &Child)
    requires table { me.old.table ≡ words.now.table }
    requires held { (pc : ℕ) × HoldsChild words.now.terms child.now pc me.old.log.holdings }
    requires surplus { 0 < surplus me.old }
    ensures spends { Spends 1 me.old me.new }
    ensures nothing { HoldsNothing me.new.log.holdings }
{
    let node = child.at.node;
    locking.let_go_same(words, me, LockId::Node { node });
    let_go_of(locking, words, me, child.above.node, child.above.changed);
}

/// The place of the first of two neighbouring pairs: a pair's and the next one's, where there is a
/// next one, else that of the pair before it.
fn slot_of_two(parent: &Outline, slot: usize) -> usize
    requires inner { IsInner parent.now }
    requires inside { slot < length (pairs_of parent.now) }
    requires two { 1 < length (pairs_of parent.now) }
    ensures inside { result + 1 < length (pairs_of parent.now) }
    ensures near { (result ≡ slot) ⊎ (result + 1 ≡ slot) }
    ensures next { slot + 1 < length (pairs_of parent.now) → result ≡ slot }
{
    let last = pair_count(parent) - 1;
    if (slot as u64) < last { slot } else { slot - 1 }
}

/// Of two slots of which the first is this one the one that isn't the child's.
fn slot_beside(first: usize, slot: usize) -> usize
    requires small { first < 2 ^ 32 }
    ensures { ((first ≡ slot) × (result ≡ first + 1)) ⊎ ((first ≢ slot) × (result ≡ first)) }
{
    if first == slot { first + 1 } else { first }
}

/// Locks and outlines a neighbour of a child: the next child of its parent, where there is one,
/// else the one before.
pub fn take_sibling<L: Locking>(
    locking: &L,
    words: &Words,
    me: &mut Caller,
    child: Child,
    pc: u64,
) -> Result<Siblings, Busy>
    requires table { me.old.table ≡ words.now.table }
    requires terms { me.old.log.terms ≡ words.now.terms }
    requires held { HoldsChild words.now.terms child pc me.old.log.holdings }
    requires surplus { 0 < surplus me.old }
    ensures ok { IfOk result (λ x. HoldsSiblings words.now.terms x me.new.log.holdings
        × IsInEither pc x × (x.above ≡ child.above)
        × ((x.left ≡ child.at) ⊎ (x.right ≡ child.at))) }
    ensures next { IfOk result (λ x. child.slot + 1 < length (pairs_of child.above.content)
        → x.left ≡ child.at) }
    ensures busy { IfErr result (λ e. HoldsNothing me.new.log.holdings × (L.gives_up ≡ true)) }
    ensures cause { IfErr result (λ e. FoundBusy e me.old me.new) }
    ensures spends { Spends 1 me.old me.new }
    ensures free { IfOk result (λ x. Spends 0 me.old me.new) }
{
    let first = slot_of_two(&child.above.content, child.slot);
    let beside = slot_beside(first, child.slot);
    let node = pair_of(words, me, child.above.node, &child.above.content, beside).child;
    // By this load it is known that the neighbour is no child of the child.
    words.load_node(me, child.at.node, LEVEL);
    if let Err(busy) = take_node(locking, words, me, node) {
        let_go_of_child(locking, words, me, &child);
        return Err(busy);
    }
    let content = outline_of(words, me, node);
    let other = Held {
        node,
        content,
        changed: false,
    };
    Ok(siblings_of(child, other, first))
}

/// A child and the neighbour beside it, from left to right.
fn siblings_of(child: Child, other: Held, first: usize) -> Siblings
    ensures above { result.above ≡ child.above }
    ensures slot { result.slot ≡ first }
    ensures order { ((first ≡ child.slot) × (result.left ≡ child.at) × (result.right ≡ other))
        ⊎ ((first ≢ child.slot) × (result.left ≡ other) × (result.right ≡ child.at)) }
{
    if first == child.slot {
        Siblings {
            above: child.above,
            left: child.at,
            right: other,
            slot: first,
        }
    } else {
        Siblings {
            above: child.above,
            left: other,
            right: child.at,
            slot: first,
        }
    }
}
