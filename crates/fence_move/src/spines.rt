//! The spines beside a fence, level by level: locked, written, and let go of.
ghost use Rattle.std.specs.Prelude.{◌≡◌, ◌+◌, ◌-◌, ◌<◌, true, IfOk, IfErr, Some, length, slice_get};
ghost use Rattle.tree_shape.specs.NodeData.{pairs_of};
ghost use Rattle.tree_laws.specs.Steps.{first_child, last_child};
ghost use Rattle.word_rule.specs.CallerData.{surplus};
ghost use Rattle.version_locks.specs.Locking.{FoundBusy};
ghost use Rattle.tree_descent.specs.Paths.{StepsOnNodes};
ghost use Rattle.tree_descent.specs.Loads.{KeepsLoads};
ghost use Rattle.fence_move.specs.Spines.{HoldsFresh, HoldsSpines, IsPending, LetsGoSettled};
ghost use Rattle.fence_move.specs.Spines.{LocksSpine, NamesChild, WritesSpines};

use node_store::{Busy, Locking, outline_of, read_held, write_held};
use tree_descent::{Held, take_node};
use tree_shape::{Node, Pair, move_fence};
use word_rule::exchange::exchange_decided;
use word_rule::places::LEVEL;
use word_rule::{Caller, LockId, Words};

/// A node of the left spine and one of the right spine, of one level.
#[derive(Clone, Copy)]
pub(crate) struct Spines {
    pub(crate) left: u32,
    pub(crate) right: u32,
}

// The child of the last pair of an inner node.
fn child_at_end(content: &Node) -> u32
    requires { 0 < length (pairs_of content.now) }
    ensures { result ≡ last_child 0 (pairs_of content.now) }
{
    let pairs = content.pairs();
    pairs[pairs.len() - 1].child
}

// The child of the first pair.
fn child_at_start(content: &Node) -> u32
    requires { 0 < length (pairs_of content.now) }
    ensures { result ≡ first_child 0 (pairs_of content.now) }
{
    content.pairs()[0].child
}

/// The pair at a slot of an inner node.
pub(crate) fn pair_at(content: &Node, slot: usize) -> Pair
    requires { slot < length (pairs_of content.now) }
    ensures { slice_get (pairs_of content.now) slot ≡ Some result }
{
    content.pairs()[slot]
}

/// The pair after a slot of an inner node.
pub(crate) fn pair_after(content: &Node, slot: usize) -> Pair
    requires { slot + 1 < length (pairs_of content.now) }
    ensures { slice_get (pairs_of content.now) (slot + 1) ≡ Some result }
{
    let pairs = content.pairs();
    pairs[slot + 1]
}

/// The level below an inner node.
pub(crate) fn level_below(content: &Node) -> u32
    requires { 0 < content.now.level }
    ensures { result ≡ content.now.level - 1 }
{
    content.level - 1
}

/// Locks a node of this level that a held one names as its child, and the first child of each down
/// to a leaf. Where a lock is taken, those before it are let go of again.
pub(crate) fn lock_spine<L: Locking>(
    locking: &L,
    words: &Words,
    me: &mut Caller,
    node: u32,
    level: u32,
) -> Result<Held, Busy>
    requires table { me.old.table ≡ words.now.table }
    requires terms { me.old.log.terms ≡ words.now.terms }
    requires child { NamesChild words.now.terms node level me.old.log.holdings }
    ensures ok { IfOk result (λ right. LocksSpine words.now.terms node level right.node
        right.content me.old.log.holdings me.new.log.holdings) }
    ensures busy { IfErr result (λ e. (me.new.log.holdings ≡ me.old.log.holdings)
        × (L.gives_up ≡ true)) }
    ensures cause { IfErr result (λ e. FoundBusy e me.old me.new) }
    ensures same { StepsOnNodes me.old me.new }
{
    take_node(locking, words, me, node)?;
    if level == 0 {
        return Ok(Held {
            node,
            content: outline_of(words, me, node),
            changed: false,
        });
    }
    let content = read_held(words, me, node);
    // By this load it is known of which tree the node is, so that its child isn't held yet.
    words.load_node(me, node, LEVEL);
    let child = child_at_start(&content);
    match lock_spine(locking, words, me, child, level - 1) {
        Ok(right) => Ok(right),
        Err(busy) => {
            locking.let_go_same(words, me, LockId::Node { node });
            Err(busy)
        }
    }
}

/// Lets go of a spine in which nothing was stored, from its leaf up.
pub(crate) fn let_go_of_spine<L: Locking>(
    locking: &L,
    words: &Words,
    me: &mut Caller,
    node: u32,
    level: u32,
)
    requires table { me.old.table ≡ words.now.table }
    requires spine { HoldsFresh words.now.terms node level me.old.log.holdings }
    ensures base { (spine : HoldsFresh words.now.terms node level me.old.log.holdings)
        → me.new.log.holdings ≡ record me.old.log.holdings { held = spine.base } }
    ensures same { StepsOnNodes me.old me.new }
{
    if level == 0 {
        locking.let_go_same(words, me, LockId::Node { node });
        return;
    }
    let content = read_held(words, me, node);
    let child = child_at_start(&content);
    let_go_of_spine(locking, words, me, child, level - 1);
    locking.let_go_same(words, me, LockId::Node { node });
}

/// Writes two spines of one height for a higher fence between them, from their tops down.
pub(crate) fn write_spines(words: &Words, me: &mut Caller, tops: Spines, level: u32, fence: u64)
    requires table { me.old.table ≡ words.now.table }
    requires spines { HoldsSpines words.now.terms tops.left tops.right level fence
        me.old.log.holdings }
    ensures writes { (spines : HoldsSpines words.now.terms tops.left tops.right level fence
        me.old.log.holdings) → WritesSpines fence spines.lefts spines.rights spines.between
        spines.behind me.old me.new }
    ensures same { StepsOnNodes me.old me.new }
{
    let left = read_held(words, me, tops.left);
    let right = read_held(words, me, tops.right);
    let moved = move_fence(&left, &right, fence);
    write_held(words, me, tops.left, &moved.0);
    write_held(words, me, tops.right, &moved.1);
    if level == 0 {
        return;
    }
    let lower_left = child_at_end(&left);
    let lower_right = child_at_start(&right);
    let below = Spines {
        left: lower_left,
        right: lower_right,
    };
    write_spines(words, me, below, level - 1, fence);
}

/// Lets go of a spine that was written, from its leaf up. All that is held settles with the leaf.
pub(crate) fn settle_spine<L: Locking>(
    locking: &L,
    words: &Words,
    me: &mut Caller,
    node: u32,
    level: u32,
)
    requires table { me.old.table ≡ words.now.table }
    requires spine { IsPending words.now.terms node level me.old.log.holdings }
    requires surplus { level < surplus me.old }
    ensures settled { (spine : IsPending words.now.terms node level me.old.log.holdings)
        → LetsGoSettled spine.settled spine.spine.base level me.old me.new }
    ensures loads { KeepsLoads me.old me.new }
{
    exchange_decided();
    if level == 0 {
        locking.let_go(words, me, LockId::Node { node });
        return;
    }
    let content = read_held(words, me, node);
    let child = child_at_start(&content);
    settle_spine(locking, words, me, child, level - 1);
    locking.let_go(words, me, LockId::Node { node });
}
