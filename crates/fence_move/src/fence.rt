//! The fence between a leaf and the next one, where a span ends above it: the lowest that overlaps
//! in the next leaf is named, or the fence is moved on both spines.
ghost use Rattle.std.specs.Prelude.{◌≡◌, ◌≢◌, ◌<◌, ◌≤◌, true, IfNone, IfOk, IfErr, IfSome};
ghost use Rattle.reg_model.specs.State.{IsFree};
ghost use Rattle.tree_shape.specs.declared.limits.TheConstants.{HIGHEST_LEVEL};
ghost use Rattle.tree_shape.specs.NodeData.{IsInFences, entries_of};
ghost use Rattle.tree_laws.specs.Steps.{LiesAbove};
ghost use Rattle.tree_shape.specs.declared.node.NodeBounds.{NodeBounds};
ghost use Rattle.word_rule.specs.NodeTells.{IsLiveNode};
ghost use Rattle.word_rule.specs.CallerData.{surplus};
ghost use Rattle.version_locks.specs.Locking.{FoundBusy};
ghost use Rattle.node_store.specs.Holding.{SpellsHeld};
ghost use Rattle.tree_descent.specs.Insertion.{IfFull, RefusesMember};
ghost use Rattle.tree_descent.specs.Paths.{StepsOnNodes};
ghost use Rattle.tree_descent.specs.Loads.{KeepsLoads};
ghost use Rattle.fence_move.specs.Spines.{HoldsLeafPair, HoldsNext, HoldsWay, MovesFence};

use crate::spines::{
    Spines, let_go_of_spine, level_below, lock_spine, pair_after, pair_at, settle_spine,
    write_spines,
};
use node_store::{Busy, Locking, read_held, write_held};
use reg_model::{Inserted, Member, Update};
use tree_descent::{Held, content_of};
use tree_laws::laws;
use tree_shape::{first_overlap, set_separator};
use word_rule::exchange::exchange_decided;
use word_rule::places::{LEVEL, updates_at};
use word_rule::{Ask, Caller, Words};

/// The node above two neighbouring leaves, and the slot in it of the way to the left one.
#[derive(Clone, Copy)]
pub struct Ancestor {
    pub node: u32,
    pub slot: usize,
}

/// Locks the right spine of a fence, each node while its parent is held, down to the next leaf.
/// Where a lock is taken, those of the right spine are let go of again.
pub fn next_leaf<L: Locking>(
    locking: &L,
    words: &Words,
    me: &mut Caller,
    leaf: &Held,
    above: &Ancestor,
) -> Result<Held, Busy>
    requires table { me.old.table ≡ words.now.table }
    requires terms { me.old.log.terms ≡ words.now.terms }
    requires way { (way : HoldsWay words.now.terms above.now.node above.now.slot
        me.old.log.holdings) × (way.lock.node ≡ leaf.now.node)
        × (way.lock.settled ≡ leaf.now.content) }
    ensures next { IfOk result (λ right. (next : HoldsNext words.now.terms above.now.node
        above.now.slot me.new.log.holdings) × (next.base ≡ me.old.log.holdings)
        × (next.right.node ≡ right.node) × (next.right.settled ≡ right.content)) }
    ensures leaves { IfOk result (λ right. HoldsLeafPair leaf.now.node leaf.now.content right.node
        right.content me.new.log.holdings
        × ((place : NodeBounds) × IsLiveNode words.now.terms right.node right.content
        place)) }
    ensures busy { IfErr result (λ e. (me.new.log.holdings ≡ me.old.log.holdings)
        × (L.gives_up ≡ true)) }
    ensures cause { IfErr result (λ e. FoundBusy e me.old me.new) }
    ensures same { StepsOnNodes me.old me.new }
{
    // By this load it is known of which tree the way is.
    words.load_node(me, above.node, LEVEL);
    let content = read_held(words, me, above.node);
    let pair = pair_after(&content, above.slot);
    let level = level_below(&content);
    match lock_spine(locking, words, me, pair.child, level) {
        Ok(right) => Ok(right),
        Err(busy) => Err(busy),
    }
}

/// Tells that a member is refused where the next leaf has one that overlaps: the lowest. Nothing in
/// the leaf overlaps, and its fences hold the member's first address.
pub fn refused_next(
    words: &Words,
    me: &mut Caller,
    leaf: &Held,
    right: &Held,
    member: &Member,
) -> Option<Inserted>
    requires table { me.old.table ≡ words.now.table }
    requires leaves { HoldsLeafPair leaf.now.node leaf.now.content right.now.node
        right.now.content me.old.log.holdings
        × ((place : NodeBounds)
        × IsLiveNode words.now.terms right.now.node right.now.content place) }
    requires here { IsInFences member.now.span.first leaf.now.content }
    requires inside { right.now.node < words.now.terms.nodes }
    requires spells { SpellsHeld right.now.node right.now.content me.old.log }
    requires free { IsFree member.now.span (entries_of leaf.now.content) }
    requires never_root { right.now.node ≢ 0 }
    ensures overlaps { IfSome result (λ answer. RefusesMember words.now.terms member.now answer
        me.old me.new) }
    ensures never_full { IfSome result (λ answer. IfFull answer ⊥) }
    ensures same { IfNone result (StepsOnNodes me.old me.new) }
    ensures free { IfNone result ((me.new.log.holdings ≡ me.old.log.holdings)
        × IsFree member.now.span (entries_of right.now.content)
        × LiesAbove member.now.span.last right.now.content.body
        × (member.now.span.last < right.now.content.high)) }
{
    let content = content_of(words, me, right);
    let other = first_overlap(&content, &member.span)?;
    let update = Update::Register { member: *member };
    let clock = words.load_clock(me, Ask::Refused { update });
    Some(Inserted::Overlap {
        member: other,
        stamp: updates_at(clock),
    })
}

/// Lets go of the right spine, in which nothing was stored: the rest stays held as it was.
pub fn let_go_of_next<L: Locking>(locking: &L, words: &Words, me: &mut Caller, above: &Ancestor)
    requires table { me.old.table ≡ words.now.table }
    requires next { HoldsNext words.now.terms above.now.node above.now.slot me.old.log.holdings }
    ensures base { (next : HoldsNext words.now.terms above.now.node above.now.slot
        me.old.log.holdings) → me.new.log.holdings ≡ next.base }
    ensures same { StepsOnNodes me.old me.new }
{
    let content = read_held(words, me, above.node);
    let pair = pair_after(&content, above.slot);
    let level = level_below(&content);
    let_go_of_spine(locking, words, me, pair.child, level);
}

/// Raises the fence between a leaf and the next one, on both spines and in the node above them. It
/// settles when the next leaf is let go of, and the rest of the right spine is let go of then.
pub fn raise_fence<L: Locking>(
    locking: &L,
    words: &Words,
    me: &mut Caller,
    above: &Ancestor,
    fence: u64,
)
    requires table { me.old.table ≡ words.now.table }
    requires terms { me.old.log.terms ≡ words.now.terms }
    requires next { (next : HoldsNext words.now.terms above.now.node above.now.slot
        me.old.log.holdings) × (next.way.lock.settled.high < fence)
        × LiesAbove fence next.right.settled.body × (fence < next.right.settled.high) }
    requires surplus { HIGHEST_LEVEL ≤ surplus me.old }
    ensures moves { (next : HoldsNext words.now.terms above.now.node above.now.slot
        me.old.log.holdings) → next.way.lock.settled.high < fence
        → LiesAbove fence next.right.settled.body → fence < next.right.settled.high
        → MovesFence words.now.terms fence next.way.lock next.way.spine
        next.way.top next.way.rest me.old me.new }
    ensures loads { KeepsLoads me.old me.new }
{
    laws::move_fence();
    laws::transfer();
    laws::widen();
    exchange_decided();
    let content = read_held(words, me, above.node);
    // By this load it is known of which tree the spines are.
    words.load_node(me, above.node, LEVEL);
    let left = pair_at(&content, above.slot);
    let right = pair_after(&content, above.slot);
    let level = level_below(&content);
    let raised = set_separator(&content, above.slot, fence);
    write_held(words, me, above.node, &raised);
    let tops = Spines {
        left: left.child,
        right: right.child,
    };
    write_spines(words, me, tops, level, fence);
    settle_spine(locking, words, me, right.child, level);
}
