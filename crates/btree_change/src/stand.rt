//! Where an insertion stands on its way down, and how it goes on to a child.
//!
//! Parent and child are held together. A node above is let go of as soon as the child can neither
//! split under it nor end at a fence that moves in it.
ghost use Rattle.std.specs.Prelude.{◌≡◌, ◌<◌, ◌≤◌, ◌+◌, ◌-◌, true, [], ◌∷◌, drop, length, List};
ghost use Rattle.std.specs.Prelude.{IfOk, IfErr, MatchBool, None, Some};
ghost use Rattle.tree_shape.specs.NodeData.{IsInFences, IsInner, InOrder};
ghost use Rattle.tree_shape.specs.declared.limits.TheConstants.{HIGHEST_LEVEL};
ghost use Rattle.tree_shape.specs.declared.pair.Pair.{Pair};
ghost use Rattle.tree_laws.specs.Lawful.{IsFilled, IsOrdered};
ghost use Rattle.tree_laws.specs.Steps.{IsFull};
ghost use Rattle.word_rule.specs.CallerData.{surplus};
ghost use Rattle.word_rule.specs.declared.log.Holding.{Holding};
ghost use Rattle.node_store.specs.Holding.{SpellsHeld};
ghost use Rattle.node_store.specs.Outlines.{OnlyLoads};
ghost use Rattle.version_locks.specs.Locking.{FoundBusy};
ghost use Rattle.tree_descent.specs.Paths.{StepsOnNodes};
ghost use Rattle.tree_descent.specs.Releases.{Spends};
ghost use Rattle.tree_descent.specs.Stands.{HasSpace, HoldsPair, StandsAt};
ghost use Rattle.btree_change.specs.Kept.{HoldsPath, LeavesBelow};
ghost use Rattle.btree_change.specs.Roots.{GivesUpWhole};
ghost use Rattle.btree_change.specs.Stands.{GoesTo, HasSplit, HasWayOn, HoldsStep, IsPairFor};
ghost use Rattle.btree_change.specs.Stands.{IsReach, Reaches, StandsOnWay, kept_above, kept_node};
ghost use Rattle.btree_change.specs.Stands.{kept_too, releases_from};

use crate::path::{KeptNode, Path, let_go_of_path};
use node_split::{Coupled, FullChild, Room, room_for, split_child};
use node_store::{Busy, Locking, high_of, outline_of, slot_of};
use reg_model::Member;
use tree_descent::{Held, child_for, let_go_of, take_node};
use tree_shape::{ENTRIES, PAIRS};
use word_rule::places::LEVEL;
use word_rule::{Caller, Words};

/// The node above both leaves of a span that ends beyond the fences of a node, and its slot on the
/// way.
#[derive(Drop)]
pub(crate) struct Beyond {
    pub(crate) node: u32,
    pub(crate) slot: usize,
    /// The nodes that are kept, up to this one.
    pub(crate) kept: Path,
}

/// Where an insertion stands.
#[derive(Drop)]
pub(crate) struct Stand {
    pub(crate) at: Held,
    pub(crate) beyond: Option<Beyond>,
    pub(crate) room: Room,
}

/// How far a span reaches that begins in a child of a node.
#[derive(Clone, Copy, Debug, PartialEq, Eq)]
pub(crate) enum SpanEnd {
    /// It ends in the child.
    Child,
    /// It ends in another child of the node, and the slot of the first one is not the last.
    Parent { slot: usize },
    /// It ends beyond the node, of which the child is the last.
    Above,
}

/// Whether a node is full.
pub(crate) fn is_full(at: &Held) -> bool
    requires ordered { IsOrdered at.now.content }
    requires filled { IsFilled at.now.node at.now.content }
    ensures { MatchBool result (IsFull at.now.content.body) (HasSpace at.now.content.body) }
{
    if at.content.level() == 0 {
        at.content.count() == ENTRIES as u64
    } else {
        at.content.count() == PAIRS as u64
    }
}

/// Locks the child for an address, and outlines it.
fn lower<L: Locking>(
    locking: &L,
    words: &Words,
    me: &mut Caller,
    at: &Held,
    pc: u64,
) -> Result<Held, Busy>
    requires table { me.old.table ≡ words.now.table }
    requires terms { me.old.log.terms ≡ words.now.terms }
    requires stands { StandsAt words.now.terms at.now me.old.log.holdings }
    requires inner { 0 < at.now.content.level }
    requires here { IsInFences pc at.now.content }
    ensures ok { IfOk result (λ child. HoldsPair words.now.terms pc at.now child
        (drop 1 me.old.log.holdings.held) me.new.log.holdings
        × (child.content.level < at.now.content.level)) }
    ensures busy { IfErr result (λ e. (me.new.log.holdings ≡ me.old.log.holdings)
        × (L.gives_up ≡ true)) }
    ensures cause { IfErr result (λ e. FoundBusy e me.old me.new) }
    ensures same { StepsOnNodes me.old me.new }
{
    let node = child_for(words, me, at, pc);
    take_node(locking, words, me, node)?;
    let content = outline_of(words, me, node);
    Ok(Held {
        node,
        content,
        changed: false,
    })
}

/// Splits the child where it is full and a node is free for it, below a parent with room.
fn split_full<L: Locking>(
    locking: &L,
    words: &Words,
    me: &mut Caller,
    step: Coupled,
    pc: u64,
) -> Result<Coupled, Busy>
    requires table { me.old.table ≡ words.now.table }
    requires terms { me.old.log.terms ≡ words.now.terms }
    requires pair { HoldsPair words.now.terms pc step.parent step.child
        (drop 2 me.old.log.holdings.held) me.old.log.holdings }
    requires splitting { step.room ≡ Room.Splitting }
    requires room { HasSpace step.parent.content.body }
    requires here { IsInFences pc step.parent.content }
    requires less { step.child.content.level < step.parent.content.level }
    requires surplus { 0 < surplus me.old }
    ensures ok { IfOk result (λ after. HasSplit words.now.terms pc step after me.old me.new) }
    ensures busy { IfErr result (λ e. (me.new.log.holdings.held
        ≡ drop 1 me.old.log.holdings.held) × (me.new.log.holdings.out ≡ [])
        × Spends 1 me.old me.new × (L.gives_up ≡ true)) }
    ensures cause { IfErr result (λ e. FoundBusy e me.old me.new) }
{
    if !is_full(&step.child) {
        return Ok(step);
    }
    let Coupled { parent, child, .. } = step;
    match room_for(locking, words, me, &child, pc) {
        Err(busy) => {
            // By this load it is known of which tree the nodes are.
            words.load_node(me, child.node, LEVEL);
            let_go_of(locking, words, me, child.node, child.changed);
            Err(busy)
        }
        Ok(None) => Ok(Coupled {
            parent,
            child,
            room: Room::NoneFree,
        }),
        Ok(Some(fresh)) => {
            let full = FullChild {
                parent,
                child,
                fresh,
            };
            Ok(split_child(locking, words, me, &full, pc))
        }
    }
}

/// Splits the child where it is full, as long as nodes are split.
fn split_if_full<L: Locking>(
    locking: &L,
    words: &Words,
    me: &mut Caller,
    step: Coupled,
    pc: u64,
) -> Result<Coupled, Busy>
    requires table { me.old.table ≡ words.now.table }
    requires terms { me.old.log.terms ≡ words.now.terms }
    requires step { HoldsStep words.now.terms pc step (drop 2 me.old.log.holdings.held)
        me.old.log }
    requires here { IsInFences pc step.parent.content }
    requires less { step.child.content.level < step.parent.content.level }
    requires surplus { 0 < surplus me.old }
    ensures ok { IfOk result (λ after. HasSplit words.now.terms pc step after me.old me.new) }
    ensures busy { IfErr result (λ e. (me.new.log.holdings.held
        ≡ drop 1 me.old.log.holdings.held) × (me.new.log.holdings.out ≡ [])
        × Spends 1 me.old me.new × (L.gives_up ≡ true)) }
    ensures cause { IfErr result (λ e. FoundBusy e me.old me.new) }
{
    match step.room {
        Room::Splitting => split_full(locking, words, me, step, pc),
        Room::NoneFree => Ok(step),
    }
}

/// How far a span reaches that begins in the child of a step, seen from its parent.
fn reach_of(words: &Words, me: &mut Caller, member: &Member, step: &Coupled) -> SpanEnd
    requires table { me.old.table ≡ words.now.table }
    requires above { step.now.parent.node < words.now.terms.nodes }
    requires below { step.now.child.node < words.now.terms.nodes }
    requires parent { SpellsHeld step.now.parent.node step.now.parent.content me.old.log }
    requires child { SpellsHeld step.now.child.node step.now.child.content me.old.log }
    requires inner { IsInner step.now.parent.content }
    requires ordered { InOrder step.now.parent.content }
    requires here { IsInFences member.now.span.first step.now.parent.content }
    requires high { (p : Pair) → IsPairFor step.now.parent.content member.now.span.first p
        → p.separator ≡ step.now.child.content.high }
    ensures reach { IsReach step.now.parent.content member.now.span.first member.now.span.last
        result }
    ensures loads { OnlyLoads me.old me.new }
{
    let (parent, child) = (&step.parent, &step.child);
    if member.span.last() <= high_of(words, me, child.node, &child.content) {
        return SpanEnd::Child;
    }
    let slot = slot_of(words, me, parent.node, &parent.content, member.span.first());
    if slot as u64 + 1 < parent.content.count() {
        SpanEnd::Parent { slot }
    } else {
        SpanEnd::Above
    }
}

/// A node of the way, as it is kept.
pub(crate) fn kept(at: &Held) -> KeptNode
    ensures { result ≡ kept_node at.now }
{
    KeptNode {
        node: at.node,
        changed: at.changed,
    }
}

/// The node above both leaves, which is the lowest that is kept.
fn above_both(at: &Held, slot: usize) -> Beyond
    ensures { result
        ≡ record { node = at.now.node; slot = slot; kept = kept_node at.now ∷ [] } }
{
    Beyond {
        node: at.node,
        slot,
        kept: Path::of(kept(at)),
    }
}

/// Keeps a node of the left spine too.
fn keep_too(at: &Held, so_far: Option<Beyond>) -> Option<Beyond>
    requires { length (kept_above so_far) < 12 }
    ensures { result ≡ kept_too at.now so_far }
{
    let mut beyond = so_far?;
    beyond.kept.push(kept(at));
    Some(beyond)
}

/// Lets go of the nodes that are kept above others.
fn let_go_of_kept<L: Locking>(locking: &L, words: &Words, me: &mut Caller, beyond: Option<Beyond>)
    requires table { me.old.table ≡ words.now.table }
    requires path { (below : List Holding)
        × HoldsPath words.now.terms (kept_above beyond) below me.old.log.holdings }
    requires surplus { length (kept_above beyond) ≤ surplus me.old }
    ensures { (below : List Holding)
        → HoldsPath words.now.terms (kept_above beyond) below me.old.log.holdings
        → LeavesBelow (length (kept_above beyond)) below me.old me.new }
{
    if let Some(beyond) = beyond {
        let_go_of_path(locking, words, me, beyond.kept);
    }
}

/// Lets go of the lowest node, and of those that are kept above it.
pub(crate) fn let_go_of_all<L: Locking>(
    locking: &L,
    words: &Words,
    me: &mut Caller,
    lowest: KeptNode,
    beyond: Option<Beyond>,
)
    requires table { me.old.table ≡ words.now.table }
    requires path { HoldsPath words.now.terms (lowest ∷ kept_above beyond) []
        me.old.log.holdings }
    requires surplus { length (kept_above beyond) < surplus me.old }
    ensures { LeavesBelow (length (kept_above beyond) + 1) [] me.old me.new }
{
    let_go_of(locking, words, me, lowest.node, lowest.changed);
    let_go_of_kept(locking, words, me, beyond);
}

/// Where an insertion stands after a step: what can't change any more above the child is let go of.
pub(crate) fn stand_below<L: Locking>(
    locking: &L,
    words: &Words,
    me: &mut Caller,
    member: &Member,
    step: Coupled,
    so_far: Option<Beyond>,
) -> Stand
    requires table { me.old.table ≡ words.now.table }
    requires terms { me.old.log.terms ≡ words.now.terms }
    requires way { HasWayOn step.room member.now.span.first step.child.content me.old.log }
    requires here { IsInFences member.now.span.first step.parent.content }
    requires reach { (pair : HoldsPair words.now.terms member.now.span.first step.parent step.child
        (drop 2 me.old.log.holdings.held) me.old.log.holdings)
        × Reaches words.now.terms member.now.span.last step.parent.content so_far pair.upper
        (drop 2 me.old.log.holdings.held) }
    requires height { step.parent.content.level + length (kept_above so_far) ≤ HIGHEST_LEVEL }
    requires loader { me.old.log.loader ≡ None }
    requires surplus { length (kept_above so_far) < surplus me.old }
    ensures stands { StandsOnWay words.now.terms member.now result me.new.log }
    ensures at { result.at ≡ step.child }
    ensures room { result.room ≡ step.room }
    ensures fewer { length (kept_above result.beyond) ≤ length (kept_above so_far) + 1 }
    ensures spends { Spends (length (kept_above so_far) + 1 - length (kept_above result.beyond))
        me.old me.new }
{
    // By this load it is known of which tree both nodes are.
    words.load_node(me, step.child.node, LEVEL);
    let reach = reach_of(words, me, member, &step);
    let Coupled {
        parent,
        child,
        room,
    } = step;
    match reach {
        SpanEnd::Child => {
            let_go_of(locking, words, me, parent.node, parent.changed);
            Stand {
                at: child,
                beyond: None,
                room,
            }
        }
        SpanEnd::Parent { slot } => {
            let_go_of_kept(locking, words, me, so_far);
            Stand {
                at: child,
                beyond: Some(above_both(&parent, slot)),
                room,
            }
        }
        SpanEnd::Above => Stand {
            at: child,
            beyond: keep_too(&parent, so_far),
            room,
        },
    }
}

/// Goes on to the child for a member's first address. Where a lock is taken, all is let go of.
pub(crate) fn go_below<L: Locking>(
    locking: &L,
    words: &Words,
    me: &mut Caller,
    member: &Member,
    stand: Stand,
) -> Result<Stand, Busy>
    requires table { me.old.table ≡ words.now.table }
    requires terms { me.old.log.terms ≡ words.now.terms }
    requires stands { StandsOnWay words.now.terms member.now stand me.old.log }
    requires inner { 0 < stand.at.content.level }
    requires surplus { releases_from stand ≤ surplus me.old }
    ensures ok { IfOk result (λ after. GoesTo words.now.terms member.now stand after me.old
        me.new) }
    ensures less { IfOk result (λ after. after.at.content.level < stand.at.content.level) }
    ensures busy { IfErr result (λ e. GivesUpWhole (releases_from stand) e me.old me.new
        × (L.gives_up ≡ true)) }
    ensures cause { IfErr result (λ e. FoundBusy e me.old me.new) }
{
    let Stand { at, beyond, room } = stand;
    let lowest = kept(&at);
    let pc = member.span.first();
    let child = match lower(locking, words, me, &at, pc) {
        Ok(child) => child,
        Err(busy) => {
            let_go_of_all(locking, words, me, lowest, beyond);
            return Err(busy);
        }
    };
    let step = Coupled {
        parent: at,
        child,
        room,
    };
    match split_if_full(locking, words, me, step, pc) {
        Ok(step) => Ok(stand_below(locking, words, me, member, step, beyond)),
        Err(busy) => {
            let_go_of_all(locking, words, me, lowest, beyond);
            Err(busy)
        }
    }
}
