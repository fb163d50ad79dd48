//! An insertion whose span ends beyond its leaf: in the next one.
ghost use Rattle.std.specs.Prelude.{◌≡◌, ◌≢◌, ◌<◌, ◌≤◌, ◌+◌, true, IfSome, IfNone, None, length};
ghost use Rattle.reg_model.specs.State.{IsFree};
ghost use Rattle.reg_model.specs.SpanData.{IsSpan};
ghost use Rattle.tree_shape.specs.declared.node.NodeBounds.{NodeBounds};
ghost use Rattle.tree_shape.specs.NodeData.{IsInFences, entries_of};
ghost use Rattle.tree_laws.specs.Steps.{LiesAbove};
ghost use Rattle.word_rule.specs.TreeRefusals.{HadNoRoom};
ghost use Rattle.word_rule.specs.NodeTells.{IsLiveNode};
ghost use Rattle.word_rule.specs.CallerData.{surplus};
ghost use Rattle.node_store.specs.Holding.{SpellsHeld};
ghost use Rattle.tree_descent.specs.Paths.{HoldsNothing, StepsOnNodes};
ghost use Rattle.tree_descent.specs.Insertion.{IfFull, RefusesMember};
ghost use Rattle.tree_descent.specs.Releases.{Spends};
ghost use Rattle.tree_descent.specs.Removing.{HoldsAlone};
ghost use Rattle.leaf_change.specs.Insertion.{MayPut, EndsInsertion};
ghost use Rattle.fence_move.specs.Spines.{HoldsLeafPair};
ghost use Rattle.btree_change.specs.Roots.{EndsPart};
ghost use Rattle.btree_change.specs.Stands.{HasCause};
ghost use Rattle.btree_change.specs.Far.{HoldsFar, HoldsMoved, IsAtNext, IsReadyFar, StandsFar};
ghost use Rattle.btree_change.specs.Far.{releases_far};

use crate::path::let_go_of_path;
use crate::stand::{Beyond, kept, let_go_of_all};
use fence_move::{Ancestor, let_go_of_next, next_leaf, raise_fence, refused_next};
use leaf_change::{put_in_held, say_full};
use node_split::Room;
use node_store::{Busy, Locking, Placed, begun_in, outline_of};
use reg_model::{Inserted, Member};
use tree_descent::Held;
use word_rule::{Caller, Words};

/// A leaf beyond which a span ends, and the node above it and the next one.
#[derive(Drop)]
pub(crate) struct Far {
    pub(crate) leaf: Held,
    pub(crate) beyond: Beyond,
    pub(crate) room: Room,
}

/// Such a leaf, and the next one, which is held too.
#[derive(Drop)]
struct Next {
    far: Far,
    right: Held,
}

/// Tells that a member is refused where the next leaf has one that overlaps, or where no node was
/// free.
fn refused_far(
    words: &Words,
    me: &mut Caller,
    far: &Far,
    right: &Held,
    member: &Member,
) -> Option<Inserted>
    requires table { me.old.table ≡ words.now.table }
    requires leaves { HoldsLeafPair far.now.leaf.node far.now.leaf.content right.now.node
        right.now.content me.old.log.holdings
        × ((place : NodeBounds)
        × IsLiveNode words.now.terms right.now.node right.now.content place) }
    requires here { IsInFences member.now.span.first far.now.leaf.content }
    requires inside { right.now.node < words.now.terms.nodes }
    requires spells { SpellsHeld right.now.node right.now.content me.old.log }
    requires free { IsFree member.now.span (entries_of far.now.leaf.content) }
    requires never_root { right.now.node ≢ 0 }
    requires cause { far.now.room ≡ Room.NoneFree
        → HadNoRoom member.now.span.first (length me.old.log.receipts.own)
        me.old.log.trace.loads }
    ensures refused { IfSome result (λ answer. RefusesMember words.now.terms member.now answer
        me.old me.new) }
    ensures full { IfSome result (λ answer. IfFull answer
        (HasCause far.now.room member.now.span.first me.old me.new)) }
    ensures same { IfNone result (StepsOnNodes me.old me.new) }
    ensures none { IfNone result ((me.new.log.holdings ≡ me.old.log.holdings)
        × (far.now.room ≡ Room.Splitting)
        × LiesAbove member.now.span.last right.now.content.body
        × (member.now.span.last < right.now.content.high)) }
{
    match refused_next(words, me, &far.leaf, right, member) {
        Some(answer) => Some(answer),
        None => match far.room {
            Room::NoneFree => Some(say_full(words, me, member)),
            Room::Splitting => None,
        },
    }
}

/// Lets go of the right spine, in which nothing was stored, and then of all else.
fn let_go_far<L: Locking>(locking: &L, words: &Words, me: &mut Caller, far: Far)
    requires table { me.old.table ≡ words.now.table }
    requires holds { HoldsFar words.now.terms far me.old.log.holdings }
    requires surplus { length far.beyond.kept < surplus me.old }
    ensures steps { Spends (length far.beyond.kept + 1) me.old me.new }
    ensures nothing { HoldsNothing me.new.log.holdings }
{
    let above = Ancestor {
        node: far.beyond.node,
        slot: far.beyond.slot,
    };
    let_go_of_next(locking, words, me, &above);
    let lowest = kept(&far.leaf);
    let_go_of_all(locking, words, me, lowest, Some(far.beyond));
}

/// Lets go of all above a leaf that was stored to, as they were, and outlines the leaf: it alone is
/// held then.
fn leaf_alone<L: Locking>(locking: &L, words: &Words, me: &mut Caller, far: Far) -> Held
    requires table { me.old.table ≡ words.now.table }
    requires moved { HoldsMoved words.now.terms far me.old.log.holdings }
    requires surplus { length far.beyond.kept ≤ surplus me.old }
    ensures alone { HoldsAlone words.now.terms result me.new.log.holdings }
    ensures content { (moved : HoldsMoved words.now.terms far me.old.log.holdings)
        → result.content ≡ moved.lock.settled }
    ensures spends { Spends (length far.beyond.kept) me.old me.new }
{
    let node = far.leaf.node;
    let mut kept = far.beyond.kept;
    kept.change_all();
    let_go_of_path(locking, words, me, kept);
    let content = outline_of(words, me, node);
    Held {
        node,
        content,
        changed: true,
    }
}

/// Moves the fence behind a leaf, lets go of all above the leaf, puts a member there, and lets go
/// of the leaf: nothing but the leaf is held at the commit.
fn put_far<L: Locking>(
    locking: &L,
    words: &Words,
    me: &mut Caller,
    member: &Member,
    far: Far,
) -> Inserted
    requires call { MayPut words.now member.now (releases_far far) me.old }
    requires ready { IsReadyFar words.now.terms member.now far me.old.log.holdings }
    requires span { IsSpan member.now.span }
    ensures answer { EndsInsertion words.now.terms member.now result (releases_far far)
        me.old me.new }
    ensures never_full { IfFull result ⊥ }
{
    let above = Ancestor {
        node: far.beyond.node,
        slot: far.beyond.slot,
    };
    raise_fence(locking, words, me, &above, member.span.last());
    let leaf = leaf_alone(locking, words, me, far);
    let place = begun_in(words, me, leaf.node, &leaf.content, member.span.first());
    let placed = Placed {
        place,
        member: *member,
    };
    put_in_held(locking, words, me, &leaf, &placed)
}

/// Answers an insertion whose next leaf is held.
fn at_next<L: Locking>(
    locking: &L,
    words: &Words,
    me: &mut Caller,
    member: &Member,
    next: Next,
) -> Inserted
    requires call { MayPut words.now member.now (releases_far next.far) me.old }
    requires at { IsAtNext words.now.terms member.now next me.old.log }
    requires span { IsSpan member.now.span }
    ensures answer { EndsInsertion words.now.terms member.now result (releases_far next.far)
        me.old me.new }
    ensures full { IfFull result
        (HasCause next.far.room member.now.span.first me.old me.new) }
{
    match refused_far(words, me, &next.far, &next.right, member) {
        Some(answer) => {
            let_go_far(locking, words, me, next.far);
            answer
        }
        None => put_far(locking, words, me, member, next.far),
    }
}

/// Answers an insertion that stands at a leaf in which nothing overlaps, and whose span ends in the
/// next leaf: names the lowest that overlaps there, says Full, or moves the fence between them.
/// Lets go of all that is held.
pub(crate) fn beyond_leaf<L: Locking>(
    locking: &L,
    words: &Words,
    me: &mut Caller,
    member: &Member,
    far: Far,
) -> Result<Inserted, Busy>
    requires call { MayPut words.now member.now (releases_far far) me.old }
    requires stands { StandsFar words.now.terms member.now far me.old.log }
    requires level { far.leaf.content.level ≡ 0 }
    requires free { IsFree member.now.span (entries_of far.leaf.content) }
    requires span { IsSpan member.now.span }
    ensures { EndsPart words.now.terms member.now (releases_far far) far.room L.gives_up
        me.old me.new result }
{
    let above = Ancestor {
        node: far.beyond.node,
        slot: far.beyond.slot,
    };
    match next_leaf(locking, words, me, &far.leaf, &above) {
        Ok(right) => Ok(at_next(locking, words, me, member, Next { far, right })),
        Err(busy) => {
            let lowest = kept(&far.leaf);
            let_go_of_all(locking, words, me, lowest, Some(far.beyond));
            Err(busy)
        }
    }
}
