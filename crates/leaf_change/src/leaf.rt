//! The answers of an insertion at its leaf, and the change of it.
ghost use Rattle.std.specs.Prelude.{◌≡◌, ◌<◌, ◌≤◌, IfNone, IfSome, None, Some, length, slice_get};
ghost use Rattle.reg_model.specs.State.{IsFree, IsLowestOverlap};
ghost use Rattle.reg_model.specs.SpanData.{IsSpan, Overlaps};
ghost use Rattle.reg_model.specs.declared.span.Member.{Member};
ghost use Rattle.tree_shape.specs.NodeData.{InOrder, IsInFences, IsLeaf, entries_of, place_for};
ghost use Rattle.word_rule.specs.TreeRefusals.{ShowsFull};
ghost use Rattle.node_store.specs.Outlines.{OnlyLoads};
ghost use Rattle.node_store.specs.Holding.{SpellsHeld};
ghost use Rattle.tree_descent.specs.Insertion.{IfFull, RefusesMember};
ghost use Rattle.tree_descent.specs.Loads.{KeepsLoads};
ghost use Rattle.tree_descent.specs.Stands.{StandsAt};
ghost use Rattle.leaf_change.specs.Insertion.{FitsLeaf, MayPut, EndsInsertion};

use node_store::{Locking, Placed, entry_of, put_in_place};
use reg_model::{Inserted, Member, Span, Update};
use tree_descent::{Held, let_go_of};
use tree_laws::laws;
use word_rule::exchange::exchange_decided;
use word_rule::places::{COUNT, updates_at};
use word_rule::{Ask, Caller, Words};

/// Puts a member into a leaf that alone is held and in which it fits, commits it, and lets go of
/// the leaf. Its words are loaded and stored from the member's place on alone.
pub fn put_in_held<L: Locking>(
    locking: &L,
    words: &Words,
    me: &mut Caller,
    leaf: &Held,
    placed: &Placed,
) -> Inserted
    requires call { MayPut words.now placed.now.member 1 me.old }
    requires fits { FitsLeaf words.now.terms placed.now.member leaf.now me.old.log.holdings }
    requires span { IsSpan placed.now.member.span }
    requires place { placed.now.place
        ≡ place_for placed.now.member.span.first (entries_of leaf.now.content) }
    requires few { placed.now.place ≤ length (entries_of leaf.now.content) }
    ensures answer { EndsInsertion words.now.terms placed.now.member result 1 me.old me.new }
    ensures never_full { IfFull result ⊥ }
{
    laws::put();
    laws::transfer();
    exchange_decided();
    let node = leaf.node;
    // By this load it is known of which tree the leaf is.
    words.load_node(me, node, COUNT);
    put_in_place(words, me, node, &leaf.content, placed);
    let update = Update::Register {
        member: placed.member,
    };
    let number = words.commit(me, update);
    let_go_of(locking, words, me, node, true);
    Inserted::Done { number }
}

// The entry at a place of a held leaf, where one stands there and overlaps the span.
fn overlap_at(
    words: &Words,
    me: &mut Caller,
    leaf: &Held,
    place: usize,
    span: &Span,
) -> Option<Member>
    requires table { me.old.table ≡ words.now.table }
    requires inside { leaf.now.node < words.now.terms.nodes }
    requires spells { SpellsHeld leaf.now.node leaf.now.content me.old.log }
    requires leaf { IsLeaf leaf.now.content }
    ensures found { IfSome result (λ m. Overlaps m.span span.now
        × (slice_get (entries_of leaf.now.content) place ≡ Some m)) }
    ensures none { IfNone result ((m : Member)
        → slice_get (entries_of leaf.now.content) place ≡ Some m → ¬ Overlaps m.span span.now) }
    ensures loads { OnlyLoads me.old me.new }
{
    if leaf.content.count() <= place as u64 {
        return None;
    }
    let entry = entry_of(words, me, leaf.node, &leaf.content, place);
    if entry.span.overlaps(span) {
        Some(entry)
    } else {
        None
    }
}

// The lowest entry of a held leaf that overlaps a span, at whose first address or below so many
// begin. It is the last of these or the one behind it: entries ascend and are disjoint.
fn overlap_in(
    words: &Words,
    me: &mut Caller,
    leaf: &Held,
    begun: usize,
    span: &Span,
) -> Option<Member>
    requires table { me.old.table ≡ words.now.table }
    requires inside { leaf.now.node < words.now.terms.nodes }
    requires spells { SpellsHeld leaf.now.node leaf.now.content me.old.log }
    requires leaf { IsLeaf leaf.now.content }
    requires ordered { InOrder leaf.now.content }
    requires begun { begun ≡ place_for span.now.first (entries_of leaf.now.content) }
    ensures found { IfSome result (IsLowestOverlap span.now (entries_of leaf.now.content)) }
    ensures none { IfNone result (IsFree span.now (entries_of leaf.now.content)) }
    ensures loads { OnlyLoads me.old me.new }
{
    if begun > 0 {
        if let Some(entry) = overlap_at(words, me, leaf, begun - 1, span) {
            return Some(entry);
        }
    }
    overlap_at(words, me, leaf, begun, span)
}

/// Tells that a member is refused where a held leaf has one that overlaps: the lowest. So many of
/// its entries begin at or below the member's first address.
pub fn refused(
    words: &Words,
    me: &mut Caller,
    leaf: &Held,
    begun: usize,
    member: &Member,
) -> Option<Inserted>
    requires table { me.old.table ≡ words.now.table }
    requires stands { StandsAt words.now.terms leaf.now me.old.log.holdings }
    requires level { leaf.now.content.level ≡ 0 }
    requires here { IsInFences member.now.span.first leaf.now.content }
    requires begun { begun ≡ place_for member.now.span.first (entries_of leaf.now.content) }
    ensures overlaps { IfSome result (λ answer. RefusesMember words.now.terms member.now answer
        me.old me.new) }
    ensures never_full { IfSome result (λ answer. IfFull answer ⊥) }
    ensures free { IfNone result (IsFree member.now.span (entries_of leaf.now.content)
        × OnlyLoads me.old me.new) }
{
    let other = overlap_in(words, me, leaf, begun, &member.span)?;
    let update = Update::Register { member: *member };
    let clock = words.load_clock(me, Ask::Refused { update });
    Some(Inserted::Overlap {
        member: other,
        stamp: updates_at(clock),
    })
}

/// Says Full to a member that overlaps nothing, where there was no room.
pub fn say_full(words: &Words, me: &mut Caller, member: &Member) -> Inserted
    requires table { me.old.table ≡ words.now.table }
    requires shows { ShowsFull member.now me.old.log }
    ensures refused { RefusesMember words.now.terms member.now result me.old me.new }
    ensures loads { KeepsLoads me.old me.new }
{
    let update = Update::Register { member: *member };
    let clock = words.load_clock(me, Ask::Refused { update });
    Inserted::Full {
        stamp: updates_at(clock),
    }
}
