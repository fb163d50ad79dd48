//! The replacement of a member in one held leaf: no other word of the tree changes.
ghost use Rattle.std.specs.Prelude.{◌≡◌, ◌≢◌, ◌<◌, true, None, Some};
ghost use Rattle.reg_model.specs.SpanData.{IsSpan};
ghost use Rattle.reg_model.specs.State.{at_span};
ghost use Rattle.tree_shape.specs.NodeData.{InOrder, IsInFences, IsLeaf, entries_of};
ghost use Rattle.node_store.specs.Holding.{SpellsHeld};
ghost use Rattle.node_store.specs.Outlines.{OnlyLoads};
ghost use Rattle.tree_descent.specs.Removing.{HoldsAlone};
ghost use Rattle.leaf_change.specs.Insertion.{MayPut};
ghost use Rattle.leaf_change.specs.Replacement.{RefusesReplacement, ReplacesMember};

use node_store::{begun_in, entry_of, read_held, write_held};
use reg_model::{Member, Replaced, Span, Update};
use tree_descent::Held;
use tree_laws::laws;
use tree_shape::replace_entry;
use word_rule::exchange::exchange_decided;
use word_rule::places::{COUNT, updates_at};
use word_rule::{Ask, Caller, Words};

/// The entry of a held leaf that has a whole span. It could only be the last of those that begin at
/// or below its first address.
pub fn entry_with(words: &Words, me: &mut Caller, leaf: &Held, span: &Span) -> Option<Member>
    requires table { me.old.table ≡ words.now.table }
    requires inside { leaf.now.node < words.now.terms.nodes }
    requires spells { SpellsHeld leaf.now.node leaf.now.content me.old.log }
    requires leaf { IsLeaf leaf.now.content }
    requires ordered { InOrder leaf.now.content }
    ensures entry { result ≡ at_span span.now (entries_of leaf.now.content) }
    ensures loads { OnlyLoads me.old me.new }
{
    let begun = begun_in(words, me, leaf.node, &leaf.content, span.first());
    if begun == 0 {
        return None;
    }
    let entry = entry_of(words, me, leaf.node, &leaf.content, begun - 1);
    if entry.span == *span {
        Some(entry)
    } else {
        None
    }
}

/// Tells that no member has this one's whole span, where the held leaf has none.
pub fn none_with(words: &Words, me: &mut Caller, leaf: &Held, member: &Member) -> Replaced
    requires table { me.old.table ≡ words.now.table }
    requires alone { HoldsAlone words.now.terms leaf.now me.old.log.holdings }
    requires level { leaf.now.content.level ≡ 0 }
    requires here { IsInFences member.now.span.first leaf.now.content }
    requires none { at_span member.now.span (entries_of leaf.now.content) ≡ None }
    ensures { RefusesReplacement words.now.terms member.now result me.old me.new }
{
    let update = Update::Replace { member: *member };
    let clock = words.load_clock(me, Ask::Refused { update });
    Replaced::NotFound {
        stamp: updates_at(clock),
    }
}

/// Stores a member's payload in a held leaf, where another one has its whole span with another
/// payload, and commits that: its number.
fn with_payload(words: &Words, me: &mut Caller, leaf: &Held, member: &Member, old: &Member) -> u32
    requires call { MayPut words.now member.now 0 me.old }
    requires alone { HoldsAlone words.now.terms leaf.now me.old.log.holdings }
    requires level { leaf.now.content.level ≡ 0 }
    requires here { IsInFences member.now.span.first leaf.now.content }
    requires held { at_span member.now.span (entries_of leaf.now.content) ≡ Some old.now }
    requires other { old.now.payload ≢ member.now.payload }
    requires span { IsSpan member.now.span }
    ensures { ReplacesMember words.now.terms member.now leaf.now.node old.now.payload result true
        me.old me.new }
{
    laws::replace();
    laws::transfer();
    exchange_decided();
    let node = leaf.node;
    // By this load it is known of which tree the leaf is.
    words.load_node(me, node, COUNT);
    let content = read_held(words, me, node);
    write_held(words, me, node, &replace_entry(&content, member));
    words.commit(me, Update::Replace { member: *member })
}

/// Gives a member the place of the one with its whole span in a held leaf, and commits that: its
/// number, and whether a word was stored under the leaf's lock. For the same payload none is.
pub fn replace_in_leaf(
    words: &Words,
    me: &mut Caller,
    leaf: &Held,
    member: &Member,
    old: &Member,
) -> (u32, bool)
    requires call { MayPut words.now member.now 0 me.old }
    requires alone { HoldsAlone words.now.terms leaf.now me.old.log.holdings }
    requires level { leaf.now.content.level ≡ 0 }
    requires here { IsInFences member.now.span.first leaf.now.content }
    requires held { at_span member.now.span (entries_of leaf.now.content) ≡ Some old.now }
    requires span { IsSpan member.now.span }
    ensures { ReplacesMember words.now.terms member.now leaf.now.node old.now.payload result.0
        result.1 me.old me.new }
{
    if old.payload == member.payload {
        laws::replace();
        laws::transfer();
        exchange_decided();
        // By this load it is known of which tree the leaf is.
        words.load_node(me, leaf.node, COUNT);
        let number = words.commit(me, Update::Replace { member: *member });
        (number, leaf.changed)
    } else {
        (with_payload(words, me, leaf, member, old), true)
    }
}
