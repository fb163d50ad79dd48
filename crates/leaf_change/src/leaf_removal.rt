//! The removal of a member from one held leaf, which has an entry to spare.
ghost use Rattle.std.specs.Prelude.{◌≡◌, ◌<◌, ◌≤◌, None, IsSome, IfNone, IfSome, is_some, length};
ghost use Rattle.reg_model.specs.State.{at_base};
ghost use Rattle.tree_shape.specs.NodeData.{InOrder, IsInFences, IsLeaf, entries_of, place_for};
ghost use Rattle.word_rule.specs.CallerData.{due};
ghost use Rattle.node_store.specs.Holding.{SpellsHeld};
ghost use Rattle.node_store.specs.Outlines.{OnlyLoads};
ghost use Rattle.tree_descent.specs.Removing.{HoldsAlone, IsSpare};
ghost use Rattle.leaf_change.specs.Takings.{RefusesBase, TakesMember};

use node_store::{cut_in_place, entry_of};
use reg_model::{Member, Removed, Update};
use tree_descent::Held;
use tree_laws::laws;
use word_rule::exchange::exchange_decided;
use word_rule::places::{COUNT, updates_at};
use word_rule::{Ask, Caller, Words};

/// Whether an entry of a held leaf begins at a base. It could only be the last of those that begin
/// at or below it.
fn begins_at(words: &Words, me: &mut Caller, leaf: &Held, begun: usize, base: u64) -> bool
    requires table { me.old.table ≡ words.now.table }
    requires inside { leaf.now.node < words.now.terms.nodes }
    requires spells { SpellsHeld leaf.now.node leaf.now.content me.old.log }
    requires leaf { IsLeaf leaf.now.content }
    requires ordered { InOrder leaf.now.content }
    requires begun { begun ≡ place_for base (entries_of leaf.now.content) }
    requires few { begun ≤ length (entries_of leaf.now.content) }
    ensures begins { result ≡ is_some (at_base base (entries_of leaf.now.content)) }
    ensures loads { OnlyLoads me.old me.new }
{
    if begun == 0 {
        return false;
    }
    let entry = entry_of(words, me, leaf.node, &leaf.content, begun - 1);
    entry.span.first() == base
}

/// Tells that no member begins at the base, where the held leaf has none. So many of its entries
/// begin at or below the base.
pub fn not_found(
    words: &Words,
    me: &mut Caller,
    leaf: &Held,
    begun: usize,
    base: u64,
) -> Option<Removed>
    requires table { me.old.table ≡ words.now.table }
    requires alone { HoldsAlone words.now.terms leaf.now me.old.log.holdings }
    requires level { leaf.now.content.level ≡ 0 }
    requires here { IsInFences base leaf.now.content }
    requires begun { begun ≡ place_for base (entries_of leaf.now.content) }
    requires few { begun ≤ length (entries_of leaf.now.content) }
    ensures none { IfSome result (λ answer. RefusesBase words.now.terms base answer
        me.old me.new) }
    ensures found { IfNone result (IsSome (at_base base (entries_of leaf.now.content))
        × OnlyLoads me.old me.new) }
{
    let begins = begins_at(words, me, leaf, begun, base);
    if begins {
        return None;
    }
    let update = Update::Deregister { base };
    let clock = words.load_clock(me, Ask::Refused { update });
    Some(Removed::NotFound {
        stamp: updates_at(clock),
    })
}

/// Takes the member that begins at a base out of a held leaf, and commits that: its number, and the
/// member. So many entries begin at or below the base: the leaf's words are loaded and stored from
/// the last of them on alone.
pub fn take_in_leaf(
    words: &Words,
    me: &mut Caller,
    leaf: &Held,
    begun: usize,
    base: u64,
) -> (u32, Member)
    requires table { me.old.table ≡ words.now.table }
    requires terms { me.old.log.terms ≡ words.now.terms }
    requires alone { HoldsAlone words.now.terms leaf.now me.old.log.holdings }
    requires level { leaf.now.content.level ≡ 0 }
    requires here { IsInFences base leaf.now.content }
    requires spare { IsSpare leaf.now.node leaf.now.content }
    requires held { IsSome (at_base base (entries_of leaf.now.content)) }
    requires begun { begun ≡ place_for base (entries_of leaf.now.content) }
    requires few { begun ≤ length (entries_of leaf.now.content) }
    requires due { 0 < due me.old }
    requires loader { me.old.log.loader ≡ None }
    ensures { TakesMember words.now.terms base leaf.now.node result.0 result.1 me.old me.new }
{
    laws::take();
    laws::transfer();
    exchange_decided();
    let node = leaf.node;
    // By this load it is known of which tree the leaf is.
    words.load_node(me, node, COUNT);
    let member = cut_in_place(words, me, node, &leaf.content, begun - 1);
    let number = words.commit(me, Update::Deregister { base });
    (number, member)
}
