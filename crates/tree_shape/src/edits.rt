//! Single pairs and entries of a node.

ghost use Rattle.std.specs.Prelude.{◌≡◌, ◌+◌, ◌-◌, ◌<◌, ◌≤◌, ◌++◌, length, take, drop};
ghost use Rattle.std.specs.Prelude.{Some, IsSome};
ghost use Rattle.reg_model.specs.State.{at_base, at_span};
ghost use Rattle.reg_model.specs.History.{with_payload, without};
ghost use Rattle.tree_shape.specs.NodeData.{Pairs, Entries, IsLeaf, IsInner, InOrder};
ghost use Rattle.tree_shape.specs.NodeData.{entries_of, pairs_of, place_for};
ghost use Rattle.tree_shape.specs.Nodes.{body_of, IsCounted};
ghost use Rattle.tree_shape.specs.Changes.{at_slot, divide, swallow_next, separate_at, with_entry};

use crate::limits::{ENTRIES, PAIRS};
use crate::node::{Content, Node, inner_of, leaf_of};
use crate::pair::Pair;
use reg_model::Member;

// Pairs with others in place of those from `slot` to before `rest`.
fn replaced(pairs: &[Pair], slot: usize, items: &[Pair], rest: usize) -> Content
    requires order { slot ≤ rest }
    requires inside { rest ≤ length pairs.now }
    requires room { slot + length items.now + (length pairs.now - rest) ≤ PAIRS }
    ensures body { body_of result
        ≡ Pairs (take slot pairs.now ++ items.now ++ drop rest pairs.now) }
    ensures counted { IsCounted result }
{
    inner_of(&pairs[..slot], items, &pairs[rest..])
}

/// A pair's part cut in two: its child ends at the new separator, and the new child comes after it.
pub fn put_pair(node: &Node, slot: usize, separator: u64, child: u32) -> Node
    requires inner { IsInner node.now }
    requires room { length (pairs_of node.now) < PAIRS }
    requires slot { slot < length (pairs_of node.now) }
    ensures { let s = node.now in
        result ≡ record s { body = Pairs (at_slot (divide separator child) slot (pairs_of s)) } }
{
    let pairs = node.pairs();
    let old = pairs[slot];
    let left = Pair {
        child: old.child,
        separator,
    };
    let right = Pair {
        child,
        separator: old.separator,
    };
    node.holding(replaced(pairs, slot, &[left, right], slot + 1))
}

/// Two pairs made into one, with the first one's child and the second one's separator.
pub fn drop_pair(node: &Node, slot: usize) -> Node
    requires inner { IsInner node.now }
    requires next { slot + 1 < length (pairs_of node.now) }
    ensures { let s = node.now in
        result ≡ record s { body = Pairs (at_slot swallow_next slot (pairs_of s)) } }
{
    let pairs = node.pairs();
    let both = Pair {
        child: pairs[slot].child,
        separator: pairs[slot + 1].separator,
    };
    node.holding(replaced(pairs, slot, &[both], slot + 2))
}

/// A pair with another separator.
pub fn set_separator(node: &Node, slot: usize, separator: u64) -> Node
    requires inner { IsInner node.now }
    requires slot { slot < length (pairs_of node.now) }
    ensures { let s = node.now in
        result ≡ record s { body = Pairs (at_slot (separate_at separator) slot (pairs_of s)) } }
{
    let pairs = node.pairs();
    let moved = Pair {
        child: pairs[slot].child,
        separator,
    };
    node.holding(replaced(pairs, slot, &[moved], slot + 1))
}

// How many entries stand before the first that begins above the address.
fn place(entries: &[Member], pc: u64) -> usize
    ensures value { result ≡ place_for pc entries.now }
    ensures inside { result ≤ length entries.now }
{
    for (place, entry) in entries.iter().enumerate() {
        if pc < entry.span.first() {
            return place;
        }
    }
    entries.len()
}

/// A leaf with one more entry, in its place.
pub fn put_entry(node: &Node, member: &Member) -> Node
    requires leaf { IsLeaf node.now }
    requires room { length (entries_of node.now) < ENTRIES }
    ensures { let s = node.now in
        result ≡ record s { body = Entries (with_entry member.now (entries_of s)) } }
{
    let entries = node.entries();
    let place = place(entries, member.span.first());
    node.holding(leaf_of(&entries[..place], &[*member], &entries[place..]))
}

/// A leaf without the entry that begins at `base`, and that entry.
pub fn take_entry(node: &Node, base: u64) -> (Node, Member)
    requires leaf { IsLeaf node.now }
    requires ordered { InOrder node.now }
    requires held { IsSome (at_base base (entries_of node.now)) }
    ensures left { let s = node.now in
        result.0 ≡ record s { body = Entries (without base (entries_of s)) } }
    ensures taken { at_base base (entries_of node.now) ≡ Some result.1 }
{
    let entries = node.entries();
    let place = place(entries, base) - 1;
    (
        node.holding(leaf_of(&entries[..place], &[], &entries[place + 1..])),
        entries[place],
    )
}

/// A leaf in which the entry with a member's whole span gives way to that member.
pub fn replace_entry(node: &Node, member: &Member) -> Node
    requires leaf { IsLeaf node.now }
    requires ordered { InOrder node.now }
    requires held { IsSome (at_span member.now.span (entries_of node.now)) }
    ensures { let s = node.now in
        result ≡ record s { body = Entries (with_payload member.now (entries_of s)) } }
{
    // A leaf has no more than fit, so one has room again.
    let _few = node.entries();
    let (others, _) = take_entry(node, member.span.first());
    put_entry(&others, member)
}
