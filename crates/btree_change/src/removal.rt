//! The removal of the member that begins at an address.
ghost use Rattle.std.specs.Prelude.{◌≡◌, ◌≤◌, ◌<◌, ◌+◌, ◌||◌, ◌≢◌, true, false, IsTrue, IfOk};
ghost use Rattle.std.specs.Prelude.{IfErr, length};
ghost use Rattle.tree_shape.specs.Changes.{Fit, Overfill};
ghost use Rattle.tree_laws.specs.Lawful.{IsFilled, IsOrdered};
ghost use Rattle.tree_shape.specs.NodeData.{IsInFences, IsInner, pairs_of};
ghost use Rattle.word_rule.specs.CallerData.{due, surplus};
ghost use Rattle.word_rule.specs.Callers.{IsIdle};
ghost use Rattle.word_rule.specs.Places.{CALL_CREDIT};
ghost use Rattle.version_locks.specs.Locking.{FoundBusy};
ghost use Rattle.tree_descent.specs.Paths.{HoldsLeftOver, HoldsNothing, StepsOnNodes};
ghost use Rattle.tree_descent.specs.Releases.{Spends};
ghost use Rattle.tree_descent.specs.Removing.{HoldsOnWay, IsSpare};
ghost use Rattle.tree_descent.specs.Updates.{GivesUp};
ghost use Rattle.node_mend.specs.Siblings.{HoldsSiblings, IsInEither, SameKind, is_small_body};
ghost use Rattle.btree_change.specs.Removal.{AnswersRemoval, Removes};

use leaf_change::{not_found, take_in_leaf};
use node_mend::{Siblings, is_leaf, is_small, join, pair_count, share, sink, take_sibling};
use node_store::{Busy, Locking, Waiting, begun_in};
use reg_model::Removed;
use std::sync::Wait;
use tree_descent::{Held, Request, at_root, hold_by_sight, let_go_of, take_child};
use tree_shape::{ENTRIES, PAIRS};
use word_rule::{Caller, Words};

/// Whether two neighbours fit into one node.
fn fit(x: &Siblings) -> bool
    requires kind { SameKind x.now.left.content.body x.now.right.content.body }
    requires ordered { IsOrdered x.now.left.content }
    requires left { IsFilled x.now.left.node x.now.left.content }
    requires right { IsFilled x.now.right.node x.now.right.content }
    ensures fit { result ≡ true → Fit x.now.left.content x.now.right.content }
    ensures over { result ≡ false → Overfill x.now.left.content x.now.right.content }
{
    let count = x.left.content.count() + x.right.content.count();
    if is_leaf(&x.left.content) {
        count <= ENTRIES as u64
    } else {
        count <= PAIRS as u64
    }
}

/// Whether two children that fit into one leave a root that has no others.
fn sinks(x: &Siblings) -> bool
    requires { IsInner x.now.above.content }
    ensures root { result ≡ true → x.now.above.node ≡ 0 }
    ensures two { result ≡ true → length (pairs_of x.now.above.content) ≡ 2 }
    ensures more { result ≡ false → x.now.above.node ≡ 0
        → length (pairs_of x.now.above.content) ≢ 2 }
{
    x.above.node == 0 && pair_count(&x.above.content) == 2
}

/// Joins two children of a held node, or gives them even shares, or sinks the root: the node that
/// has the address, held alone, with one to spare. Lost where a node that left the tree can't be
/// put back.
fn mend<L: Locking>(
    locking: &L,
    words: &Words,
    me: &mut Caller,
    x: Siblings,
    pc: u64,
) -> Result<Held, Busy>
    requires table { me.old.table ≡ words.now.table }
    requires terms { me.old.log.terms ≡ words.now.terms }
    requires held { HoldsSiblings words.now.terms x me.old.log.holdings }
    requires between { IsInEither pc x }
    requires small { IsTrue (is_small_body x.left.content.body
        || is_small_body x.right.content.body) }
    requires spare { IsSpare x.above.node x.above.content }
    requires here { IsInFences pc x.above.content }
    requires surplus { 2 < surplus me.old }
    ensures ok { IfOk result (λ below. HoldsOnWay words.now.terms pc below me.new.log.holdings
        × (below.content.level + 1 ≡ x.above.content.level)) }
    ensures busy { IfErr result (λ e. HoldsLeftOver e me.new.log.holdings × (L.gives_up ≡ true)) }
    ensures cause { IfErr result (λ e. FoundBusy e me.old me.new) }
    ensures spends { IfOk result (λ below. Spends 2 me.old me.new) }
    ensures most { IfErr result (λ e. Spends 3 me.old me.new) }
{
    let above = x.above.node;
    if !fit(&x) {
        let below = share(locking, words, me, &x, pc);
        let_go_of(locking, words, me, above, true);
        return Ok(below);
    }
    if sinks(&x) {
        return match sink(locking, words, me, &x) {
            Ok(root) => Ok(root),
            Err(busy) => {
                let_go_of(locking, words, me, above, true);
                Err(busy)
            }
        };
    }
    match join(locking, words, me, &x) {
        Ok(below) => {
            let_go_of(locking, words, me, above, true);
            Ok(below)
        }
        Err(busy) => {
            let_go_of(locking, words, me, above, true);
            Err(busy)
        }
    }
}

/// From an inner node, held alone, down to its child for an address, which gets a pair or an entry
/// to spare: that is held alone then.
fn step_down<L: Locking>(
    locking: &L,
    words: &Words,
    me: &mut Caller,
    above: Held,
    pc: u64,
) -> Result<Held, Busy>
    requires table { me.old.table ≡ words.now.table }
    requires terms { me.old.log.terms ≡ words.now.terms }
    requires on_way { HoldsOnWay words.now.terms pc above me.old.log.holdings }
    requires inner { 0 < above.content.level }
    requires surplus { 2 < surplus me.old }
    ensures ok { IfOk result (λ below. HoldsOnWay words.now.terms pc below me.new.log.holdings
        × (below.content.level + 1 ≡ above.content.level)) }
    ensures busy { IfErr result (λ e. HoldsLeftOver e me.new.log.holdings × (L.gives_up ≡ true)) }
    ensures cause { IfErr result (λ e. FoundBusy e me.old me.new) }
    ensures spends { IfOk result (λ below. Spends 2 me.old me.new) }
    ensures most { IfErr result (λ e. Spends 3 me.old me.new) }
{
    let child = take_child(locking, words, me, above, pc)?;
    if !is_small(&child.at.content) {
        let_go_of(locking, words, me, child.above.node, child.above.changed);
        return Ok(child.at);
    }
    match take_sibling(locking, words, me, child, pc) {
        Ok(x) => mend(locking, words, me, x, pc),
        Err(busy) => Err(busy),
    }
}

/// The node at which a removal begins, held alone, with one to spare unless it is the root.
fn begin<L: Locking>(locking: &L, words: &Words, me: &mut Caller, pc: u64) -> Result<Held, Busy>
    requires table { me.old.table ≡ words.now.table }
    requires idle { IsIdle me.old.log }
    ensures ok { IfOk result (λ at. HoldsOnWay words.now.terms pc at me.new.log.holdings
        × (at.content.level ≤ 12)) }
    ensures busy { IfErr result (λ e. HoldsNothing me.new.log.holdings × (L.gives_up ≡ true)) }
    ensures cause { IfErr result (λ e. FoundBusy e me.old me.new) }
    ensures same { StepsOnNodes me.old me.new }
    ensures terms { me.old.log.terms ≡ words.now.terms }
{
    let request = Request::Removal { base: pc };
    match hold_by_sight(locking, words, me, request) {
        Some(at) => Ok(at),
        None => at_root(locking, words, me),
    }
}

/// The leaf for an address, held alone, with an entry to spare.
fn leaf_for<L: Locking>(locking: &L, words: &Words, me: &mut Caller, pc: u64) -> Result<Held, Busy>
    requires table { me.old.table ≡ words.now.table }
    requires idle { IsIdle me.old.log }
    requires surplus { CALL_CREDIT ≤ surplus me.old }
    ensures ok { IfOk result (λ leaf. HoldsOnWay words.now.terms pc leaf me.new.log.holdings
        × (leaf.content.level ≡ 0)) }
    ensures busy { IfErr result (λ e. HoldsLeftOver e me.new.log.holdings × (L.gives_up ≡ true)) }
    ensures cause { IfErr result (λ e. FoundBusy e me.old me.new) }
    ensures spends { IfOk result (λ leaf. Spends 24 me.old me.new) }
    ensures most { IfErr result (λ e. Spends 27 me.old me.new) }
    ensures terms { me.old.log.terms ≡ words.now.terms }
{
    let mut at = begin(locking, words, me, pc)?;
    while at.content.level() > 0 {
        at = match step_down(locking, words, me, at, pc) {
            Ok(below) => below,
            Err(busy) => return Err(busy),
        };
    }
    Ok(at)
}

/// Removes the member that begins at a base, for an update call that was begun. NotFound where none
/// begins there. Busy where `locking` gives up, since a lock on the way was found taken or a node
/// couldn't be put back: the call is still begun.
pub fn remove_by<L: Locking>(
    locking: &L,
    words: &Words,
    me: &mut Caller,
    base: u64,
) -> Result<Removed, Busy>
    requires table { me.old.table ≡ words.now.table }
    requires idle { IsIdle me.old.log }
    requires begun { 0 < due me.old }
    requires surplus { CALL_CREDIT ≤ surplus me.old }
    ensures answer { IfOk result (λ answer. AnswersRemoval words.now.terms base answer
        me.old me.new) }
    ensures busy { IfErr result (λ e. GivesUp e me.old me.new × (L.gives_up ≡ true)) }
    ensures terms { me.old.log.terms ≡ words.now.terms }
{
    let leaf = leaf_for(locking, words, me, base)?;
    let begun = begun_in(words, me, leaf.node, &leaf.content, base);
    if let Some(answer) = not_found(words, me, &leaf, begun, base) {
        let_go_of(locking, words, me, leaf.node, leaf.changed);
        return Ok(answer);
    }
    let (number, member) = take_in_leaf(words, me, &leaf, begun, base);
    let_go_of(locking, words, me, leaf.node, true);
    Ok(Removed::Done { number, member })
}

/// Removes the member that begins at a base. NotFound where none begins there, and Spent where the
/// caller may begin no more update calls. It takes its locks by a way that never gives up.
pub fn remove_waiting<L: Locking>(locking: &L, words: &Words, me: &mut Caller, base: u64) -> Removed
    requires waits { L.gives_up ≡ false }
    requires table { me.old.table ≡ words.now.table }
    requires idle { IsIdle me.old.log }
    ensures answer { Removes words.now.terms base me.old me.new result }
    ensures nothing { HoldsNothing me.new.log.holdings }
    ensures terms { 0 < me.old.left → me.old.log.terms ≡ words.now.terms }
{
    if !me.use_one() {
        return Removed::Spent;
    }
    match remove_by(locking, words, me, base) {
        Ok(answer) => answer,
        Err(_) => unreachable!(),
    }
}

/// Removes the member that begins at a base. NotFound where none begins there, and Spent where the
/// caller may begin no more update calls. It waits for the locks on the way.
pub fn remove<R: Wait>(rt: &R, words: &Words, me: &mut Caller, base: u64) -> Removed
    requires table { me.old.table ≡ words.now.table }
    requires idle { IsIdle me.old.log }
    ensures answer { Removes words.now.terms base me.old me.new result }
    ensures nothing { HoldsNothing me.new.log.holdings }
    ensures terms { 0 < me.old.left → me.old.log.terms ≡ words.now.terms }
{
    remove_waiting(&Waiting { rt }, words, me, base)
}
