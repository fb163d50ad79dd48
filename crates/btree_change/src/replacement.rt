//! The replacement of the member that has a whole span.
ghost use Rattle.std.specs.Prelude.{◌≡◌, ◌≤◌, ◌<◌, true, false, IfOk, IfErr};
ghost use Rattle.tree_shape.specs.NodeData.{IsInFences};
ghost use Rattle.word_rule.specs.CallerData.{due, surplus};
ghost use Rattle.word_rule.specs.Callers.{IsIdle};
ghost use Rattle.word_rule.specs.Places.{CALL_CREDIT};
ghost use Rattle.version_locks.specs.Locking.{FoundBusy};
ghost use Rattle.tree_descent.specs.Paths.{HoldsLeftOver, HoldsNothing, StepsOnNodes};
ghost use Rattle.tree_descent.specs.Releases.{Spends};
ghost use Rattle.tree_descent.specs.Removing.{HoldsAlone};
ghost use Rattle.tree_descent.specs.Updates.{GivesUp};
ghost use Rattle.btree_change.specs.Replacement.{AnswersReplacement, MakesReplacement};

use leaf_change::{entry_with, none_with, replace_in_leaf};
use node_store::{Busy, Locking, Waiting};
use reg_model::{Member, Replaced};
use std::sync::Wait;
use tree_descent::{Held, Request, at_root, hold_by_sight, let_go_of, take_child};
use word_rule::{Caller, Words};

/// The node at which a replacement begins, held alone. Nothing above a leaf changes, so by sight
/// that is the leaf.
fn begin<L: Locking>(locking: &L, words: &Words, me: &mut Caller, pc: u64) -> Result<Held, Busy>
    requires table { me.old.table ≡ words.now.table }
    requires idle { IsIdle me.old.log }
    ensures ok { IfOk result (λ at. HoldsAlone words.now.terms at me.new.log.holdings
        × IsInFences pc at.content × (at.content.level ≤ 12)) }
    ensures busy { IfErr result (λ e. HoldsNothing me.new.log.holdings × (L.gives_up ≡ true)) }
    ensures cause { IfErr result (λ e. FoundBusy e me.old me.new) }
    ensures same { StepsOnNodes me.old me.new }
    ensures terms { me.old.log.terms ≡ words.now.terms }
{
    let request = Request::Replacement { base: pc };
    match hold_by_sight(locking, words, me, request) {
        Some(at) => Ok(at),
        None => at_root(locking, words, me),
    }
}

/// The leaf for an address, held alone.
fn leaf_for<L: Locking>(locking: &L, words: &Words, me: &mut Caller, pc: u64) -> Result<Held, Busy>
    requires table { me.old.table ≡ words.now.table }
    requires idle { IsIdle me.old.log }
    requires surplus { CALL_CREDIT ≤ surplus me.old }
    ensures ok { IfOk result (λ leaf. HoldsAlone words.now.terms leaf me.new.log.holdings
        × IsInFences pc leaf.content × (leaf.content.level ≡ 0)) }
    ensures busy { IfErr result (λ e. HoldsLeftOver e me.new.log.holdings × (L.gives_up ≡ true)) }
    ensures cause { IfErr result (λ e. FoundBusy e me.old me.new) }
    ensures spends { Spends 12 me.old me.new }
    ensures terms { me.old.log.terms ≡ words.now.terms }
{
    let mut at = begin(locking, words, me, pc)?;
    while at.content.level() > 0 {
        let child = take_child(locking, words, me, at, pc)?;
        let_go_of(locking, words, me, child.above.node, child.above.changed);
        at = child.at;
    }
    Ok(at)
}

/// Gives a member the place of the registered one that has its whole span, for an update call that
/// was begun: Done with the payload that this one had. NotFound where none has that span. Busy
/// where `locking` gives up, since a lock on the way was found taken: the call is still begun.
pub fn replace_by<L: Locking>(
    locking: &L,
    words: &Words,
    me: &mut Caller,
    member: Member,
) -> Result<Replaced, Busy>
    requires table { me.old.table ≡ words.now.table }
    requires idle { IsIdle me.old.log }
    requires begun { 0 < due me.old }
    requires surplus { CALL_CREDIT ≤ surplus me.old }
    requires payload { member.payload < words.now.terms.payloads }
    ensures answer { IfOk result (λ answer. AnswersReplacement words.now.terms member answer
        me.old me.new) }
    ensures busy { IfErr result (λ e. GivesUp e me.old me.new × (L.gives_up ≡ true)) }
    ensures terms { me.old.log.terms ≡ words.now.terms }
{
    let leaf = leaf_for(locking, words, me, member.span.first())?;
    match entry_with(words, me, &leaf, &member.span) {
        None => {
            let answer = none_with(words, me, &leaf, &member);
            let_go_of(locking, words, me, leaf.node, leaf.changed);
            Ok(answer)
        }
        Some(old) => {
            let (number, stored) = replace_in_leaf(words, me, &leaf, &member, &old);
            let_go_of(locking, words, me, leaf.node, stored);
            let payload = old.payload;
            Ok(Replaced::Done { number, payload })
        }
    }
}

/// Gives a member the place of the registered one that has its whole span. NotFound where none has
/// it, and Spent where the caller may begin no more update calls. It takes its locks by a way that
/// never gives up.
pub fn replace_waiting<L: Locking>(
    locking: &L,
    words: &Words,
    me: &mut Caller,
    member: Member,
) -> Replaced
    requires waits { L.gives_up ≡ false }
    requires table { me.old.table ≡ words.now.table }
    requires idle { IsIdle me.old.log }
    requires payload { member.payload < words.now.terms.payloads }
    ensures answer { MakesReplacement words.now.terms member me.old me.new result }
    ensures nothing { HoldsNothing me.new.log.holdings }
    ensures terms { 0 < me.old.left → me.old.log.terms ≡ words.now.terms }
{
    if !me.use_one() {
        return Replaced::Spent;
    }
    match replace_by(locking, words, me, member) {
        Ok(answer) => answer,
        Err(_) => unreachable!(),
    }
}

/// Gives a member the place of the registered one that has its whole span. NotFound where none has
/// it, and Spent where the caller may begin no more update calls. It waits for the locks on the
/// way.
pub fn replace<R: Wait>(rt: &R, words: &Words, me: &mut Caller, member: Member) -> Replaced
    requires table { me.old.table ≡ words.now.table }
    requires idle { IsIdle me.old.log }
    requires payload { member.payload < words.now.terms.payloads }
    ensures answer { MakesReplacement words.now.terms member me.old me.new result }
    ensures nothing { HoldsNothing me.new.log.holdings }
    ensures terms { 0 < me.old.left → me.old.log.terms ≡ words.now.terms }
{
    replace_waiting(&Waiting { rt }, words, me, member)
}
