//! The insertion of a member.
ghost use Rattle.std.specs.Prelude.{◌≡◌, ◌<◌, ◌≤◌, true, false, IfOk, IfErr};
ghost use Rattle.word_rule.specs.Places.{CALL_CREDIT};
ghost use Rattle.word_rule.specs.Callers.{IsIdle};
ghost use Rattle.word_rule.specs.CallerData.{due, surplus};
ghost use Rattle.tree_descent.specs.Paths.{HoldsNothing};
ghost use Rattle.tree_descent.specs.Updates.{GivesUp};
ghost use Rattle.btree_change.specs.Insertion.{AnswersInsertion, Inserts};

use crate::root::at_held_root;
use crate::stand::Stand;
use crate::walk::below;
use node_split::Room;
use node_store::{Busy, Locking, Waiting};
use reg_model::{Inserted, Member};
use std::sync::Wait;
use tree_descent::{Request, at_root, hold_by_sight};
use word_rule::{Caller, Words};

/// Registers a member, for an update call that was begun: Done with the next number; Overlap with
/// the lowest registered member that overlaps it; or Full where a node had to be split and none was
/// free, or the root stands at its highest. Busy where `locking` gives up, since a lock on
/// the way was found taken or the free list moved: the call is still begun, and no entry was
/// changed.
pub fn insert_by<L: Locking>(
    locking: &L,
    words: &Words,
    me: &mut Caller,
    member: Member,
) -> Result<Inserted, Busy>
    requires table { me.old.table ≡ words.now.table }
    requires idle { IsIdle me.old.log }
    requires begun { 0 < due me.old }
    requires surplus { CALL_CREDIT ≤ surplus me.old }
    requires payload { member.payload < words.now.terms.payloads }
    ensures answer { IfOk result (λ answer. AnswersInsertion words.now.terms member answer
        me.old me.new) }
    ensures busy { IfErr result (λ e. GivesUp e me.old me.new × (L.gives_up ≡ true)) }
    ensures terms { me.old.log.terms ≡ words.now.terms }
{
    let request = Request::Insertion {
        first: member.span.first(),
        last: member.span.last(),
    };
    if let Some(at) = hold_by_sight(locking, words, me, request) {
        let stand = Stand {
            at,
            beyond: None,
            room: Room::Splitting,
        };
        return below(locking, words, me, &member, stand);
    }
    let root = at_root(locking, words, me)?;
    at_held_root(locking, words, me, &member, root)
}

/// Registers a member. Spent where the caller may begin no more update calls. It takes its
/// locks by a way that never gives up.
pub fn insert_waiting<L: Locking>(
    locking: &L,
    words: &Words,
    me: &mut Caller,
    member: Member,
) -> Inserted
    requires waits { L.gives_up ≡ false }
    requires table { me.old.table ≡ words.now.table }
    requires idle { IsIdle me.old.log }
    requires payload { member.payload < words.now.terms.payloads }
    ensures answer { Inserts words.now.terms member me.old me.new result }
    ensures nothing { HoldsNothing me.new.log.holdings }
    ensures terms { 0 < me.old.left → me.old.log.terms ≡ words.now.terms }
{
    if !me.use_one() {
        return Inserted::Spent;
    }
    match insert_by(locking, words, me, member) {
        Ok(answer) => answer,
        Err(_) => unreachable!(),
    }
}

/// Registers a member. Spent where the caller may begin no more update calls. It waits for the
/// locks on the way.
pub fn insert<R: Wait>(rt: &R, words: &Words, me: &mut Caller, member: Member) -> Inserted
    requires table { me.old.table ≡ words.now.table }
    requires idle { IsIdle me.old.log }
    requires payload { member.payload < words.now.terms.payloads }
    ensures answer { Inserts words.now.terms member me.old me.new result }
    ensures nothing { HoldsNothing me.new.log.holdings }
    ensures terms { 0 < me.old.left → me.old.log.terms ≡ words.now.terms }
{
    insert_waiting(&Waiting { rt }, words, me, member)
}
