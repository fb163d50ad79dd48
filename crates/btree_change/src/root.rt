//! An insertion at the root, which is lifted where it is full.
ghost use Rattle.std.specs.Prelude.{◌≡◌, ◌-◌, ◌^◌, None};
ghost use Rattle.reg_model.specs.SpanData.{IsSpan};
ghost use Rattle.word_rule.specs.Places.{CALL_CREDIT};
ghost use Rattle.tree_descent.specs.Stands.{HoldsRoot};
ghost use Rattle.leaf_change.specs.Insertion.{MayPut};
ghost use Rattle.node_split.specs.Splits.{HoldsFullRoot};
ghost use Rattle.btree_change.specs.Roots.{EndsPart};

use crate::stand::{Stand, is_full, stand_below};
use crate::walk::below;
use node_split::{FullRoot, Room, lift, room_for_root};
use node_store::{Busy, Locking};
use reg_model::{Inserted, Member};
use tree_descent::{Held, let_go_of};
use word_rule::{Caller, Words};

/// Lifts the full root, and answers an insertion below it.
fn lifted<L: Locking>(
    locking: &L,
    words: &Words,
    me: &mut Caller,
    member: &Member,
    full: FullRoot,
) -> Result<Inserted, Busy>
    requires call { MayPut words.now member.now 39 me.old }
    requires held { HoldsFullRoot words.now.terms full member.now.span.first me.old.log.holdings }
    requires high { full.root.content.high ≡ 2 ^ 64 - 1 }
    requires span { IsSpan member.now.span }
    ensures { EndsPart words.now.terms member.now 39 Room.Splitting L.gives_up
        me.old me.new result }
{
    let step = lift(locking, words, me, &full, member.span.first());
    let stand = stand_below(locking, words, me, member, step, None);
    below(locking, words, me, member, stand)
}

/// Answers an insertion that holds the root: that is lifted where it is full, unless it has the
/// highest level or no two nodes are free.
pub(crate) fn at_held_root<L: Locking>(
    locking: &L,
    words: &Words,
    me: &mut Caller,
    member: &Member,
    root: Held,
) -> Result<Inserted, Busy>
    requires call { MayPut words.now member.now CALL_CREDIT me.old }
    requires root { HoldsRoot words.now.terms root me.old.log.holdings }
    requires span { IsSpan member.now.span }
    ensures { EndsPart words.now.terms member.now CALL_CREDIT Room.Splitting L.gives_up
        me.old me.new result }
{
    if !is_full(&root) {
        let stand = Stand {
            at: root,
            beyond: None,
            room: Room::Splitting,
        };
        return below(locking, words, me, member, stand);
    }
    match room_for_root(locking, words, me, &root, member.span.first()) {
        Ok(Some(two)) => {
            let full = FullRoot {
                root,
                left: two.left,
                right: two.right,
            };
            lifted(locking, words, me, member, full)
        }
        Ok(None) => {
            let stand = Stand {
                at: root,
                beyond: None,
                room: Room::NoneFree,
            };
            below(locking, words, me, member, stand)
        }
        Err(busy) => {
            let_go_of(locking, words, me, root.node, root.changed);
            Err(busy)
        }
    }
}
