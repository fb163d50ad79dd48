//! The way of an insertion from where it stands down to its leaf, and its answer there.
ghost use Rattle.std.specs.Prelude.{◌≡◌, ◌≤◌, None, length};
ghost use Rattle.reg_model.specs.State.{IsFree};
ghost use Rattle.reg_model.specs.SpanData.{IsSpan};
ghost use Rattle.tree_shape.specs.NodeData.{entries_of, place_for};
ghost use Rattle.tree_descent.specs.Insertion.{IfFull};
ghost use Rattle.leaf_change.specs.Insertion.{MayPut, EndsInsertion};
ghost use Rattle.btree_change.specs.Roots.{EndsPart};
ghost use Rattle.btree_change.specs.Stands.{HasCause, StandsOnWay, releases_from};

use crate::beyond::{Far, beyond_leaf};
use crate::stand::{Stand, go_below, kept, let_go_of_all};
use leaf_change::{put_in_held, refused, say_full};
use node_split::Room;
use node_store::{Busy, Locking, Placed, begun_in};
use reg_model::{Inserted, Member};
use tree_descent::{Held, let_go_of};
use word_rule::{Caller, Words};

/// Puts a member into its leaf, in which nothing overlaps it and whose fences hold its span, or
/// says Full. Lets go of the leaf.
fn in_place<L: Locking>(
    locking: &L,
    words: &Words,
    me: &mut Caller,
    placed: &Placed,
    leaf: &Held,
    room: Room,
) -> Inserted
    requires call { MayPut words.now placed.now.member 1 me.old }
    requires stands { StandsOnWay words.now.terms placed.now.member
        (record { at = leaf.now; beyond = None; room = room }) me.old.log }
    requires level { leaf.now.content.level ≡ 0 }
    requires free { IsFree placed.now.member.span (entries_of leaf.now.content) }
    requires place { placed.now.place
        ≡ place_for placed.now.member.span.first (entries_of leaf.now.content) }
    requires few { placed.now.place ≤ length (entries_of leaf.now.content) }
    requires span { IsSpan placed.now.member.span }
    ensures answer { EndsInsertion words.now.terms placed.now.member result 1 me.old me.new }
    ensures full { IfFull result (HasCause room placed.now.member.span.first me.old me.new) }
{
    match room {
        Room::NoneFree => {
            let answer = say_full(words, me, &placed.member);
            let_go_of(locking, words, me, leaf.node, leaf.changed);
            answer
        }
        Room::Splitting => put_in_held(locking, words, me, leaf, placed),
    }
}

/// Answers an insertion that stands at a leaf in which nothing overlaps, and lets go of all.
fn in_free_leaf<L: Locking>(
    locking: &L,
    words: &Words,
    me: &mut Caller,
    placed: &Placed,
    stand: Stand,
) -> Result<Inserted, Busy>
    requires call { MayPut words.now placed.now.member (releases_from stand) me.old }
    requires stands { StandsOnWay words.now.terms placed.now.member stand me.old.log }
    requires level { stand.at.content.level ≡ 0 }
    requires free { IsFree placed.now.member.span (entries_of stand.at.content) }
    requires place { placed.now.place
        ≡ place_for placed.now.member.span.first (entries_of stand.at.content) }
    requires few { placed.now.place ≤ length (entries_of stand.at.content) }
    requires span { IsSpan placed.now.member.span }
    ensures { EndsPart words.now.terms placed.now.member (releases_from stand) stand.room L.gives_up
        me.old me.new result }
{
    let Stand { at, beyond, room } = stand;
    match beyond {
        Some(beyond) => {
            let far = Far {
                leaf: at,
                beyond,
                room,
            };
            beyond_leaf(locking, words, me, &placed.member, far)
        }
        None => Ok(in_place(locking, words, me, placed, &at, room)),
    }
}

/// Answers an insertion that stands at a leaf, and lets go of all.
fn in_leaf<L: Locking>(
    locking: &L,
    words: &Words,
    me: &mut Caller,
    member: &Member,
    stand: Stand,
) -> Result<Inserted, Busy>
    requires call { MayPut words.now member.now (releases_from stand) me.old }
    requires stands { StandsOnWay words.now.terms member.now stand me.old.log }
    requires level { stand.at.content.level ≡ 0 }
    requires span { IsSpan member.now.span }
    ensures { EndsPart words.now.terms member.now (releases_from stand) stand.room L.gives_up
        me.old me.new result }
{
    let first = member.span.first();
    let begun = begun_in(words, me, stand.at.node, &stand.at.content, first);
    match refused(words, me, &stand.at, begun, member) {
        Some(answer) => {
            let_go_of_all(locking, words, me, kept(&stand.at), stand.beyond);
            Ok(answer)
        }
        None => {
            let placed = Placed {
                place: begun,
                member: *member,
            };
            in_free_leaf(locking, words, me, &placed, stand)
        }
    }
}

/// Answers an insertion from where it stands, and lets go of all.
pub(crate) fn below<L: Locking>(
    locking: &L,
    words: &Words,
    me: &mut Caller,
    member: &Member,
    stand: Stand,
) -> Result<Inserted, Busy>
    requires call { MayPut words.now member.now (releases_from stand) me.old }
    requires stands { StandsOnWay words.now.terms member.now stand me.old.log }
    requires span { IsSpan member.now.span }
    ensures { EndsPart words.now.terms member.now (releases_from stand) stand.room L.gives_up
        me.old me.new result }
{
    let mut stand = stand;
    while stand.at.content.level() > 0 {
        stand = go_below(locking, words, me, member, stand)?;
    }
    in_leaf(locking, words, me, member, stand)
}
