//! The beginning of an update by sight.
//!
//! An update goes down as a lookup does, by loads alone, and stops above the first node that it
//! would split or mend. It locks the node there in one step, at the version with which the sight of
//! it began: so nothing in it has changed since, and it is still the tree's. From there on locks
//! are coupled. An update that changes nothing above its leaf locks its leaf alone.
ghost use Rattle.std.specs.Prelude.{◌≡◌, ◌≢◌, ◌<◌, true, IfNone, IfOk, IfSome};
ghost use Rattle.word_rule.specs.Sights.{after_node_load};
ghost use Rattle.node_store.specs.Holding.{SpellsHeld};
ghost use Rattle.node_store.specs.Outlines.{OnlyLoads};
ghost use Rattle.tree_descent.specs.BySight.{CountFits, EndsAttempt, EndsInside, HoldsFor};
ghost use Rattle.tree_descent.specs.BySight.{IsSeenFor, OnlySees, asked_address, most_at, spare_at};
ghost use Rattle.tree_descent.specs.Paths.{HoldsNothing, StepsOnNodes};

use crate::descent::Held;
use btree_lookup::visit::{self, Visit};
use crossbeam_utils::Backoff;
use node_store::{Locking, high_of, outline_of};
use reg_model::Again;
use tree_shape::{ENTRIES, PAIRS};
use word_rule::places::COUNT;
use word_rule::{Ask, Caller, LockId, Words};

/// Below so many entries, or so many pairs, a node can't lose one.
pub const ENTRIES_TO_SPARE: u64 = 5;

pub const PAIRS_TO_SPARE: u64 = 7;

/// So often an update tries to begin by sight, before it waits for the root's lock.
const ATTEMPTS: u32 = 32;

/// What an update asks of the nodes on its way.
#[derive(Clone, Copy, Debug)]
pub enum Request {
    /// An entry more: a member with these first and last addresses.
    Insertion { first: u64, last: u64 },
    /// An entry less: the member that begins there.
    Removal { base: u64 },
    /// Another entry with the same span, which begins there.
    Replacement { base: u64 },
}

/// A node that was visited on the way down, and its count.
#[derive(Clone, Copy)]
struct Seen {
    visit: Visit,
    count: u64,
}

/// What became of an attempt to lock a node that was seen.
#[derive(Drop)]
enum SightOutcome {
    /// This node is held.
    Holds(Held),
    /// The span ends beyond the fences of the node that was locked, which has this level.
    Beyond { level: u32 },
    /// A version was found changed or locked.
    Raced,
}

/// The greatest number of entries of a leaf, or of pairs of a node above the leaves.
fn greatest_count(level: u64) -> u64
    ensures { result ≡ most_at level }
{
    if level == 0 {
        ENTRIES as u64
    } else {
        PAIRS as u64
    }
}

/// With so many entries, or above the leaves so many pairs, a node can lose one.
fn spare_count(level: u64) -> u64
    ensures { result ≡ spare_at level }
{
    if level == 0 {
        ENTRIES_TO_SPARE
    } else {
        PAIRS_TO_SPARE
    }
}

impl Request {
    /// The address that leads to the leaf.
    fn address(self) -> u64
        ensures { result ≡ asked_address self }
    {
        match self {
            Request::Insertion { first, .. } => first,
            Request::Removal { base } | Request::Replacement { base } => base,
        }
    }

    /// Whether a node can take the change from below: it isn't full, or it has one to spare, which
    /// the root doesn't need. A replacement changes no count.
    fn fits(self, seen: Seen) -> bool
        ensures { result ≡ true → CountFits self seen }
    {
        let level = seen.visit.level;
        match self {
            Request::Insertion { .. } => seen.count != greatest_count(level),
            Request::Removal { .. } => seen.visit.node == 0 || seen.count >= spare_count(level),
            Request::Replacement { .. } => true,
        }
    }
}

/// Loads the count of a node that is visited.
fn counted(words: &Words, me: &mut Caller, visit: Visit) -> Seen
    requires table { me.old.table ≡ words.now.table }
    requires inside { visit.node < words.now.terms.nodes }
    ensures visit { result.visit ≡ visit }
    ensures log { me.new ≡ record me.old {
      log = after_node_load visit.node 5 result.count me.old.log;
    } }
{
    let count = words.load_node(me, visit.node, COUNT);
    Seen { visit, count }
}

/// A node that may be locked by sight: any but the root.
fn below_root(at: Seen) -> Option<Seen>
    ensures { IfSome result (λ seen. (seen ≡ at) × (at.visit.node ≢ 0)) }
{
    if at.visit.node == 0 { None } else { Some(at) }
}

/// The node at which an update may begin, no lower than a level: it fits, and so do all above it,
/// and the next one below doesn't. None where that is the root.
fn seek(
    words: &Words,
    me: &mut Caller,
    request: Request,
    lowest: u64,
) -> Result<Option<Seen>, Again>
    requires table { me.old.table ≡ words.now.table }
    ensures seen { IfOk result (λ found. IfSome found
        (λ seen. IsSeenFor words.now.terms request seen me.new)) }
    ensures sees { OnlySees me.old me.new }
{
    let pc = request.address();
    let root = visit::root(words, me)?;
    let mut at = counted(words, me, root);
    if !request.fits(at) {
        return Ok(None);
    }
    while at.visit.level > lowest {
        let child = visit::descend(words, me, at.visit, at.count, pc)?;
        let next = counted(words, me, child);
        if !request.fits(next) {
            return Ok(below_root(at));
        }
        at = next;
    }
    Ok(below_root(at))
}

/// Whether a held node's fences hold all of what is asked for. A removal and a replacement ask for
/// an address, which led there.
fn ends_inside(words: &Words, me: &mut Caller, at: &Held, request: Request) -> bool
    requires table { me.old.table ≡ words.now.table }
    requires inside { at.now.node < words.now.terms.nodes }
    requires spells { SpellsHeld at.now.node at.now.content me.old.log }
    ensures inside { result ≡ true → EndsInside request at.now.content }
    ensures loads { OnlyLoads me.old me.new }
{
    match request {
        Request::Insertion { last, .. } => last <= high_of(words, me, at.node, &at.content),
        Request::Removal { .. } | Request::Replacement { .. } => true,
    }
}

/// Locks a node that was seen, at the version with which the sight of it began.
fn hold_seen<L: Locking>(
    locking: &L,
    words: &Words,
    me: &mut Caller,
    seen: Seen,
    request: Request,
) -> SightOutcome
    requires table { me.old.table ≡ words.now.table }
    requires terms { me.old.log.terms ≡ words.now.terms }
    requires nothing { HoldsNothing me.old.log.holdings }
    requires seen { IsSeenFor words.now.terms request seen me.old }
    ensures ends { EndsAttempt words.now.terms request result me.new.log.holdings }
    ensures same { StepsOnNodes me.old me.new }
{
    let Visit { node, version, .. } = seen.visit;
    // Never so: a sight begins where a node isn't locked.
    if version % 2 != 0 {
        return SightOutcome::Raced;
    }
    let Ok(()) = words.lock_seen(me, node, version) else {
        return SightOutcome::Raced;
    };
    let at = Held {
        node,
        content: outline_of(words, me, node),
        changed: false,
    };
    if ends_inside(words, me, &at, request) {
        return SightOutcome::Holds(at);
    }
    locking.let_go_same(words, me, LockId::Node { node });
    SightOutcome::Beyond {
        level: at.content.level(),
    }
}

/// Holds the node at which an update may begin, alone. None where that is the root, or where each
/// attempt found a version changed or locked: then nothing is held.
pub fn hold_by_sight<L: Locking>(
    locking: &L,
    words: &Words,
    me: &mut Caller,
    request: Request,
) -> Option<Held>
    requires table { me.old.table ≡ words.now.table }
    requires nothing { HoldsNothing me.old.log.holdings }
    ensures holds { IfSome result (λ at. HoldsFor words.now.terms request at me.new.log.holdings) }
    ensures nothing { IfNone result (HoldsNothing me.new.log.holdings) }
    ensures same { StepsOnNodes me.old me.new }
    ensures terms { me.old.log.terms ≡ words.now.terms }
{
    let _some = words.nodes();
    // By this load it is known that the caller's terms are those of the words.
    words.load_version(me, LockId::Node { node: 0 }, Ask::Nothing);
    let backoff = Backoff::new();
    let mut lowest = 0;
    for _ in 0..ATTEMPTS {
        match seek(words, me, request, lowest) {
            Ok(Some(seen)) => match hold_seen(locking, words, me, seen, request) {
                SightOutcome::Holds(at) => return Some(at),
                SightOutcome::Beyond { level } => lowest = level as u64 + 1,
                SightOutcome::Raced => locking.pause(&backoff),
            },
            Ok(None) => return None,
            Err(_) => locking.pause(&backoff),
        }
    }
    None
}
