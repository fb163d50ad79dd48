//! Steps on nodes.
ghost use Rattle.std.specs.Prelude.{◌≡◌, ◌≢◌, ◌+◌, ◌*◌, ◌%◌, ◌^◌, ◌<◌, ◌≤◌, ◌==◌, MatchBool};
ghost use Rattle.std.specs.Prelude.{IfOk, IfErr, IfSome, IsSomeAnd, false};
ghost use Rattle.word_rule.specs.CallerData.{surplus};
ghost use Rattle.word_rule.specs.Callers.{IsLockedAt};
ghost use Rattle.word_rule.specs.Held.{held_of};
ghost use Rattle.word_rule.specs.Logs.{after_load, is_gone};
ghost use Rattle.word_rule.specs.NodeTells.{AloneTells, HeldTells, HolderTells, KnowsTree};
ghost use Rattle.word_rule.specs.NodeTells.{OutTells, SightTells};
ghost use Rattle.word_rule.specs.Places.{node_place};
ghost use Rattle.word_rule.specs.Plays.{TakesNode, TakesSeen};
ghost use Rattle.word_rule.specs.Sights.{after_node_begin, after_node_load, after_node_version};
ghost use Rattle.word_rule.specs.Steps.{MayRelease, MayStore, after_node_release};
ghost use Rattle.word_rule.specs.Steps.{after_node_release_same, after_node_store};
ghost use Rattle.word_rule.specs.VersionLocks.{NodeSeen, NodeTaken};

use crate::caller::Caller;
use crate::exchange::exchange_laws;
use crate::log::{Ask, Log, Role};
use crate::places::{LOCKED, VERSION, place_of};
use crate::rule::{
    AtNode, BeginsSight, GrabsNode, LoadsNode, LoadsVersion, LocksNode, LocksSeen, PeeksNode,
    ReleasesNode, ReleasesSameNode, StoresNode,
};
use crate::words::Words;
use atomic_table::Seat;
use std::marker::Brand;
use tree_laws::laws;

impl Words {
    pub(crate) fn load_version_for<N: AtNode>(
        &self,
        seat: &mut Seat<(), Log>,
        node: u32,
        ask: Ask,
    ) -> u64
        requires table { seat.old.table_id ≡ self.now.table }
        requires about { (N.node ≡ node) × (N.ask ≡ ask) × (N.terms ≡ self.now.terms) }
        requires inside { node < self.now.terms.nodes }
        requires stands { is_gone seat.old.me.0.role ≡ false }
        ensures same { (seat.new.table_id ≡ seat.old.table_id) × (seat.new.id ≡ seat.old.id)
            × (seat.new.me.1 ≡ seat.old.me.1) }
        ensures log { seat.new.me.0 ≡ after_node_version N.ask N.node result seat.old.me.0 }
        ensures terms { seat.old.me.0.terms ≡ N.terms }
        ensures tells { SightTells N.node result seat.old.me.0 }
        ensures held { IfSome (held_of N.node seat.old.me.0.holdings.held)
            (λ h. IsLockedAt h.version result) }
        ensures alone { AloneTells N.node result seat.old.me.0 }
    {
        let _ = ask;
        laws::children();
        self.table
            .shared
            .load::<LoadsVersion<N>>(seat, place_of(node))
    }

    /// Loads the version word of a node.
    pub(crate) fn load_node_version(&self, me: &mut Caller, node: u32, ask: Ask) -> u64
        requires table { me.old.table ≡ self.now.table }
        requires inside { node < self.now.terms.nodes }
        ensures log { me.new
            ≡ record me.old { log = after_node_version ask node result me.old.log } }
        ensures terms { me.old.log.terms ≡ self.now.terms }
        ensures tells { SightTells node result me.old.log }
        ensures held { IfSome (held_of node me.old.log.holdings.held)
            (λ h. IsLockedAt h.version result) }
        ensures alone { AloneTells node result me.old.log }
    {
        self.load_version_for::<Brand>(&mut me.seat, node, ask)
    }

    pub(crate) fn begin_sight_for<N: AtNode>(&self, seat: &mut Seat<(), Log>, node: u32) -> u64
        requires table { seat.old.table_id ≡ self.now.table }
        requires about { N.node ≡ node }
        requires inside { node < self.now.terms.nodes }
        requires stands { is_gone seat.old.me.0.role ≡ false }
        ensures same { (seat.new.table_id ≡ seat.old.table_id) × (seat.new.id ≡ seat.old.id)
            × (seat.new.me.1 ≡ seat.old.me.1) }
        ensures log { seat.new.me.0 ≡ after_node_begin N.node result seat.old.me.0 }
        ensures held { IfSome (held_of N.node seat.old.me.0.holdings.held)
            (λ h. IsLockedAt h.version result) }
        ensures alone { AloneTells N.node result seat.old.me.0 }
    {
        laws::children();
        self.table
            .shared
            .load::<BeginsSight<N>>(seat, place_of(node))
    }

    /// Loads the version word of a node, and begins a sight of it where it isn't locked: whatever
    /// was loaded of the node before is forgotten.
    pub fn begin_sight(&self, me: &mut Caller, node: u32) -> u64
        requires table { me.old.table ≡ self.now.table }
        requires inside { node < self.now.terms.nodes }
        ensures log { me.new ≡ record me.old { log = after_node_begin node result me.old.log } }
        ensures held { IfSome (held_of node me.old.log.holdings.held)
            (λ h. IsLockedAt h.version result) }
        ensures alone { AloneTells node result me.old.log }
    {
        self.begin_sight_for::<Brand>(&mut me.seat, node)
    }

    pub(crate) fn load_node_for<N: AtNode>(
        &self,
        seat: &mut Seat<(), Log>,
        node: u32,
        at: u32,
    ) -> u64
        requires table { seat.old.table_id ≡ self.now.table }
        requires about { (N.node ≡ node) × (N.at ≡ at) }
        requires inside { node < self.now.terms.nodes }
        requires word { (1 ≤ at) × (at ≤ 35) }
        requires stands { is_gone seat.old.me.0.role ≡ false }
        ensures same { (seat.new.table_id ≡ seat.old.table_id) × (seat.new.id ≡ seat.old.id)
            × (seat.new.me.1 ≡ seat.old.me.1) }
        ensures log { seat.new.me.0 ≡ after_node_load N.node N.at result seat.old.me.0 }
        ensures held { HeldTells N.node N.at result seat.old.me.0 }
        ensures holder { HolderTells N.node seat.old.me.0 }
        ensures out { OutTells N.node seat.old.me.0 }
        ensures tree { KnowsTree seat.old.me.0.holdings }
    {
        laws::fillings();
        laws::order();
        laws::children();
        self.table
            .shared
            .load::<LoadsNode<N>>(seat, place_of(node) + at as usize)
    }

    /// Loads a word of a node, counted from its version word. Where the caller doesn't hold the
    /// node, the word joins its sight of it.
    pub fn load_node(&self, me: &mut Caller, node: u32, at: u32) -> u64
        requires table { me.old.table ≡ self.now.table }
        requires inside { node < self.now.terms.nodes }
        requires word { (1 ≤ at) × (at ≤ 35) }
        ensures log { me.new ≡ record me.old { log = after_node_load node at result me.old.log } }
        ensures held { HeldTells node at result me.old.log }
        ensures holder { HolderTells node me.old.log }
        ensures out { OutTells node me.old.log }
        ensures tree { KnowsTree me.old.log.holdings }
    {
        self.load_node_for::<Brand>(&mut me.seat, node, at)
    }

    fn try_node_for<N: AtNode>(&self, seat: &mut Seat<(), Log>, node: u32, seen: u64) -> u64
        requires table { seat.old.table_id ≡ self.now.table }
        requires about { N.node ≡ node }
        requires inside { node < self.now.terms.nodes }
        requires unlocked { seen % 2 ≡ 0 }
        requires caller { seat.old.me.0.role ≡ Role.Caller }
        ensures same { (seat.new.table_id ≡ seat.old.table_id) × (seat.new.id ≡ seat.old.id) }
        ensures log { MatchBool (result == seen) (TakesNode N.node seen seat.old.me seat.new.me)
            (seat.new.me ≡ (after_load (node_place N.node) result seat.old.me.0, seat.old.me.1)) }
    {
        laws::children();
        self.table
            .shared
            .compare_exchange::<LocksNode<N>>(seat, place_of(node), seen, seen | LOCKED)
    }

    /// Locks a node at the version seen.
    pub(crate) fn try_node(&self, me: &mut Caller, node: u32, seen: u64) -> Result<(), u64>
        requires table { me.old.table ≡ self.now.table }
        requires inside { node < self.now.terms.nodes }
        requires unlocked { seen % 2 ≡ 0 }
        ensures ok { IfOk result (λ _. NodeTaken node seen me.old me.new) }
        ensures err { IfErr result
            (λ found. (found ≢ seen)
            × (me.new ≡ record me.old { log = after_load (node_place node) found me.old.log })) }
    {
        let found = self.try_node_for::<Brand>(&mut me.seat, node, seen);
        if found != seen {
            return Err(found);
        }
        Ok(())
    }

    fn lock_seen_for<N: AtNode>(&self, seat: &mut Seat<(), Log>, node: u32, seen: u64) -> u64
        requires table { seat.old.table_id ≡ self.now.table }
        requires about { N.node ≡ node }
        requires inside { node < self.now.terms.nodes }
        requires unlocked { seen % 2 ≡ 0 }
        requires caller { seat.old.me.0.role ≡ Role.Caller }
        ensures same { (seat.new.table_id ≡ seat.old.table_id) × (seat.new.id ≡ seat.old.id) }
        ensures log { MatchBool (result == seen) (TakesSeen N.node seen seat.old.me seat.new.me)
            (seat.new.me ≡ (after_load (node_place N.node) result seat.old.me.0, seat.old.me.1)) }
    {
        laws::children();
        self.table
            .shared
            .compare_exchange::<LocksSeen<N>>(seat, place_of(node), seen, seen | LOCKED)
    }

    /// Locks a node by sight, in one step, at the version seen, which was not locked. Where the
    /// caller's sight of it is live and has that version, the node is live at the sight's place,
    /// and what was loaded of it are its words. Else answers the word found.
    pub fn lock_seen(&self, me: &mut Caller, node: u32, seen: u64) -> Result<(), u64>
        requires table { me.old.table ≡ self.now.table }
        requires inside { node < self.now.terms.nodes }
        requires unlocked { seen % 2 ≡ 0 }
        ensures ok { IfOk result (λ _. NodeSeen node seen me.old me.new) }
        ensures err { IfErr result
            (λ found. (found ≢ seen)
            × (me.new ≡ record me.old { log = after_load (node_place node) found me.old.log })) }
    {
        let found = self.lock_seen_for::<Brand>(&mut me.seat, node, seen);
        if found != seen {
            return Err(found);
        }
        Ok(())
    }

    fn take_node_for<N: AtNode>(&self, seat: &mut Seat<(), Log>, node: u32) -> u64
        requires table { seat.old.table_id ≡ self.now.table }
        requires about { N.node ≡ node }
        requires inside { node < self.now.terms.nodes }
        requires caller { seat.old.me.0.role ≡ Role.Caller }
        ensures same { (seat.new.table_id ≡ seat.old.table_id) × (seat.new.id ≡ seat.old.id) }
        ensures log { MatchBool (result % 2 == 0)
            (TakesNode N.node result seat.old.me seat.new.me)
            (seat.new.me ≡ (after_load (node_place N.node) result seat.old.me.0, seat.old.me.1)) }
    {
        laws::children();
        self.table
            .shared
            .fetch_or::<GrabsNode<N>>(seat, place_of(node), LOCKED)
    }

    /// Locks a node at the version that it has.
    pub(crate) fn take_node(&self, me: &mut Caller, node: u32) -> Result<u64, u64>
        requires table { me.old.table ≡ self.now.table }
        requires inside { node < self.now.terms.nodes }
        ensures ok { IfOk result (λ version. NodeTaken node version me.old me.new) }
        ensures err { IfErr result
            (λ found. (found % 2 ≡ 1)
            × (me.new ≡ record me.old { log = after_load (node_place node) found me.old.log })) }
    {
        let found = self.take_node_for::<Brand>(&mut me.seat, node);
        if found % 2 != 0 {
            return Err(found);
        }
        Ok(found)
    }

    // The version at which a node is held, by a load of its version word, of which the log says
    // nothing.
    fn held_version<N: AtNode>(&self, seat: &mut Seat<(), Log>, node: u32) -> u64
        requires table { seat.old.table_id ≡ self.now.table }
        requires about { N.node ≡ node }
        requires inside { node < self.now.terms.nodes }
        ensures same { (seat.new.table_id ≡ seat.old.table_id) × (seat.new.id ≡ seat.old.id)
            × (seat.new.me ≡ seat.old.me) }
        ensures version { IfSome (held_of N.node seat.old.me.0.holdings.held)
            (λ h. h.version ≡ result) }
        ensures room { result < 2 ^ 63 }
    {
        let found = self.table.shared.load::<PeeksNode<N>>(seat, place_of(node));
        found - found % VERSION
    }

    fn release_same_for<N: AtNode>(&self, seat: &mut Seat<(), Log>, node: u32) -> u64
        requires table { seat.old.table_id ≡ self.now.table }
        requires about { N.node ≡ node }
        requires inside { node < self.now.terms.nodes }
        requires clean { IsSomeAnd (held_of node seat.old.me.0.holdings.held)
            (λ h. h.stored ≡ false) }
        requires caller { seat.old.me.0.role ≡ Role.Caller }
        ensures same { (seat.new.table_id ≡ seat.old.table_id) × (seat.new.id ≡ seat.old.id)
            × (seat.new.me.1 ≡ seat.old.me.1) }
        ensures log { seat.new.me.0 ≡ after_node_release_same N.node seat.old.me.0 }
        ensures before { IfSome (held_of N.node seat.old.me.0.holdings.held)
            (λ h. IsLockedAt h.version result) }
    {
        let version = self.held_version::<N>(seat, node);
        self.table
            .shared
            .swap::<ReleasesSameNode<N>>(seat, place_of(node), version)
    }

    /// Lets go of a node with the version at which it was locked.
    pub(crate) fn release_node_same(&self, me: &mut Caller, node: u32) -> u64
        requires table { me.old.table ≡ self.now.table }
        requires inside { node < self.now.terms.nodes }
        requires clean { IsSomeAnd (held_of node me.old.log.holdings.held) (λ h. h.stored ≡ false) }
        ensures log { me.new ≡ record me.old { log = after_node_release_same node me.old.log } }
        ensures before { IfSome (held_of node me.old.log.holdings.held)
            (λ h. IsLockedAt h.version result) }
    {
        self.release_same_for::<Brand>(&mut me.seat, node)
    }

    fn release_for<N: AtNode>(&self, seat: &mut Seat<(), Log>, node: u32) -> u64
        requires table { seat.old.table_id ≡ self.now.table }
        requires about { N.node ≡ node }
        requires inside { node < self.now.terms.nodes }
        requires may { MayRelease node seat.old.me.0 }
        requires credit { 0 < seat.old.me.0.budget.credit }
        requires caller { seat.old.me.0.role ≡ Role.Caller }
        ensures same { (seat.new.table_id ≡ seat.old.table_id) × (seat.new.id ≡ seat.old.id)
            × (seat.new.me.1 ≡ seat.old.me.1) }
        ensures log { seat.new.me.0 ≡ after_node_release N.node seat.old.me.0 }
        ensures before { IfSome (held_of N.node seat.old.me.0.holdings.held)
            (λ h. IsLockedAt h.version result) }
    {
        exchange_laws();
        laws::agreement();
        laws::decided();
        let version = self.held_version::<N>(seat, node);
        self.table
            .shared
            .swap::<ReleasesNode<N>>(seat, place_of(node), version + VERSION)
    }

    /// Lets go of a node with the next version, at which what the caller changed settles.
    pub(crate) fn release_node(&self, me: &mut Caller, node: u32) -> u64
        requires table { me.old.table ≡ self.now.table }
        requires inside { node < self.now.terms.nodes }
        requires may { MayRelease node me.old.log }
        requires surplus { 0 < surplus me.old }
        ensures log { me.new ≡ record me.old { log = after_node_release node me.old.log } }
        ensures before { IfSome (held_of node me.old.log.holdings.held)
            (λ h. IsLockedAt h.version result) }
    {
        me.spare -= 1;
        self.release_for::<Brand>(&mut me.seat, node)
    }

    fn store_node_for<N: AtNode>(&self, seat: &mut Seat<(), Log>, node: u32, at: u32, value: u64)
        requires table { seat.old.table_id ≡ self.now.table }
        requires about { (N.node ≡ node) × (N.at ≡ at) }
        requires inside { node < self.now.terms.nodes }
        requires word { (1 ≤ at) × (at ≤ 35) }
        requires may { MayStore node seat.old.me.0 }
        requires caller { seat.old.me.0.role ≡ Role.Caller }
        ensures same { (seat.new.table_id ≡ seat.old.table_id) × (seat.new.id ≡ seat.old.id)
            × (seat.new.me.1 ≡ seat.old.me.1) }
        ensures log { seat.new.me.0 ≡ after_node_store N.node N.at value seat.old.me.0 }
        ensures out { OutTells N.node seat.old.me.0 }
    {
        laws::children();
        exchange_laws();
        laws::agreement();
        laws::decided();
        self.table
            .shared
            .store::<StoresNode<N>>(seat, place_of(node) + at as usize, value);
    }

    /// Stores a word of a node that the caller holds, counted from its version word. Where it makes
    /// a live node free, what the caller changed settles.
    pub fn store_node(&self, me: &mut Caller, node: u32, at: u32, value: u64)
        requires table { me.old.table ≡ self.now.table }
        requires inside { node < self.now.terms.nodes }
        requires word { (1 ≤ at) × (at ≤ 35) }
        requires may { MayStore node me.old.log }
        ensures log { me.new ≡ record me.old { log = after_node_store node at value me.old.log } }
        ensures out { OutTells node me.old.log }
    {
        self.store_node_for::<Brand>(&mut me.seat, node, at, value);
    }
}
