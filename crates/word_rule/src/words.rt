//! The words, and the steps on version locks.
ghost use Rattle.std.specs.Prelude.{◌≡◌, ◌≢◌, ◌+◌, ◌%◌, ◌^◌, ◌<◌, ◌≤◌, IfOk, IfErr};
ghost use Rattle.std.specs.Prelude.{IfSome, IsSomeAnd, false};
ghost use Rattle.word_rule.specs.Logs.{after_load, after_write};
ghost use Rattle.word_rule.specs.Logs.{after_loader_release, after_loader_release_same};
ghost use Rattle.word_rule.specs.CallerData.{surplus};
ghost use Rattle.word_rule.specs.Places.{LOADER};
ghost use Rattle.word_rule.specs.Callers.{IsLockedAt};
ghost use Rattle.word_rule.specs.VersionLocks.{IsHeldClean, IsLock, IsLockTaken, LoaderTaken};
ghost use Rattle.word_rule.specs.VersionLocks.{LockAloneTells, MayLetGo};
ghost use Rattle.word_rule.specs.VersionLocks.{VersionTells, WasLockedAs, after_release};
ghost use Rattle.word_rule.specs.VersionLocks.{after_release_same, after_version, lock_place};

use crate::caller::Caller;
use crate::log::{Ask, LockId, Log};
use crate::places::{LOCKED, SLEEPERS, VERSION, place_of};
use crate::rule::{Grabs, Law, Locks, Looks, Made, Marks, Peeks, Releases, ReleasesSame};
use atomic_table::{Seat, Table};
use reg_model::Member;
use std::alloc::Global;
use std::marker::Model;
use std::snapshot::Snapshot;
use std::sync::Wait;

/// Where the loader's version lock stands.
const LOADER_WORD: usize = 2;

/// Where the version word of a lock stands.
fn word_of(lock: LockId) -> usize
    ensures { result ≡ lock_place lock }
{
    match lock {
        LockId::Loader => LOADER_WORD,
        LockId::Node { node } => place_of(node),
    }
}

/// The shared words, under one rule. Threads share them by `&`, and step on them each with a
/// `Caller` of its own.
#[derive(Drop)]
pub struct Words {
    pub(crate) table: Table<(), Log, Snapshot<Made>, Law, Global>,
    pub(crate) made: Made,
}

impl Model for Words {
    ghost use Rattle.std.specs.Prelude.{◌≡◌, ◌≤◌};
    ghost use Rattle.word_rule.specs.CallerData.{WordsData};

    ghost Value = { WordsData };

    ghost use Rattle.word_rule.specs.Key.{terms_of};
    ghost use Rattle.word_rule.specs.Places.{word_count};

    ghost view = { λ w. record { table = w.table.shared.table_id; terms = terms_of w.made } };

    ghost invariant = { λ w. (w.table.shared.key.value ≡ w.made)
        × (w.table.shared.table_id.words ≡ word_count (terms_of w.made))
        × (w.table.shared.table_id.slots ≡ 0) × (w.made.nodes ≤ 16384) × (4 ≤ w.made.nodes) };
}

impl Words {
    /// The number of nodes.
    pub fn nodes(&self) -> u32
        ensures value { result ≡ self.now.terms.nodes }
        ensures few { result ≤ 16384 }
        ensures some { 4 ≤ result }
    {
        self.made.nodes
    }

    /// The greatest number of loaded objects.
    pub fn loads(&self) -> u32
        ensures { result ≡ self.now.terms.loads }
    {
        self.made.loads
    }

    /// The objects that were given for good.
    pub fn fixed(&self) -> &[Member]
        ensures { result.now ≡ self.now.terms.fixed }
    {
        self.made.fixed.as_slice()
    }

    fn load_loader(&self, me: &mut Caller) -> u64
        requires table { me.old.table ≡ self.now.table }
        ensures log { me.new ≡ record me.old { log = after_load LOADER result me.old.log } }
        ensures held { IfSome me.old.log.loader (λ h. IsLockedAt h.version result) }
    {
        self.table.shared.load::<Looks>(&mut me.seat, LOADER_WORD)
    }

    /// Loads the version word of a lock, which is locked where the caller holds it. A node's begins
    /// a sight of it, or finds that the sight stands, which may then answer what was asked.
    pub fn load_version(&self, me: &mut Caller, lock: LockId, ask: Ask) -> u64
        requires table { me.old.table ≡ self.now.table }
        requires lock { IsLock self.now.terms lock }
        ensures log { me.new ≡ record me.old { log = after_version ask lock result me.old.log } }
        ensures tells { VersionTells self.now.terms lock result me.old.log }
        ensures held { WasLockedAs lock result me.old.log }
        ensures alone { LockAloneTells lock result me.old.log }
    {
        match lock {
            LockId::Loader => self.load_loader(me),
            LockId::Node { node } => self.load_node_version(me, node, ask),
        }
    }

    fn try_loader(&self, me: &mut Caller, seen: u64) -> Result<(), u64>
        requires table { me.old.table ≡ self.now.table }
        requires unlocked { seen % 2 ≡ 0 }
        ensures ok { IfOk result (λ _. LoaderTaken seen me.old me.new) }
        ensures err { IfErr result
            (λ found. (found ≢ seen)
            × (me.new ≡ record me.old { log = after_load LOADER found me.old.log })) }
    {
        let found = self
            .table
            .shared
            .compare_exchange::<Locks>(&mut me.seat, LOADER_WORD, seen, seen | LOCKED);
        if found != seen {
            return Err(found);
        }
        Ok(())
    }

    /// Takes a lock whose word is still the one seen, which was not locked. Else answers the word
    /// found.
    pub fn try_lock(&self, me: &mut Caller, lock: LockId, seen: u64) -> Result<(), u64>
        requires table { me.old.table ≡ self.now.table }
        requires lock { IsLock self.now.terms lock }
        requires unlocked { seen % 2 ≡ 0 }
        ensures ok { IfOk result (λ _. IsLockTaken lock seen me.old me.new) }
        ensures err { IfErr result
            (λ found. (found ≢ seen)
            × (me.new ≡ record me.old { log = after_load (lock_place lock) found me.old.log })) }
    {
        match lock {
            LockId::Loader => self.try_loader(me, seen),
            LockId::Node { node } => self.try_node(me, node, seen),
        }
    }

    fn take_loader(&self, me: &mut Caller) -> Result<u64, u64>
        requires table { me.old.table ≡ self.now.table }
        ensures ok { IfOk result (λ version. LoaderTaken version me.old me.new) }
        ensures err { IfErr result
            (λ found. (found % 2 ≡ 1)
            × (me.new ≡ record me.old { log = after_load LOADER found me.old.log })) }
    {
        let found = self
            .table
            .shared
            .fetch_or::<Grabs>(&mut me.seat, LOADER_WORD, LOCKED);
        if found % 2 != 0 {
            return Err(found);
        }
        Ok(found)
    }

    /// Takes a lock in one step, at the version that it answers. Where it is taken already, answers
    /// the word found, which stays as it was.
    pub fn take(&self, me: &mut Caller, lock: LockId) -> Result<u64, u64>
        requires table { me.old.table ≡ self.now.table }
        requires lock { IsLock self.now.terms lock }
        ensures ok { IfOk result (λ version. IsLockTaken lock version me.old me.new) }
        ensures err { IfErr result
            (λ found. (found % 2 ≡ 1)
            × (me.new ≡ record me.old { log = after_load (lock_place lock) found me.old.log })) }
    {
        match lock {
            LockId::Loader => self.take_loader(me),
            LockId::Node { node } => self.take_node(me, node),
        }
    }

    /// Says that threads sleep on a lock, where its word is still the one seen, which was locked.
    pub fn mark_sleeping(&self, me: &mut Caller, lock: LockId, seen: u64) -> Result<(), u64>
        requires table { me.old.table ≡ self.now.table }
        requires lock { IsLock self.now.terms lock }
        requires locked { seen % 2 ≡ 1 }
        ensures ok { IfOk result (λ _. me.new ≡ record me.old { log = after_write me.old.log }) }
        ensures err { IfErr result
            (λ found. (found ≢ seen)
            × (me.new ≡ record me.old { log = after_load (lock_place lock) found me.old.log })) }
    {
        let found = self.table.shared.compare_exchange::<Marks>(
            &mut me.seat,
            word_of(lock),
            seen,
            seen | (LOCKED + SLEEPERS),
        );
        if found == seen { Ok(()) } else { Err(found) }
    }

    // The version at which it holds the loader's lock, by a load of the word, of which the log says
    // nothing.
    fn loader_version(&self, seat: &mut Seat<(), Log>) -> u64
        requires table { seat.old.table_id ≡ self.now.table }
        ensures same { (seat.new.table_id ≡ seat.old.table_id) × (seat.new.id ≡ seat.old.id)
            × (seat.new.me ≡ seat.old.me) }
        ensures version { IfSome seat.old.me.0.loader (λ h. h.version ≡ result) }
        ensures room { result < 2 ^ 63 }
    {
        let found = self.table.shared.load::<Peeks>(seat, LOADER_WORD);
        found - found % VERSION
    }

    fn release_loader(&self, me: &mut Caller) -> u64
        requires table { me.old.table ≡ self.now.table }
        requires clean { IsSomeAnd me.old.log.loader (λ h. h.stored ≡ false) }
        requires surplus { 0 < surplus me.old }
        ensures log { me.new ≡ record me.old { log = after_loader_release me.old.log } }
        ensures before { IfSome me.old.log.loader (λ h. IsLockedAt h.version result) }
    {
        let next = self.loader_version(&mut me.seat) + VERSION;
        me.spare -= 1;
        self.table
            .shared
            .swap::<Releases>(&mut me.seat, LOADER_WORD, next)
    }

    /// Lets go of a lock with the next version, and answers the word before. Of a node, what the
    /// caller changed settles; under the loader's lock nothing was stored since its last
    /// publication.
    pub fn release(&self, me: &mut Caller, lock: LockId) -> u64
        requires table { me.old.table ≡ self.now.table }
        requires lock { IsLock self.now.terms lock }
        requires may { MayLetGo lock me.old.log }
        requires surplus { 0 < surplus me.old }
        ensures log { me.new ≡ record me.old { log = after_release lock me.old.log } }
        ensures before { WasLockedAs lock result me.old.log }
    {
        match lock {
            LockId::Loader => self.release_loader(me),
            LockId::Node { node } => self.release_node(me, node),
        }
    }

    fn release_loader_same(&self, me: &mut Caller) -> u64
        requires table { me.old.table ≡ self.now.table }
        requires clean { IsSomeAnd me.old.log.loader (λ h. h.stored ≡ false) }
        ensures log { me.new ≡ record me.old { log = after_loader_release_same me.old.log } }
        ensures before { IfSome me.old.log.loader (λ h. IsLockedAt h.version result) }
    {
        let same = self.loader_version(&mut me.seat);
        self.table
            .shared
            .swap::<ReleasesSame>(&mut me.seat, LOADER_WORD, same)
    }

    /// Lets go of a lock under which nothing was stored, with the version at which it was taken,
    /// and answers the word before.
    pub fn release_same(&self, me: &mut Caller, lock: LockId) -> u64
        requires table { me.old.table ≡ self.now.table }
        requires lock { IsLock self.now.terms lock }
        requires clean { IsHeldClean lock me.old.log }
        ensures log { me.new ≡ record me.old { log = after_release_same lock me.old.log } }
        ensures before { WasLockedAs lock result me.old.log }
    {
        match lock {
            LockId::Loader => self.release_loader_same(me),
            LockId::Node { node } => self.release_node_same(me, node),
        }
    }

    // Parks on the word of this lock.
    fn park_on<R: Wait>(&self, rt: &R, lock: LockId, word: usize, seen: u64)
        requires lock { IsLock self.now.terms lock }
        requires word { word ≡ lock_place lock }
    {
        let _ = lock;
        self.table.shared.park(rt, word, (seen % (1 << 32)) as u32);
    }

    /// Sleeps on a lock while its word is the one seen, or for no reason shorter. It tells nothing.
    pub fn sleep<R: Wait>(&self, rt: &R, lock: LockId, seen: u64)
        requires { IsLock self.now.terms lock }
    {
        self.park_on(rt, lock, word_of(lock), seen);
    }

    // Wakes one that parks on the word of this lock.
    fn wake_on(&self, lock: LockId, word: usize)
        requires lock { IsLock self.now.terms lock }
        requires word { word ≡ lock_place lock }
    {
        let _ = lock;
        self.table.shared.wake_one(word);
    }

    /// Wakes one thread that sleeps on a lock, if there is one.
    pub fn wake(&self, lock: LockId)
        requires { IsLock self.now.terms lock }
    {
        self.wake_on(lock, word_of(lock));
    }
}
