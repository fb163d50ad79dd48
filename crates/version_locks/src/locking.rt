//! How an update gets its locks, and lets go of them: it waits for each, or it tries each once and
//! gives up. An update has one body for all of these ways.
ghost use Rattle.std.specs.Prelude.{◌≡◌, ◌<◌, Bool, true, false, MatchBool};
ghost use Rattle.word_rule.specs.CallerData.{surplus};
ghost use Rattle.word_rule.specs.VersionLocks.{IsHeldClean, IsLock, MayLetGo, after_release};
ghost use Rattle.word_rule.specs.VersionLocks.{after_release_same};
ghost use Rattle.version_locks.specs.Locking.{IsBusy, Locks};

use crate::locks::{lock, unlock, unlock_same, wake_after};
use crossbeam_utils::Backoff;
use std::sync::Wait;
use word_rule::{Caller, LockId, Words};

/// Why an update gave up.
#[derive(Clone, Copy, Debug, PartialEq, Eq)]
pub enum Busy {
    /// A lock was taken.
    Taken { lock: LockId },
    /// The free list's head moved in each round in which a node was to be taken off.
    Raced,
    /// It moved in each round in which a node was to be put back: the node stays out, unlocked.
    Lost,
}

/// How often one that gives up tries to take the first free node.
const ROUNDS: u64 = 16;

/// What one does that found others in its way, before it tries again.
pub trait Pausing {
    /// It may spin, yield or wait. The backoff is that of the call that tries.
    fn pause(&self, backoff: &Backoff);
}

/// How locks are taken and let go.
pub trait Locking: Pausing {
    /// Whether it may say no.
    ghost gives_up: { Bool };

    /// Takes a lock, and says whether it did. It says no only where it found the lock's word
    /// locked.
    fn take(&self, words: &Words, me: &mut Caller, id: LockId) -> bool
        requires table { me.old.table ≡ words.now.table }
        requires lock { IsLock words.now.terms id }
        ensures { MatchBool result (Locks id me.old me.new)
            (IsBusy id me.old me.new × (gives_up ≡ true)) };

    /// Lets go of it with the next version.
    fn let_go(&self, words: &Words, me: &mut Caller, id: LockId)
        requires table { me.old.table ≡ words.now.table }
        requires lock { IsLock words.now.terms id }
        requires may { MayLetGo id me.old.log }
        requires surplus { 0 < surplus me.old }
        ensures { me.new ≡ record me.old { log = after_release id me.old.log } };

    /// Lets go of it with the version as it was, where nothing was stored.
    fn let_go_same(&self, words: &Words, me: &mut Caller, id: LockId)
        requires table { me.old.table ≡ words.now.table }
        requires lock { IsLock words.now.terms id }
        requires clean { IsHeldClean id me.old.log }
        ensures { me.new ≡ record me.old { log = after_release_same id me.old.log } };

    /// In how many rounds a node is to be taken off the free list, at least one.
    fn rounds(&self) -> u64
        ensures { 0 < result };

    /// In how many rounds a node is to be put back, at least one.
    fn rounds_back(&self) -> u64
        ensures { 0 < result };

    /// All rounds were lost: returns only where it may say no.
    fn give_up(&self)
        ensures { gives_up ≡ true };
}

/// Waits for each lock, and wakes one that sleeps on it.
#[derive(Drop)]
pub struct Waiting<'a, R> {
    pub rt: &'a R,
}

impl<'a, R: Wait> Pausing for Waiting<'a, R> {
    fn pause(&self, backoff: &Backoff) {
        backoff.snooze();
    }
}

impl<'a, R: Wait> Locking for Waiting<'a, R> {
    ghost gives_up = { false };

    fn take(&self, words: &Words, me: &mut Caller, id: LockId) -> bool {
        lock(self.rt, words, me, id);
        true
    }

    fn let_go(&self, words: &Words, me: &mut Caller, id: LockId) {
        unlock(self.rt, words, me, id);
    }

    fn let_go_same(&self, words: &Words, me: &mut Caller, id: LockId) {
        unlock_same(self.rt, words, me, id);
    }

    fn rounds(&self) -> u64 {
        u64::MAX
    }

    fn rounds_back(&self) -> u64 {
        u64::MAX
    }

    fn give_up(&self) {
        for _ in self.rt.forever() {}
        unreachable!()
    }
}

// Takes a lock in one step, or finds it taken.
fn take_once(words: &Words, me: &mut Caller, id: LockId) -> bool
    requires table { me.old.table ≡ words.now.table }
    requires lock { IsLock words.now.terms id }
    ensures { MatchBool result (Locks id me.old me.new) (IsBusy id me.old me.new) }
{
    match words.take(me, id) {
        Ok(_) => true,
        Err(_) => false,
    }
}

/// Tries each lock once and the free list a few times, and wakes one that sleeps on a lock.
#[derive(Drop)]
pub struct Trying;

impl Pausing for Trying {
    fn pause(&self, backoff: &Backoff) {
        backoff.spin();
    }
}

impl Locking for Trying {
    ghost gives_up = { true };

    fn take(&self, words: &Words, me: &mut Caller, id: LockId) -> bool {
        take_once(words, me, id)
    }

    fn let_go(&self, words: &Words, me: &mut Caller, id: LockId) {
        wake_after(words, id, words.release(me, id));
    }

    fn let_go_same(&self, words: &Words, me: &mut Caller, id: LockId) {
        wake_after(words, id, words.release_same(me, id));
    }

    fn rounds(&self) -> u64 {
        ROUNDS
    }

    fn rounds_back(&self) -> u64 {
        u64::MAX
    }

    fn give_up(&self) {}
}

/// Tries likewise, and wakes nobody: for words on which no caller ever waits.
#[derive(Drop)]
pub struct Once;

impl Pausing for Once {
    fn pause(&self, backoff: &Backoff) {
        backoff.spin();
    }
}

impl Locking for Once {
    ghost gives_up = { true };

    fn take(&self, words: &Words, me: &mut Caller, id: LockId) -> bool {
        take_once(words, me, id)
    }

    fn let_go(&self, words: &Words, me: &mut Caller, id: LockId) {
        words.release(me, id);
    }

    fn let_go_same(&self, words: &Words, me: &mut Caller, id: LockId) {
        words.release_same(me, id);
    }

    fn rounds(&self) -> u64 {
        ROUNDS
    }

    fn rounds_back(&self) -> u64 {
        u64::MAX
    }

    fn give_up(&self) {}
}
