//! Taking and letting go of a version lock.
//!
//! Bit 0 of the word says that it is locked, bit 1 that threads sleep on it. Who finds it locked
//! tries again for a while, then sets bit 1 and sleeps while the word stays as it was. Who lets go
//! clears both bits and wakes one sleeper where bit 1 was set; others may sleep on, so one that has
//! slept sets bit 1 again once it has the lock.
ghost use Rattle.std.specs.Prelude.{◌≡◌, ◌<◌, ◌%◌};
ghost use Rattle.word_rule.specs.CallerData.{surplus};
ghost use Rattle.word_rule.specs.VersionLocks.{IsHeldClean, IsLock, MayLetGo, after_release};
ghost use Rattle.word_rule.specs.VersionLocks.{after_release_same};
ghost use Rattle.version_locks.specs.Locking.{Locks, Tries};

use crossbeam_utils::Backoff;
use std::sync::Wait;
use word_rule::places::{LOCKED, SLEEPERS, VERSION};
use word_rule::{Ask, Caller, LockId, Words};

// Of a version word, what is below its version: these bits.
const BITS: u64 = VERSION;

pub(crate) const LOCKED_WITH_SLEEPERS: u64 = LOCKED + SLEEPERS;

// Loads the word of a lock. Of a node, a sight begins; what is known of the others stays.
fn load_word(words: &Words, me: &mut Caller, lock: LockId) -> u64
    requires table { me.old.table ≡ words.now.table }
    requires lock { IsLock words.now.terms lock }
    ensures { Tries lock me.old me.new }
{
    match lock {
        LockId::Loader => words.load_version(me, lock, Ask::Nothing),
        LockId::Node { node } => words.begin_sight(me, node),
    }
}

// Sleeps while the word is the one seen, which is locked, and loads it again. Where it has changed,
// that word.
fn wait<R: Wait>(rt: &R, words: &Words, me: &mut Caller, lock: LockId, seen: u64) -> u64
    requires table { me.old.table ≡ words.now.table }
    requires lock { IsLock words.now.terms lock }
    requires locked { seen % 2 ≡ 1 }
    ensures { Tries lock me.old me.new }
{
    if seen % BITS == LOCKED {
        if let Err(found) = words.mark_sleeping(me, lock, seen) {
            return found;
        }
    }
    words.sleep(rt, lock, seen - seen % BITS + LOCKED_WITH_SLEEPERS);
    load_word(words, me, lock)
}

// Says that others may sleep on a lock that was taken, unless one of them said so since.
fn mark_again(words: &Words, me: &mut Caller, lock: LockId, locked: u64)
    requires table { me.old.table ≡ words.now.table }
    requires lock { IsLock words.now.terms lock }
    requires locked { locked % 2 ≡ 1 }
    ensures { Tries lock me.old me.new }
{
    let _ = words.mark_sleeping(me, lock, locked);
}

/// Takes a lock, and waits for it where another has it, or for ever where the caller has it.
pub fn lock<R: Wait>(rt: &R, words: &Words, me: &mut Caller, lock: LockId)
    requires table { me.old.table ≡ words.now.table }
    requires lock { IsLock words.now.terms lock }
    ensures { Locks lock me.old me.new }
{
    let backoff = Backoff::new();
    let mut slept = false;
    let mut seen = load_word(words, me, lock);
    for _ in rt.forever() {
        if seen % 2 == 0 {
            match words.try_lock(me, lock, seen) {
                Ok(()) => {
                    if slept {
                        mark_again(words, me, lock, seen + LOCKED);
                    }
                    return;
                }
                Err(found) => seen = found,
            }
        } else if backoff.is_completed() {
            seen = wait(rt, words, me, lock, seen);
            slept = true;
        } else {
            backoff.snooze();
            seen = load_word(words, me, lock);
        }
    }
    unreachable!()
}

// Wakes one that sleeps on a lock, where its word said so before it was let go.
pub(crate) fn wake_after(words: &Words, lock: LockId, before: u64)
    requires { IsLock words.now.terms lock }
{
    if before % BITS == LOCKED_WITH_SLEEPERS {
        words.wake(lock);
    }
}

/// Lets go of a lock with the next version, and wakes one that sleeps on it.
pub fn unlock<R: Wait>(rt: &R, words: &Words, me: &mut Caller, lock: LockId)
    requires table { me.old.table ≡ words.now.table }
    requires lock { IsLock words.now.terms lock }
    requires may { MayLetGo lock me.old.log }
    requires surplus { 0 < surplus me.old }
    ensures { me.new ≡ record me.old { log = after_release lock me.old.log } }
{
    let _ = rt;
    let before = words.release(me, lock);
    wake_after(words, lock, before);
}

/// Lets go of a lock under which nothing was stored, with the version at which it was taken, and
/// wakes one that sleeps on it.
pub fn unlock_same<R: Wait>(rt: &R, words: &Words, me: &mut Caller, lock: LockId)
    requires table { me.old.table ≡ words.now.table }
    requires lock { IsLock words.now.terms lock }
    requires clean { IsHeldClean lock me.old.log }
    ensures { me.new ≡ record me.old { log = after_release_same lock me.old.log } }
{
    let _ = rt;
    wake_after(words, lock, words.release_same(me, lock));
}
