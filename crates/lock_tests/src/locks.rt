ghost use Rattle.std.specs.Prelude.{◌≡◌, ◌≤◌, ◌<◌, None, IfOk, IsSomeAnd, false};
ghost use Rattle.word_rule.specs.CallerData.{surplus};
ghost use Rattle.word_rule.specs.Callers.{IsIdle};
ghost use Rattle.word_rule.specs.Logs.{first_log};
ghost use Rattle.word_rule.specs.Places.{ALLOWANCE};

use node_store::{Locking, Once, Trying, Waiting, lock, unlock};
use reg_model::NoMemory;
use std::alloc::Global;
use std::sync::Wait;
use std::test::Fail;
use std::thread::{self, Threads, join};
use word_rule::places::{LOCKED, SLEEPERS};
use word_rule::{Ask, Caller, LockId, Words};

// The words of four nodes, with room for one loaded member, and their first caller.
pub(crate) fn four_nodes(alloc: Global) -> Result<(Words, Caller), NoMemory>
    ensures nodes { IfOk result (λ made. made.0.terms.nodes ≡ 4) }
    ensures caller { IfOk result
        (λ made. made.1
        ≡ record { table = made.0.table; left = ALLOWANCE; log = first_log made.0.terms }) }
{
    Words::new(alloc, 4, 1, 1, Vec::new(alloc))
}

const TURNS: u32 = 100;

// Takes the loader's lock and lets go of it, a hundred times.
fn take_turns<R: Wait>(rt: &R, words: &Words, mut me: Caller) -> Caller
    requires table { me.table ≡ words.now.table }
    requires idle { IsIdle me.log }
    requires surplus { 100 ≤ surplus me }
    ensures table { result.table ≡ me.table }
    ensures idle { IsIdle result.log }
{
    for turn in 0..TURNS {
        lock(rt, words, &mut me, LockId::Loader);
        unlock(rt, words, &mut me, LockId::Loader);
    }
    me
}

fn side_by_side<R: Threads + Wait + Sync>(
    rt: &R,
    words: &Words,
    a: Caller,
    b: Caller,
) -> (Caller, Caller)
    requires tables { (a.table ≡ words.now.table) × (b.table ≡ words.now.table) }
    requires idle { IsIdle a.log × IsIdle b.log }
    requires surplus { (100 ≤ surplus a) × (100 ≤ surplus b) }
    ensures tables { (result.0.table ≡ a.table) × (result.1.table ≡ b.table) }
    ensures idle { IsIdle result.0.log × IsIdle result.1.log }
{
    join(
        rt,
        || -> Caller
            requires { (a.table ≡ words.now.table) × IsIdle a.log × (100 ≤ surplus a) }
            ensures { (result.table ≡ a.table) × IsIdle result.log }
        { take_turns(rt, words, a) },
        || -> Caller
            requires { (b.table ≡ words.now.table) × IsIdle b.log × (100 ≤ surplus b) }
            ensures { (result.table ≡ b.table) × IsIdle result.log }
        { take_turns(rt, words, b) },
    )
}

#[test]
fn two_threads_take_the_loaders_lock_in_turn(rt: HostRuntime) -> Result<(), Fail> {
    let (words, mut a) = four_nodes(rt.alloc())?;
    let b = words.split(&mut a, 1)?;
    let (mut a, b) = side_by_side(&rt, &words, a, b);
    assert!(rt; words.load_version(&mut a, LockId::Loader, Ask::Nothing) == 800);
    let Ok(()) = words.join(&mut a, b) else {
        panic!(rt; "no memory")
    };
    let alone = a.alone();
    assert!(rt; alone);
    let accepted = words.close(a);
    assert!(rt; accepted == 0);
    Ok(())
}

// A lock that is taken, and on which others sleep.
const LOCKED_WITH_SLEEPERS: u64 = LOCKED + SLEEPERS;

// How often a thread looks whether another sleeps.
const LOOKS: u32 = 1_000_000;

// How often it lets others run before it lets go.
const PAUSES: u32 = 20_000;

// How often a sleep may end for no reason.
const WAKES: u32 = 10;

fn someone_sleeps(words: &Words, me: &mut Caller) -> bool
    requires { me.old.table ≡ words.now.table }
    ensures table { me.new.table ≡ me.old.table }
    ensures loader { me.new.log.loader ≡ me.old.log.loader }
    ensures surplus { surplus me.new ≡ surplus me.old }
{
    for look in 0..LOOKS {
        if words.load_version(me, LockId::Loader, Ask::Nothing) == LOCKED_WITH_SLEEPERS {
            return true;
        }
        thread::yield_now();
    }
    false
}

fn pause() {
    for step in 0..PAUSES {
        thread::yield_now();
    }
}

// Lets go of the lock long after another sleeps on it, and says whether one did.
fn let_go_late<R: Wait>(rt: &R, words: &Words, mut me: Caller) -> bool
    requires table { me.table ≡ words.now.table }
    requires held { IsSomeAnd me.log.loader (λ h. h.stored ≡ false) }
    requires surplus { 0 < surplus me }
{
    let slept = someone_sleeps(words, &mut me);
    pause();
    unlock(rt, words, &mut me, LockId::Loader);
    slept
}

fn wait_for_it<R: Wait>(rt: &R, words: &Words, mut me: Caller)
    requires table { me.table ≡ words.now.table }
    requires free { me.log.loader ≡ None }
    requires surplus { 0 < surplus me }
{
    lock(rt, words, &mut me, LockId::Loader);
    unlock(rt, words, &mut me, LockId::Loader);
}

// Sleeps on the lock, which another holds, and says whether it slept on until the word changed.
fn sleep_on_it<R: Wait>(rt: &R, words: &Words, mut me: Caller) -> bool
    requires table { me.table ≡ words.now.table }
{
    if words
        .mark_sleeping(&mut me, LockId::Loader, LOCKED)
        .is_err()
    {
        return false;
    }
    for wake in 0..WAKES {
        words.sleep(rt, LockId::Loader, LOCKED_WITH_SLEEPERS);
        if words.load_version(&mut me, LockId::Loader, Ask::Nothing) != LOCKED_WITH_SLEEPERS {
            return true;
        }
    }
    false
}

fn one_waits<R: Threads + Wait + Sync>(rt: &R, words: &Words, a: Caller, b: Caller) -> bool
    requires tables { (a.table ≡ words.now.table) × (b.table ≡ words.now.table) }
    requires held { IsSomeAnd a.log.loader (λ h. h.stored ≡ false) }
    requires free { b.log.loader ≡ None }
    requires surplus { (0 < surplus a) × (0 < surplus b) }
{
    let (slept, _) = join(
        rt,
        || -> bool
            requires { (a.table ≡ words.now.table)
                × IsSomeAnd a.log.loader (λ h. h.stored ≡ false) × (0 < surplus a) }
        { let_go_late(rt, words, a) },
        || -> ()
            requires { (b.table ≡ words.now.table) × (b.log.loader ≡ None) × (0 < surplus b) }
        { wait_for_it(rt, words, b) },
    );
    slept
}

fn one_sleeps<R: Threads + Wait + Sync>(rt: &R, words: &Words, a: Caller, b: Caller) -> (bool, bool)
    requires tables { (a.table ≡ words.now.table) × (b.table ≡ words.now.table) }
    requires held { IsSomeAnd a.log.loader (λ h. h.stored ≡ false) }
    requires surplus { 0 < surplus a }
{
    join(
        rt,
        || -> bool
            requires { (a.table ≡ words.now.table)
                × IsSomeAnd a.log.loader (λ h. h.stored ≡ false) × (0 < surplus a) }
        { let_go_late(rt, words, a) },
        || -> bool
            requires { b.table ≡ words.now.table }
        { sleep_on_it(rt, words, b) },
    )
}

#[test]
fn who_lets_go_wakes_who_waits(rt: HostRuntime) -> Result<(), Fail> {
    let (words, mut a) = four_nodes(rt.alloc())?;
    let b = words.split(&mut a, 1)?;
    lock(&rt, &words, &mut a, LockId::Loader);
    let slept = one_waits(&rt, &words, a, b);
    assert!(rt; slept);
    Ok(())
}

#[test]
fn a_sleep_goes_on_until_the_word_changes(rt: HostRuntime) -> Result<(), Fail> {
    let (words, mut a) = four_nodes(rt.alloc())?;
    let b = words.split(&mut a, 1)?;
    lock(&rt, &words, &mut a, LockId::Loader);
    let (slept, woken) = one_sleeps(&rt, &words, a, b);
    assert!(rt; slept && woken);
    Ok(())
}

// One takes the loader's lock, and lets go of it unchanged; another finds it taken by either try.
fn is_busy_beside(words: &Words, me: &mut Caller, other: &mut Caller) -> bool
    requires tables { (me.old.table ≡ words.now.table) × (other.old.table ≡ words.now.table) }
    ensures tables { (me.new.table ≡ me.old.table) × (other.new.table ≡ other.old.table) }
    ensures surplus { surplus other.new ≡ surplus other.old }
{
    let id = LockId::Loader;
    if !Once.take(words, me, id) {
        return false;
    }
    let busy = !Once.take(words, other, id) && !Trying.take(words, other, id);
    Once.let_go_same(words, me, id);
    busy && words.load_version(me, id, Ask::Nothing) == 0
}

// One that takes it by tries lets go of it with the next version; another finds it taken.
fn is_changed_beside(words: &Words, me: &mut Caller, other: &mut Caller) -> bool
    requires tables { (me.old.table ≡ words.now.table) × (other.old.table ≡ words.now.table) }
    requires surplus { 0 < surplus me.old }
    ensures tables { (me.new.table ≡ me.old.table) × (other.new.table ≡ other.old.table) }
{
    let id = LockId::Loader;
    if !Trying.take(words, me, id) {
        return false;
    }
    let busy = !Once.take(words, other, id);
    Trying.let_go(words, me, id);
    busy && words.load_version(me, id, Ask::Nothing) == 4
}

// One that waits for it gets it, and lets go of it unchanged.
fn is_got_by_waiting<R: Wait>(rt: &R, words: &Words, me: &mut Caller, other: &mut Caller) -> bool
    requires tables { (me.old.table ≡ words.now.table) × (other.old.table ≡ words.now.table) }
{
    let (waiting, id) = (Waiting { rt }, LockId::Loader);
    if !waiting.take(words, me, id) {
        return false;
    }
    waiting.let_go_same(words, me, id);
    words.load_version(other, id, Ask::Nothing) == 4
}

#[test]
fn a_lock_that_is_taken_is_busy(rt: HostRuntime) -> Result<(), Fail> {
    let (words, mut a) = four_nodes(rt.alloc())?;
    let mut b = words.split(&mut a, 1)?;
    let busy = is_busy_beside(&words, &mut a, &mut b);
    let changed = is_changed_beside(&words, &mut b, &mut a);
    assert!(rt; busy && changed && is_got_by_waiting(&rt, &words, &mut a, &mut b));
    Ok(())
}
