//! The update calls of the loader. Each takes the loader's lock, waits for it or gives up where it
//! is taken, and lets go of it again.
ghost use Rattle.std.specs.Prelude.{◌≡◌, ◌<◌, false, true, OnOk, IfOk, IfErr, IsSomeAnd};
ghost use Rattle.word_rule.specs.CallerData.{surplus};
ghost use Rattle.version_locks.specs.Locking.{IsBusyAt, Locks};
ghost use Rattle.array_publish.specs.Update.{EndsTry, EndsUpdate, LoadsMember, MayLoad, MayTryLoad};
ghost use Rattle.array_publish.specs.Update.{TellsLoad, TellsUnload, UnloadsMember};
ghost use Rattle.array_publish.specs.Update.{after_letting_go, is_loaded, is_unloaded};

use crate::update::{load_held, unload_held};
use node_store::{Busy, Locking, Waiting};
use reg_model::{Loading, Member, Removed};
use std::sync::Wait;
use word_rule::{Caller, LockId, Words};

/// Takes the loader's lock, or answers that it is taken.
fn take<L: Locking>(locking: &L, words: &Words, me: &mut Caller) -> Result<(), Busy>
    requires caller { MayLoad words.now me.old }
    ensures ok { OnOk result (Locks LockId.Loader me.old me.new) }
    ensures busy { IfErr result (λ e. IsBusyAt LockId.Loader e me.old me.new
        × (L.gives_up ≡ true)) }
{
    let lock = LockId::Loader;
    if locking.take(words, me, lock) {
        Ok(())
    } else {
        Err(Busy::Taken { lock })
    }
}

/// Lets go of the loader's lock: with the next version where an update was published, behind which
/// nothing was stored, and with the same one where nothing was stored at all.
fn let_go<L: Locking>(locking: &L, words: &Words, me: &mut Caller, published: bool)
    requires table { me.old.table ≡ words.now.table }
    requires clean { IsSomeAnd me.old.log.loader (λ h. h.stored ≡ false) }
    requires surplus { 0 < surplus me.old }
    ensures { me.new ≡ record me.old { log = after_letting_go published me.old.log } }
{
    if published {
        locking.let_go(words, me, LockId::Loader);
    } else {
        locking.let_go_same(words, me, LockId::Loader);
    }
}

/// Whether a load was accepted.
fn loaded(answer: &Loading) -> bool
    ensures { result ≡ is_loaded answer.now }
{
    match answer {
        Loading::Done { .. } => true,
        Loading::Overlap { .. } => false,
        Loading::LoadFull { .. } => false,
        Loading::Spent => false,
    }
}

/// Whether an unload was accepted.
fn unloaded(answer: &Removed) -> bool
    ensures { result ≡ is_unloaded answer.now }
{
    match answer {
        Removed::Done { .. } => true,
        Removed::NotFound { .. } => false,
        Removed::Spent => false,
    }
}

/// Loads a member as `load` does, for an update call that was begun. Busy where the loader's lock
/// was found taken and `locking` gives up: the call is still begun, and nothing was done.
pub fn load_by<L: Locking>(
    locking: &L,
    words: &Words,
    me: &mut Caller,
    member: Member,
) -> Result<Loading, Busy>
    requires call { MayTryLoad words.now me.old }
    requires payload { member.payload < words.now.terms.payloads }
    ensures answer { IfOk result (TellsLoad words.now.terms member me.old me.new) }
    ensures call { EndsTry words.now L.gives_up result me.old me.new }
{
    take(locking, words, me)?;
    let answer = load_held(words, me, &member);
    let_go(locking, words, me, loaded(&answer));
    Ok(answer)
}

/// Loads a member where no fixed or loaded one overlaps it, and fewer are loaded than may be. The
/// overlapping member with the least first address is named, also where no more may be loaded.
/// Spent where the caller may begin no more update calls. It waits for the loader's lock.
pub fn load<R: Wait>(rt: &R, words: &Words, me: &mut Caller, member: Member) -> Loading
    requires caller { MayLoad words.now me.old }
    requires payload { member.payload < words.now.terms.payloads }
    ensures answer { LoadsMember words.now.terms member me.old me.new result }
    ensures call { EndsUpdate words.now me.old me.new }
{
    if !me.use_one() {
        return Loading::Spent;
    }
    load_by(&Waiting { rt }, words, me, member).unwrap()
}

/// Unloads a member as `unload` does, for an update call that was begun. Busy where the loader's
/// lock was found taken and `locking` gives up: the call is still begun, and nothing was done.
pub fn unload_by<L: Locking>(
    locking: &L,
    words: &Words,
    me: &mut Caller,
    base: u64,
) -> Result<Removed, Busy>
    requires call { MayTryLoad words.now me.old }
    ensures answer { IfOk result (TellsUnload words.now.terms base me.old me.new) }
    ensures call { EndsTry words.now L.gives_up result me.old me.new }
{
    take(locking, words, me)?;
    let answer = unload_held(words, me, base);
    let_go(locking, words, me, unloaded(&answer));
    Ok(answer)
}

/// Unloads the loaded member that begins at an address, and names it. A fixed member can't be
/// unloaded. Spent where the caller may begin no more update calls. It waits for the loader's lock.
pub fn unload<R: Wait>(rt: &R, words: &Words, me: &mut Caller, base: u64) -> Removed
    requires caller { MayLoad words.now me.old }
    ensures answer { UnloadsMember words.now.terms base me.old me.new result }
    ensures call { EndsUpdate words.now me.old me.new }
{
    if !me.use_one() {
        return Removed::Spent;
    }
    unload_by(&Waiting { rt }, words, me, base).unwrap()
}
