ghost use Rattle.std.specs.Prelude.{◌≡◌, ◌<◌, ◌≤◌, IfSome, None};
ghost use Rattle.word_rule.specs.CallerData.{surplus};
ghost use Rattle.word_rule.specs.VersionLocks.{MayLetGo};
ghost use Rattle.node_store.specs.Sights.{IsKept};

use crate::locks::four_nodes;
use node_store::{Sight, check, lock, peek, unlock};
use reg_model::Again;
use std::sync::Wait;
use std::test::Fail;
use std::thread::{self, Threads, join};
use word_rule::{Caller, LockId, Words};

// How often the holder lets others run before it lets go.
const PAUSES: u32 = 20_000;

fn let_go_late<R: Wait>(rt: &R, words: &Words, mut me: Caller)
    requires table { me.table ≡ words.now.table }
    requires nodes { 0 < words.now.terms.nodes }
    requires may { MayLetGo (LockId.Node 0) me.log }
    requires surplus { 0 < surplus me }
{
    for step in 0..PAUSES {
        thread::yield_now();
    }
    unlock(rt, words, &mut me, LockId::Node { node: 0 });
}

// Looks at the root, which another holds.
fn find_locked(words: &Words, mut me: Caller, sight: &Sight) -> Option<Caller>
    requires table { me.table ≡ words.now.table }
    requires nodes { (0 < words.now.terms.nodes) × (words.now.terms.nodes ≤ 16384) }
    requires kept { IsKept me.log sight.now }
    ensures { IfSome result
        (λ after. (after.table ≡ words.now.table) × IsKept after.log sight.now) }
{
    let Err(again) = peek(words, &mut me, 0) else {
        return None;
    };
    if again != (Again::Locked { word: 4, seen: 1 }) {
        return None;
    }
    Some(me)
}

fn side_by_side<R: Threads + Wait + Sync>(
    rt: &R,
    words: &Words,
    a: Caller,
    b: Caller,
    sight: &Sight,
) -> Option<Caller>
    requires tables { (a.table ≡ words.now.table) × (b.table ≡ words.now.table) }
    requires nodes { (0 < words.now.terms.nodes) × (words.now.terms.nodes ≤ 16384) }
    requires may { MayLetGo (LockId.Node 0) a.log }
    requires surplus { 0 < surplus a }
    requires kept { IsKept b.log sight.now }
    ensures { IfSome result
        (λ after. (after.table ≡ words.now.table) × IsKept after.log sight.now) }
{
    let (_, found) = join(
        rt,
        || -> ()
            requires { (a.table ≡ words.now.table) × (0 < words.now.terms.nodes)
                × MayLetGo (LockId.Node 0) a.log × (0 < surplus a) }
        { let_go_late(rt, words, a) },
        || -> Option<Caller>
            requires { (b.table ≡ words.now.table)
                × ((0 < words.now.terms.nodes) × (words.now.terms.nodes ≤ 16384))
                × IsKept b.log sight.now }
            ensures { IfSome result (λ after. (after.table ≡ words.entry.now.table)
                × IsKept after.log sight.entry.now) }
        { find_locked(words, b, sight) },
    );
    found
}

#[test]
fn a_sight_beside_a_lock_of_another_thread(rt: HostRuntime) -> Result<(), Fail> {
    let (words, mut a) = four_nodes(rt.alloc())?;
    let mut b = words.split(&mut a, 1)?;
    let Ok(sight) = peek(&words, &mut b, 0) else {
        panic!(rt; "nobody holds it")
    };
    assert!(rt; sight.version == 0);
    lock(&rt, &words, &mut a, LockId::Node { node: 0 });
    let Some(mut b) = side_by_side(&rt, &words, a, b, &sight) else {
        panic!(rt; "it is locked")
    };
    let changed = Again::Changed {
        word: 4,
        first: 0,
        second: 4,
    };
    let Err(again) = check(&words, &mut b, &sight) else {
        panic!(rt; "it was let go with the next version")
    };
    assert!(rt; again == changed);
    Ok(())
}
