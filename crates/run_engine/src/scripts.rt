//! Plays a script against a registry that its threads share.

ghost use Rattle.std.specs.Prelude.{◌≡◌, IfOk, OnOk, flat_map};
ghost use Rattle.script_text.specs.Lawful.{IsLawfulJournal, thread_receipts};
ghost use Rattle.registry_core.specs.Rounds.{IsBetweenRounds, joined_lists};
ghost use Rattle.run_engine.specs.Kept.{IsKeptJournal, journal_told};
ghost use Rattle.run_engine.specs.Played.{IsPlayed};
ghost use Rattle.run_engine.specs.Nodes.{AreEnough};
ghost use Rattle.run_engine.specs.Shared.{new_caller, script_terms, terms_with};

use crate::gate::Gate;
use crate::kept::KeptJournal;
use crate::nodes::nodes_for;
use crate::rounds::play_shared;
use crate::setting::RunSetting;
use crate::telling::tell_journal;
use event_script::{Journal, Script, members_of};
use reg_model::NoMemory;
use reg_model::laws::numbers_tell_histories;
use registry_core::Registry;
use registry_core::laws::whole_logs_are_numbered;
use std::alloc::Global;
use std::sync::Wait;
use std::thread::Threads;
use word_rule::Caller;

/// Plays a script: the threads of each round side by side, each round when the one before it has
/// ended. The caller comes back with the receipts of all of them.
pub fn run_script<R: Threads + Wait + Sync, G: Gate + Sync>(
    rt: &R,
    alloc: Global,
    script: &Script,
    registry: &Registry,
    me: &mut Caller,
    gate: &G,
) -> Result<Journal, NoMemory>
    requires terms { registry.now.terms ≡ script_terms script.now }
    requires caller { me.old ≡ new_caller registry.now }
    requires between { IsBetweenRounds me.old }
    ensures lawful { IfOk result (λ journal. IsLawfulJournal script.now journal) }
    ensures played { IfOk result (λ journal. IsPlayed journal.rounds) }
    ensures between { OnOk result (IsBetweenRounds me.new) }
    ensures receipts { IfOk result (λ journal. joined_lists me.new.log.receipts
        ≡ flat_map (λ round. round) (thread_receipts script.now.images journal)) }
{
    let kept = run_kept(rt, alloc, gate, script, registry, me)?;
    tell_journal(alloc, script, kept)
}

/// Plays a script, and keeps of its journal what the script doesn't tell.
fn run_kept<R: Threads + Wait + Sync, G: Gate + Sync>(
    rt: &R,
    alloc: Global,
    gate: &G,
    script: &Script,
    registry: &Registry,
    me: &mut Caller,
) -> Result<KeptJournal, NoMemory>
    requires terms { registry.now.terms ≡ terms_with script.now registry.now.terms.nodes }
    requires nodes { AreEnough script.now registry.now.terms.nodes }
    requires caller { me.old ≡ new_caller registry.now }
    requires between { IsBetweenRounds me.old }
    ensures kept { IfOk result (IsKeptJournal script.now) }
    ensures between { OnOk result (IsBetweenRounds me.new) }
    ensures receipts { IfOk result (λ kept. joined_lists me.new.log.receipts
        ≡ flat_map (λ round. round)
        (thread_receipts script.now.images (journal_told script.now kept))) }
{
    // The laws that this rests on; they take no step.
    numbers_tell_histories();
    whole_logs_are_numbered();
    let setting = RunSetting {
        version: script.version,
        images: &script.images,
        sections: &script.sections,
        snapshots: &script.snapshots,
    };
    let rounds = play_shared(rt, alloc, gate, setting, registry, me, &script.rounds)?;
    let updates = me.seen();
    Ok(KeptJournal { rounds, updates })
}

/// Plays a script against a new registry, which its threads share.
pub fn play_script<R: Threads + Wait + Sync, G: Gate + Sync>(
    rt: &R,
    alloc: Global,
    gate: &G,
    script: &Script,
) -> Result<Journal, NoMemory>
    ensures lawful { IfOk result (λ journal. IsLawfulJournal script.now journal) }
    ensures played { IfOk result (λ journal. IsPlayed journal.rounds) }
{
    let kept = play_kept(rt, alloc, gate, script)?;
    tell_journal(alloc, script, kept)
}

/// Plays a script against a new registry, and keeps of its journal what the script doesn't tell.
pub fn play_kept<R: Threads + Wait + Sync, G: Gate + Sync>(
    rt: &R,
    alloc: Global,
    gate: &G,
    script: &Script,
) -> Result<KeptJournal, NoMemory>
    ensures { IfOk result (IsKeptJournal script.now) }
{
    let fixed = members_of(alloc, &script.images, &script.fixed)?;
    let images = script.images.len() as u32;
    let nodes = nodes_for(script.nodes, images, &script.rounds);
    let (registry, mut me) = Registry::new(alloc, nodes, script.loads, images, fixed)?;
    run_kept(rt, alloc, gate, script, &registry, &mut me)
}
