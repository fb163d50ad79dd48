//! Plays rounds of threads over one registry.

ghost use Rattle.std.specs.Prelude.{◌≡◌, ◌+◌, ◌*◌, ◌≤◌, All, IfOk, flat_map, length, map};
ghost use Rattle.std.specs.List.{AllZip};
ghost use Rattle.script_text.specs.Lawful.{receipts_of};
ghost use Rattle.script_text.specs.ScriptData.{IsRound};
ghost use Rattle.script_text.specs.declared.limits.TheConstants.{MOST_EVENTS, MOST_ROUNDS};
ghost use Rattle.registry_core.specs.Rounds.{IsAfterRound, IsBetweenRounds};
ghost use Rattle.run_engine.specs.Kept.{IsKeptRight, round_told, rounds_told};
ghost use Rattle.run_engine.specs.Played.{round_updates, updates_in, updates_of};
ghost use Rattle.run_engine.specs.Settings.{AreImages, setting_counts};
ghost use Rattle.run_engine.specs.Shared.{IsAfterRounds, IsReady};

use crate::gate::Gate;
use crate::kept::KeptRound;
use crate::setting::RunSetting;
use crate::threads::{PlayedRound, Team, play_threads};
use crate::turns::Turns;
use event_script::{Event, Round, Thread};
use reg_model::NoMemory;
use registry_core::Registry;
use registry_core::laws::{
    answered_callers_may_join, records_stay, rounds_follow, split_callers_are_new,
};
use std::alloc::Global;
use std::sync::Wait;
use std::thread::Threads;
use word_rule::Caller;

/// How many updates an event asks for.
fn updates_of(event: &Event) -> u32
    ensures { result ≡ updates_of event.now }
{
    match event {
        Event::Find { .. } | Event::Unwind { .. } => 0,
        _ => 1,
    }
}

/// How many updates the events of a thread ask for.
pub(crate) fn updates_in(events: &[Event]) -> u32
    requires { length events.now ≤ MOST_EVENTS }
    ensures { result ≡ updates_in events.now }
{
    let mut count = 0;
    for event in events {
        count += updates_of(event);
    }
    count
}

/// How many update calls the caller of each thread needs.
fn gives_of(alloc: Global, threads: &[Thread]) -> Result<Vec<u32>, NoMemory>
    requires { All (λ events. length events ≤ MOST_EVENTS) threads.now }
    ensures { IfOk result (λ gives. gives.items ≡ map updates_in threads.now) }
{
    let mut gives = Vec::new(alloc);
    for thread in threads {
        gives.push(updates_in(&thread.events))?;
    }
    Ok(gives)
}

/// One round of a script, and its number, counted from 1.
#[derive(Clone, Copy)]
struct NumberedRound<'a> {
    number: u32,
    threads: &'a [Thread],
}

/// Plays one round: its threads side by side, each as a caller that is split off for it, with the
/// update calls that it needs, and joined when all have ended.
fn play_round<R: Threads + Wait + Sync, G: Gate + Sync>(
    rt: &R,
    alloc: Global,
    gate: &G,
    setting: RunSetting<'_>,
    registry: &Registry,
    me: &mut Caller,
    round: NumberedRound<'_>,
) -> Result<KeptRound, NoMemory>
    requires images { AreImages setting.images.now setting.sections.now }
    requires round { IsRound (setting_counts setting.version setting.images.now
        setting.snapshots.now) round.threads.now }
    requires ready { IsReady (length setting.images.now) registry.now me.old }
    requires between { IsBetweenRounds me.old }
    requires left { round_updates ≤ me.old.left }
    ensures answered { IfOk result (λ kept. AllZip
        (AllZip (IsKeptRight setting.entry.images.now setting.entry.sections.now
        setting.entry.snapshots.now))
        round.entry.threads.now kept) }
    ensures after { IfOk result (λ kept. IsAfterRound
        (map (λ answers. flat_map (receipts_of setting.entry.images.now) answers)
        (round_told setting.entry.images.now round.entry.threads.now kept))
        me.old me.new) }
    ensures left { IfOk result (λ _. me.old.left ≤ me.new.left + round_updates) }
{
    // The laws that this rests on; they take no step.
    split_callers_are_new();
    answered_callers_may_join();
    rounds_follow();
    let NumberedRound { number, threads } = round;
    let gives = gives_of(alloc, threads)?;
    let callers = registry.split_each(alloc, me, &gives)?;
    let turns = Turns::new();
    let team = Team {
        registry,
        turns: &turns,
        callers,
    };
    let played = play_threads(rt, alloc, gate, number, setting, team, threads)?;
    let PlayedRound { kept, callers } = played;
    registry.join_each(me, callers)?;
    Ok(KeptRound { threads: kept })
}

/// Plays rounds, one after another.
pub fn play_shared<R: Threads + Wait + Sync, G: Gate + Sync>(
    rt: &R,
    alloc: Global,
    gate: &G,
    setting: RunSetting<'_>,
    registry: &Registry,
    me: &mut Caller,
    rounds: &[Round],
) -> Result<Vec<KeptRound>, NoMemory>
    requires images { AreImages setting.images.now setting.sections.now }
    requires rounds { (length rounds.now ≤ MOST_ROUNDS) × All
        (IsRound (setting_counts setting.version setting.images.now setting.snapshots.now))
        rounds.now }
    requires ready { IsReady (length setting.images.now) registry.now me.old }
    requires between { IsBetweenRounds me.old }
    requires left { round_updates * length rounds.now ≤ me.old.left }
    ensures answered { IfOk result (λ kept. AllZip
        (AllZip (AllZip (IsKeptRight setting.entry.images.now setting.entry.sections.now
        setting.entry.snapshots.now)))
        rounds.now kept.items) }
    ensures after { IfOk result (λ kept. IsAfterRounds
        (map
        (λ round. map (λ answers. flat_map (receipts_of setting.entry.images.now) answers) round)
        (rounds_told setting.entry.images.now rounds.now kept.items))
        me.old me.new) }
{
    // What held in earlier rounds goes on to hold; a law that takes no step.
    records_stay();
    let mut kept = Vec::new(alloc);
    for (index, round) in rounds.iter().enumerate() {
        let round = NumberedRound {
            number: index as u32 + 1,
            threads: &round.threads,
        };
        let played = play_round(rt, alloc, gate, setting, registry, me, round)?;
        kept.push(played)?;
    }
    Ok(kept)
}
