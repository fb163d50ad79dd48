//! Plays the threads of a round side by side.

ghost use Rattle.std.specs.Prelude.{◌≡◌, ◌+◌, ◌≤◌, IfOk, flat_map, length, map};
ghost use Rattle.std.specs.List.{AllZip};
ghost use Rattle.std.specs.Thread.{IsSync};
ghost use Rattle.reg_model.specs.Chain.{Chain};
ghost use Rattle.script_text.specs.Lawful.{receipts_of};
ghost use Rattle.script_text.specs.ScriptData.{IsEvent, IsRound, IsThread};
ghost use Rattle.registry_core.specs.Calls.{Answered, Receives};
ghost use Rattle.registry_core.specs.Rounds.{AreAnswered};
ghost use Rattle.run_engine.specs.Kept.{IsKeptRight, round_told, thread_told, told};
ghost use Rattle.run_engine.specs.Played.{updates_in, updates_of};
ghost use Rattle.run_engine.specs.Settings.{AreImages, setting_counts};
ghost use Rattle.run_engine.specs.Shared.{AreManned, IsReady};

use crate::gate::Gate;
use crate::kept::{KeptAnswer, KeptThread, keep, keep_place};
use crate::setting::RunSetting;
use crate::shared::SharedPlayer;
use crate::turns::Turns;
use event_script::{Answer, Event, Thread};
use reg_model::NoMemory;
use registry_core::Registry;
use registry_core::laws::calls_follow;
use std::alloc::Global;
use std::sync::Wait;
use std::thread::{Threads, join};
use unwind_step::Finder;
use word_rule::Caller;

/// Which thread of which round, both counted from 1.
#[derive(Clone, Copy, Debug, PartialEq, Eq)]
pub struct ThreadNumber {
    pub round: u32,
    pub thread: u32,
}

/// An event of a thread, with its number, counted from 1.
#[derive(Clone, Copy)]
struct NumberedEvent {
    thread: ThreadNumber,
    count: u32,
    event: Event,
}

/// Passes the gate. Nobody keeps the turn through one that may hold threads back.
#[inline(always)]
fn pass<R: Wait, G: Gate>(
    rt: &R,
    gate: &G,
    player: &SharedPlayer<'_>,
    event: &NumberedEvent,
    answer: Option<&Answer>,
) {
    if gate.holds_back() {
        player.turn().give_back();
    }
    let ThreadNumber { round, thread } = event.thread;
    gate.pass(rt, round, thread, event.count, answer);
}

/// Plays an event, and keeps of its answer what is needed. That of a lookup, as most events of long
/// scripts are, goes through no memory.
#[inline(always)]
fn play_one<R: Wait, G: Gate>(
    rt: &R,
    alloc: Global,
    gate: &G,
    setting: RunSetting<'_>,
    player: &mut SharedPlayer<'_>,
    event: NumberedEvent,
) -> Result<KeptAnswer, NoMemory>
    requires images { AreImages setting.images.now setting.sections.now }
    requires event { IsEvent (setting_counts setting.version setting.images.now
        setting.snapshots.now) event.event }
    requires left { updates_of event.event ≤ player.old.me.left }
    requires ready { IsReady (length setting.images.now) player.old.registry player.old.me }
    ensures right { IfOk result
        (IsKeptRight setting.entry.images.now setting.entry.sections.now
        setting.entry.snapshots.now event.event) }
    ensures calls { IfOk result
        (λ kept. Chain Receives player.old.me
        (receipts_of setting.entry.images.now (told setting.entry.images.now event.event kept))
        player.new.me) }
    ensures left { IfOk result
        (λ _. player.old.me.left ≤ player.new.me.left + updates_of event.event) }
    ensures ready { IfOk result
        (λ _. IsReady (length setting.entry.images.now) player.new.registry player.new.me) }
{
    // The law that this rests on; it takes no step.
    calls_follow();
    pass(rt, gate, player, &event, None);
    match event.event {
        Event::Find { pc } => {
            let place = player.find(rt, pc);
            let answer = Answer::Find { pc, place };
            pass(rt, gate, player, &event, Some(&answer));
            keep_place(alloc, setting.images, pc, &place)
        }
        _ => {
            let answer = player.play(rt, alloc, setting, event.event)?;
            pass(rt, gate, player, &event, Some(&answer));
            keep(alloc, setting.images, answer)
        }
    }
}

/// Those who play a round: one caller of the registry for each thread.
#[derive(Drop)]
pub struct Team<'a> {
    pub registry: &'a Registry,
    pub turns: &'a Turns,
    pub callers: Vec<Caller>,
}

/// What came of one thread: what is kept of its answers, and its caller.
#[derive(Drop)]
pub struct PlayedThread {
    pub kept: KeptThread,
    pub caller: Caller,
}

/// What came of a round: what is kept of the answers of each thread, and its caller.
#[derive(Drop)]
pub struct PlayedRound {
    pub kept: Vec<KeptThread>,
    pub callers: Vec<Caller>,
}

/// Plays the events of one thread as this player, in order. The gate sees each whole answer.
fn play_thread<R: Wait, G: Gate>(
    rt: &R,
    alloc: Global,
    gate: &G,
    number: ThreadNumber,
    setting: RunSetting<'_>,
    mut player: SharedPlayer<'_>,
    events: &[Event],
) -> Result<PlayedThread, NoMemory>
    requires images { AreImages setting.images.now setting.sections.now }
    requires thread { IsThread (setting_counts setting.version setting.images.now
        setting.snapshots.now) events.now }
    requires ready { IsReady (length setting.images.now) player.registry player.me }
    requires left { updates_in events.now ≤ player.me.left }
    ensures answered { IfOk result
        (λ played. AllZip (IsKeptRight setting.entry.images.now setting.entry.sections.now
        setting.entry.snapshots.now) events.now played.kept) }
    ensures calls { IfOk result
        (λ played. Answered
        (flat_map (receipts_of setting.entry.images.now)
        (thread_told setting.entry.images.now events.now played.kept))
        player.entry.me played.caller) }
{
    // The law that this rests on; it takes no step.
    calls_follow();
    let mut answers = Vec::with_capacity(alloc, events.len())?;
    player.turn().begin(rt);
    for (index, event) in events.iter().enumerate() {
        let event = NumberedEvent {
            thread: number,
            count: index as u32 + 1,
            event: *event,
        };
        let kept = play_one(rt, alloc, gate, setting, &mut player, event)?;
        answers.push(kept)?;
        player.turn().end_event();
    }
    let kept = KeptThread { answers };
    let caller = player.into_caller();
    Ok(PlayedThread { kept, caller })
}

/// Plays the threads of a round side by side: the last one here, and those before it beside it.
pub fn play_threads<R: Threads + Wait + Sync, G: Gate + Sync>(
    rt: &R,
    alloc: Global,
    gate: &G,
    round: u32,
    setting: RunSetting<'_>,
    team: Team<'_>,
    threads: &[Thread],
) -> Result<PlayedRound, NoMemory>
    requires images { AreImages setting.images.now setting.sections.now }
    requires round { IsRound (setting_counts setting.version setting.images.now
        setting.snapshots.now) threads.now }
    requires manned { AreManned (length setting.images.now) team.registry.now threads.now
        team.callers.items }
    ensures answered { IfOk result
        (λ played. AllZip
        (AllZip (IsKeptRight setting.entry.images.now setting.entry.sections.now
        setting.entry.snapshots.now))
        threads.now played.kept.items) }
    ensures calls { IfOk result
        (λ played. AreAnswered
        (map (λ answers. flat_map (receipts_of setting.entry.images.now) answers)
        (round_told setting.entry.images.now threads.now played.kept.items))
        team.entry.callers.items played.callers.items) }
{
    let RunSetting {
        version,
        images,
        sections,
        snapshots,
    } = setting;
    let Team {
        registry,
        turns,
        mut callers,
    } = team;
    let [before @ .., thread] = threads else {
        return Ok(PlayedRound {
            kept: Vec::new(alloc),
            callers,
        });
    };
    let Some(me) = callers.pop() else {
        unreachable!()
    };
    let number = ThreadNumber {
        round,
        thread: threads.len() as u32,
    };
    let events: &[Event] = &thread.events;
    if before.is_empty() {
        // Nobody plays beside this one.
        let player = SharedPlayer::new(registry, turns, me);
        let own = play_thread(rt, alloc, gate, number, setting, player, events)?;
        let mut kept = Vec::new(alloc);
        kept.push(own.kept)?;
        callers.push(own.caller)?;
        return Ok(PlayedRound { kept, callers });
    }
    let (others, own) = join(
        rt,
        || -> Result<PlayedRound, NoMemory>
            requires { IsSync R.row × IsSync G.row × AreImages images.now sections.now × IsRound
                (setting_counts version images.now snapshots.now) before.now × AreManned
                (length images.now) registry.now before.now callers.items }
            ensures answered { IfOk result
                (λ played. AllZip
                (AllZip (IsKeptRight images.entry.now sections.entry.now snapshots.entry.now))
                before.entry.now played.kept.items) }
            ensures calls { IfOk result
                (λ played. AreAnswered
                (map (λ answers. flat_map (receipts_of images.entry.now) answers)
                (round_told images.entry.now before.entry.now played.kept.items))
                callers.items played.callers.items) }
        {
            let setting = RunSetting {
                version,
                images,
                sections,
                snapshots,
            };
            let team = Team {
                registry,
                turns,
                callers,
            };
            play_threads(rt, alloc, gate, round, setting, team, before)
        },
        || -> Result<PlayedThread, NoMemory>
            requires { IsSync R.row × IsSync G.row × AreImages images.now sections.now × IsThread
                (setting_counts version images.now snapshots.now) events.now × IsReady
                (length images.now) registry.now me × (updates_in events.now ≤ me.left) }
            ensures answered { IfOk result
                (λ played. AllZip
                (IsKeptRight images.entry.now sections.entry.now snapshots.entry.now)
                events.entry.now played.kept) }
            ensures calls { IfOk result
                (λ played. Answered
                (flat_map (receipts_of images.entry.now)
                (thread_told images.entry.now events.entry.now played.kept))
                me played.caller) }
        {
            let setting = RunSetting {
                version,
                images,
                sections,
                snapshots,
            };
            let player = SharedPlayer::new(registry, turns, me);
            play_thread(rt, alloc, gate, number, setting, player, events)
        },
    );
    let others = others?;
    let own = own?;
    let mut kept = others.kept;
    let mut callers = others.callers;
    kept.push(own.kept)?;
    callers.push(own.caller)?;
    Ok(PlayedRound { kept, callers })
}
