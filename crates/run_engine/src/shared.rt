//! The registry over the shared words unwinds stacks and plays events.

ghost use Rattle.std.specs.Prelude.{◌≡◌, ◌<◌, ◌≤◌, All, IfOk, length};
ghost use Rattle.script_text.specs.Lawful.{IsUnfolded, receipts_of, receipts_of_trace};
ghost use Rattle.script_text.specs.ScriptData.{IsEvent};
ghost use Rattle.script_text.specs.Text.{IsPrintable};
ghost use Rattle.script_text.specs.declared.journal.Answer.TheVariants as answer;
ghost use Rattle.reg_model.specs.Chain.{Chain};
ghost use Rattle.reg_model.specs.Receipt.{IsPlace};
ghost use Rattle.registry_core.specs.Calls.{Receives};
ghost use Rattle.run_engine.specs.Played.{IsRightAnswer, updates_of};
ghost use Rattle.run_engine.specs.Settings.{AreImages, setting_counts};
ghost use Rattle.run_engine.specs.Shared.{AnswersPlaying, AnswersShared, IsReady};

use crate::setting::RunSetting;
use crate::turns::{ThreadTurn, Turns};
use event_script::{Answer, Event, member_of};
use reg_model::{NoMemory, Place};
use registry_core::Registry;
use std::alloc::Global;
use std::marker::Model;
use std::sync::Wait;
use unwind_step::{Finder, Trace, trace};
use word_rule::Caller;

/// Asks a registry that other threads change meanwhile, as one of its callers.
#[derive(Drop)]
pub struct SharedFinder<'a> {
    registry: &'a Registry,
    me: &'a mut Caller,
}

impl<'a> Model for SharedFinder<'a> {
    ghost use Rattle.std.specs.Prelude.{◌≡◌};
    ghost use Rattle.run_engine.specs.Shared.{SharedFinderData};

    ghost Value = { SharedFinderData };

    ghost view = { λ f. record {
      registry = f.registry.now;
      me = f.me.now;
      loan = f.me.ghost_name;
    } };

    ghost invariant = { λ f. (f.me.now.table ≡ f.registry.now.table)
        × (f.me.now.log.terms ≡ f.registry.now.terms) };
}

impl<'a> SharedFinder<'a> {
    /// A finder that asks as this caller.
    pub fn new(registry: &'a Registry, me: &'a mut Caller) -> SharedFinder<'a>
        requires table { me.old.table ≡ registry.now.table }
        requires terms { me.old.log.terms ≡ registry.now.terms }
        ensures { result
            ≡ record { registry = registry.now; me = me.old; loan = me.entry.ghost_name } }
    {
        SharedFinder { registry, me }
    }
}

impl Finder for SharedFinder<'_> {
    ghost answers = { AnswersShared };

    ghost bound = { λ f. f.me.log.terms.payloads };

    fn find<R: Wait>(&mut self, rt: &R, pc: u64) -> Place {
        self.registry.find(rt, self.me, pc)
    }
}

/// The trace, kept in room for the lines that it has: `trace` takes room for as many as there may
/// be.
fn fitted(mut trace: Trace) -> Trace
    ensures { result ≡ trace }
{
    trace.frames.shrink_to_fit();
    trace
}

/// One caller of a registry that threads share, which plays the events of its thread.
#[derive(Drop)]
pub struct SharedPlayer<'a> {
    registry: &'a Registry,
    me: Caller,
    turn: ThreadTurn<'a>,
}

impl<'a> Model for SharedPlayer<'a> {
    ghost use Rattle.std.specs.Prelude.{◌≡◌};
    ghost use Rattle.run_engine.specs.Shared.{SharedPlayerData};

    ghost Value = { SharedPlayerData };

    ghost view = { λ p. record { registry = p.registry.now; me = p.me } };

    ghost invariant = { λ p. (p.me.table ≡ p.registry.now.table)
        × (p.me.log.terms ≡ p.registry.now.terms) };
}

impl<'a> SharedPlayer<'a> {
    /// One that plays as this caller, and takes turns with the others of its round.
    pub fn new(registry: &'a Registry, turns: &'a Turns, me: Caller) -> SharedPlayer<'a>
        requires table { me.table ≡ registry.now.table }
        requires terms { me.log.terms ≡ registry.now.terms }
        ensures { result ≡ record { registry = registry.now; me = me } }
    {
        let turn = ThreadTurn::new(turns);
        SharedPlayer { registry, me, turn }
    }

    /// This thread's part in the turns of its round.
    pub fn turn(&self) -> &ThreadTurn<'a> {
        &self.turn
    }

    /// The caller.
    pub fn into_caller(self) -> Caller
        ensures { result ≡ self.entry.me }
    {
        self.me
    }

    /// Plays one event.
    #[inline(always)]
    pub fn play<R: Wait>(
        &mut self,
        rt: &R,
        alloc: Global,
        setting: RunSetting<'_>,
        event: Event,
    ) -> Result<Answer, NoMemory>
        requires images { AreImages setting.images.now setting.sections.now }
        requires event { IsEvent (setting_counts setting.version setting.images.now
            setting.snapshots.now) event }
        requires left { updates_of event ≤ self.old.me.left }
        requires ready { IsReady (length setting.images.now) self.old.registry self.old.me }
        ensures answered { IfOk result
            (λ answer. IsRightAnswer setting.entry.sections.now setting.entry.snapshots.now event
            answer) }
        ensures calls { IfOk result
            (λ answer. Chain Receives self.old.me (receipts_of setting.entry.images.now answer)
            self.new.me) }
        ensures registry { self.new.registry ≡ self.old.registry }
        ensures printable { IfOk result IsPrintable }
    {
        Ok(match event {
            Event::Register { image } => {
                let member = member_of(setting.images, image);
                let waits = self.turn.in_call(rt);
                let answer = self.registry.register_waiting(&waits, &mut self.me, member);
                Answer::Register { image, answer }
            }
            Event::Deregister { base } => {
                let waits = self.turn.in_call(rt);
                let answer = self.registry.deregister_waiting(&waits, &mut self.me, base);
                Answer::Deregister { base, answer }
            }
            Event::Replace { image } => {
                let member = member_of(setting.images, image);
                let waits = self.turn.in_call(rt);
                let answer = self.registry.replace_waiting(&waits, &mut self.me, member);
                Answer::Replace { image, answer }
            }
            Event::Load { image } => {
                let member = member_of(setting.images, image);
                let answer = self.registry.load(rt, &mut self.me, member);
                Answer::Load { image, answer }
            }
            Event::Unload { base } => {
                let answer = self.registry.unload(rt, &mut self.me, base);
                Answer::Unload { base, answer }
            }
            Event::Find { pc } => {
                let place = self.find(rt, pc);
                Answer::Find { pc, place }
            }
            Event::Unwind { snapshot } => {
                let trace = fitted(self.unwind(rt, alloc, setting, snapshot)?);
                Answer::Unwind { snapshot, trace }
            }
        })
    }

    /// Unwinds a recorded stack, by its number.
    fn unwind<R: Wait>(
        &mut self,
        rt: &R,
        alloc: Global,
        setting: RunSetting<'_>,
        number: u32,
    ) -> Result<Trace, NoMemory>
        requires images { AreImages setting.images.now setting.sections.now }
        requires number { number < length setting.snapshots.now }
        requires ready { IsReady (length setting.images.now) self.old.registry self.old.me }
        ensures unfolds { IfOk result
            (λ trace. IsUnfolded setting.entry.sections.now setting.entry.snapshots.now
            (answer.Unwind number trace)) }
        ensures halves { IfOk result (λ trace. All (λ line. IsPlace line.place) trace.frames) }
        ensures calls { IfOk result
            (λ trace. Chain Receives self.old.me (receipts_of_trace trace.frames) self.new.me) }
        ensures registry { self.new.registry ≡ self.old.registry }
    {
        let snapshot = &setting.snapshots[number as usize];
        trace(
            rt,
            alloc,
            self,
            setting.sections,
            &snapshot.regs,
            &snapshot.memory,
        )
    }
}

impl Finder for SharedPlayer<'_> {
    ghost answers = { AnswersPlaying };

    ghost bound = { λ p. p.me.log.terms.payloads };

    fn find<R: Wait>(&mut self, rt: &R, pc: u64) -> Place {
        let waits = self.turn.in_call(rt);
        self.registry.find_waiting(rt, &waits, &mut self.me, pc)
    }
}
