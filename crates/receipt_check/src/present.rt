//! The state of a registry that goes on with its history.

ghost use Rattle.std.specs.Prelude.{◌≡◌, ◌+◌, ◌-◌, ◌*◌, ◌^◌, ◌<◌, ◌≤◌, ◌↔◌, List, IsTrue, IfOk};
ghost use Rattle.std.specs.Prelude.{OnOk, min};
ghost use Rattle.std.specs.Prelude.{slice_get, Some, length};
ghost use Rattle.reg_model.specs.State.{State, opening};
ghost use Rattle.reg_model.specs.Receipt.{moment, made_before, IsAtNumber, Holds};
ghost use Rattle.reg_model.specs.declared.answer.Update.{Update};
ghost use Rattle.receipt_check.specs.Flaws.{since_of};
ghost use Rattle.receipt_check.specs.Maps.{ShowsState};
ghost use Rattle.receipt_check.specs.Sweep.{IsPresent, last_with, HadLast, IsFilledNow, HoldsNow};
ghost use Rattle.receipt_check.specs.Sweep.{FitsNow};

use crate::account::Told;
use crate::last_moments::LastMoments;
use crate::lists::Lists;
use crate::receipts::{moment_of, update_in};
use reg_model::{Inserted, Member, NoMemory, Receipt, Update};
use std::alloc::Global;

/// A registry after so many updates of a history.
#[derive(Drop)]
pub struct Present {
    lists: Lists,
    made: usize,
    moments: LastMoments,
}

impl Present {
    /// Nothing is registered or loaded yet.
    pub fn opening(alloc: Global, fixed: &[Member], loads: u32) -> Result<Self, NoMemory>
        ensures present { IfOk result (λ present. (history : List Update)
            → IsPresent (opening fixed.now loads) history present) }
        ensures none { IfOk result (λ present. present.made ≡ 0) }
    {
        Ok(Present {
            lists: Lists::opening(alloc, fixed, loads)?,
            made: 0,
            moments: LastMoments::new(alloc),
        })
    }

    /// Goes on until so many updates were made, or all that there are.
    pub fn go_on(&mut self, history: &[Update], updates: u32) -> Result<(), NoMemory>
        ensures { OnOk result ((start : State) → IsPresent start history.now self.old
            → self.old.made ≤ updates → IsPresent start history.now self.new
            × (self.new.made ≡ min updates (length history.now))) }
    {
        let end = (updates as usize).min(history.len());
        for made in self.made..end {
            self.make(&history[made])?;
        }
        Ok(())
    }

    /// Makes the next update.
    fn make(&mut self, update: &Update) -> Result<(), NoMemory>
        requires { self.old.made + 2 < 2 ^ 64 }
        ensures made { OnOk result (self.new.made ≡ self.old.made + 1) }
        ensures present { OnOk result ((start : State) (history : List Update)
            → slice_get history self.old.made ≡ Some update.now
            → IsPresent start history self.old → IsPresent start history self.new) }
    {
        self.lists.make(update)?;
        self.moments
            .go_on(self.made, self.lists.registered_count())?;
        self.made += 1;
        Ok(())
    }

    /// Whether the receipt holds, where this is the state in which its answer was given.
    pub fn holds(&self, history: &[Update], nodes: u32, row: &Told) -> bool
        ensures { (start : State) → IsPresent start history.now self.now
            → self.now.made ≡ min (made_before row.now.receipt) (length history.now)
            → (IsTrue result ↔ Holds start history.now nodes row.now.callers (since_of row.now)
            row.now.receipt) }
    {
        self.holds_now(history, nodes, row)
    }

    /// Whether it holds, by what there is now.
    fn holds_now(&self, history: &[Update], nodes: u32, row: &Told) -> bool
        ensures { (s : State) → ShowsState self.now.lists s
            → (IsTrue result ↔ HoldsNow history.now s nodes self.now row.now) }
    {
        if !stands(history, &row.receipt) {
            return false;
        }
        if !self.lists.is_right(&row.receipt) {
            return false;
        }
        self.is_filled(nodes, row)
    }

    /// Whether a tree that was full had ten members at some moment since, and two for each node
    /// that callers can't have had out.
    fn is_filled(&self, nodes: u32, row: &Told) -> bool
        ensures { IsTrue result ↔ IsFilledNow nodes self.now row.now }
    {
        let since = row.before.max(row.seen);
        let within = within_tree(nodes, row.callers);
        if !self.had(10, since, &row.receipt) {
            return false;
        }
        if within < 2 {
            return true;
        }
        self.had(2 * within, since, &row.receipt)
    }

    /// Whether a tree that was full had so many members at some moment since.
    fn had(&self, least: u64, since: u64, receipt: &Receipt) -> bool
        ensures { IsTrue result
            ↔ HadLast (last_with self.now.moments self.now.made least) since receipt.now }
    {
        match receipt {
            Receipt::Register {
                answer: Inserted::Full { .. },
                ..
            } => self
                .moments
                .had_since(self.made, least as usize, since as usize),
            _ => true,
        }
    }

    /// Whether the update that was accepted can be made now, and removes the member that it names,
    /// or replaces its payload.
    pub fn fits(&self, receipt: &Receipt) -> bool
        ensures { (s : State) → ShowsState self.now.lists s
            → (IsTrue result ↔ FitsNow s receipt.now) }
    {
        match update_in(receipt) {
            None => true,
            Some(update) => self.lists.fits(&update) && self.lists.is_right(receipt),
        }
    }
}

/// How many nodes are in the tree, where each caller has as many out as it may.
fn within_tree(nodes: u32, callers: u64) -> u64
    ensures { result ≡ nodes - 4 * callers }
{
    (nodes as u64).saturating_sub(callers.saturating_mul(4))
}

/// Whether the receipt's moment is one of the history's, and an accepted update stands there.
fn stands(history: &[Update], receipt: &Receipt) -> bool
    ensures { IsTrue result
        ↔ ((moment receipt.now ≤ length history.now) × IsAtNumber history.now receipt.now) }
{
    moment_of(receipt) as usize <= history.len() && is_at_number(history, receipt)
}

/// Whether an accepted update stands in the history under its number.
fn is_at_number(history: &[Update], receipt: &Receipt) -> bool
    ensures { IsTrue result ↔ IsAtNumber history.now receipt.now }
{
    let number = moment_of(receipt);
    match update_in(receipt) {
        None => true,
        Some(update) => number > 0 && is_update_at(history, number as usize - 1, &update),
    }
}

/// Whether this update was made after so many.
fn is_update_at(history: &[Update], made: usize, update: &Update) -> bool
    ensures { IsTrue result ↔ (slice_get history.now made ≡ Some update.now) }
{
    match history.get(made) {
        Some(there) => there == update,
        None => false,
    }
}
