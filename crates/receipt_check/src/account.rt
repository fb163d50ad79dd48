//! What is told of a registry, and what may be wrong with it.

use reg_model::{Member, Receipt};
use std::marker::Model;

/// A receipt, and where it was told.
#[derive(Clone, Copy, Debug, PartialEq, Eq)]
pub struct Told {
    /// The line that tells it, counted from 1. A line may tell two: both halves of a place.
    pub line: u64,
    /// How many updates were made before its round.
    pub before: u64,
    /// And how many with its round.
    pub after: u64,
    /// How many callers there were with its round.
    pub callers: u64,
    /// The greatest stamp or number before it on its thread, or 0 where there is none.
    pub seen: u64,
    pub receipt: Receipt,
}

/// All that is told of a registry.
#[derive(Drop)]
pub struct Account {
    pub told: Vec<Told>,
    /// How many updates were made, as the last line says.
    pub updates: u32,
    /// The number of the last line.
    pub last: u64,
    /// The members that were there at first, for good.
    pub fixed: Vec<Member>,
    /// How many others might be loaded.
    pub loads: u32,
    /// The number of nodes of the tree of registered ranges.
    pub nodes: u32,
}

impl Model for Account {
    ghost use Rattle.reg_model.specs.State.{opening};
    ghost use Rattle.receipt_check.specs.Flaws.{AccountData};

    ghost Value = { AccountData };

    ghost view = { λ a. record {
      told = a.told.items;
      updates = a.updates;
      last = a.last;
      start = opening a.fixed.items a.loads;
      nodes = a.nodes;
    } };
}

/// What is wrong, in the order in which it counts.
#[derive(Clone, Copy, Debug, PartialEq, Eq)]
pub enum ReceiptFlaw {
    /// An accepted update has no number of its own, from 1 to the number of updates.
    Number,
    /// Another number of updates was accepted than the last line says.
    Count,
    /// An update doesn't fit the state before it, or removes another member, or replaces another
    /// payload.
    History,
    /// An answer doesn't hold in the history.
    Answer,
    /// A stamp or number isn't above those before it on its thread.
    Order,
    /// A stamp or number isn't one of its round.
    Round,
}

/// The flaw that counts, and its line.
#[derive(Clone, Copy, Debug, PartialEq, Eq)]
pub struct Departure {
    pub line: u64,
    pub flaw: ReceiptFlaw,
}
