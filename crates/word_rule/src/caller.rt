//! Callers and notes.
ghost use Rattle.std.specs.Prelude.{◌≡◌, ◌-◌, ◌<◌, ◌≤◌, ◌↔◌, length, IsTrue};
ghost use Rattle.word_rule.specs.CallerData.{due, surplus};
ghost use Rattle.word_rule.specs.Callers.{IsAlone};
ghost use Rattle.word_rule.specs.Places.{CALL_CREDIT};

use crate::log::Log;
use crate::share::Share;
use atomic_table::Seat;
use std::marker::Model;

/// The releases of one update call.
const CALL_CREDIT: u64 = 64;

/// One that steps on the words: what it may still do, and what it has seen.
#[derive(Drop)]
pub struct Caller {
    pub(crate) seat: Seat<(), Log>,
    pub(crate) left: u32,
    /// The releases that it may make beside those of the update calls that are left.
    pub(crate) spare: u64,
    pub(crate) seen: u32,
    pub(crate) share: Share,
}

impl Model for Caller {
    ghost use Rattle.word_rule.specs.CallerData.{CallerData};

    ghost Value = { CallerData };

    ghost use Rattle.word_rule.specs.CallerInvariant.{IsCaller};

    ghost view = { λ c. record { table = c.seat.table_id; left = c.left; log = c.seat.me.0 } };

    ghost invariant = { λ c. IsCaller c.left c.spare c.seen c.share c.seat.me };
}

/// What a caller had seen, to be told to another.
#[derive(Drop)]
pub struct Note {
    pub(crate) seat: Seat<(), Log>,
    pub(crate) seen: u32,
    pub(crate) share: Share,
}

impl Model for Note {
    ghost use Rattle.word_rule.specs.CallerData.{NoteData};

    ghost Value = { NoteData };

    ghost use Rattle.word_rule.specs.CallerInvariant.{KeepsNote};

    ghost view = { λ n. record { table = n.seat.table_id; log = n.seat.me.0 } };

    ghost invariant = { λ n. KeepsNote n.seen n.share n.seat.me };
}

impl Note {
    /// How many updates its maker had seen.
    pub fn seen(&self) -> u32
        ensures { result ≡ length self.now.log.past }
    {
        self.seen
    }
}

impl Caller {
    /// How many updates it has seen.
    pub fn seen(&self) -> u32
        ensures { result ≡ length self.now.log.past }
    {
        self.seen
    }

    /// How many update calls it may still begin.
    pub fn left(&self) -> u32
        ensures { result ≡ self.now.left }
    {
        self.left
    }

    /// How many releases it may make beside those of the update calls that it may still begin. An
    /// update call that was begun makes at most 64, and so does each try of one.
    pub fn spare(&self) -> u64
        ensures { result ≡ surplus self.now }
    {
        self.spare
    }

    /// Whether it has the releases of one more try to spare.
    pub fn may_try(&self) -> bool
        ensures { IsTrue result ↔ (CALL_CREDIT ≤ surplus self.now) }
    {
        self.spare >= CALL_CREDIT
    }

    /// Whether every other caller and every note that was ever made of these words was joined or
    /// learnt into it.
    pub fn alone(&self) -> bool
        ensures { IsTrue result ↔ IsAlone self.now.log.lineage }
    {
        self.share.is_whole()
    }

    /// Begins an update call, where one is left.
    pub fn use_one(&mut self) -> bool
        ensures answer { IsTrue result ↔ (0 < self.old.left) }
        ensures after { self.new ≡ record self.old { left = self.old.left - 1 } }
        ensures may { IsTrue result → (0 < due self.new) × (CALL_CREDIT ≤ surplus self.new) }
    {
        if self.left == 0 {
            return false;
        }
        self.left -= 1;
        self.spare += CALL_CREDIT;
        true
    }
}
