//! Readers: they look, and nobody waits for them.
ghost use Rattle.std.specs.Prelude.{◌≡◌, ◌<◌, ◌≤◌, IfSome, List, length};
ghost use Rattle.reg_model.specs.declared.answer.Update.{Update};
ghost use Rattle.word_rule.specs.Callers.{IsLockedAt};
ghost use Rattle.word_rule.specs.Clock.{AfterClock, MayAsk};
ghost use Rattle.word_rule.specs.Held.{held_of};
ghost use Rattle.word_rule.specs.Logs.{reader_log, reader_of};
ghost use Rattle.word_rule.specs.NodeTells.{AloneTells, SightTells};
ghost use Rattle.word_rule.specs.Sights.{after_copy_load, after_node_begin, after_node_load};
ghost use Rattle.word_rule.specs.Sights.{after_node_version};
ghost use Rattle.word_rule.specs.Places.{copy_place, word_count};

use crate::caller::Caller;
use crate::clock::CLOCK_WORD;
use crate::log::{Ask, Log};
use crate::places::updates_at;
use crate::rule::{Enters, LoadsCopy, Reads};
use crate::words::Words;
use atomic_table::Seat;
use std::marker::{Brand, Model};

/// One that only looks: nobody waits for it, and it may be dropped at any time.
#[derive(Drop)]
pub struct Reader {
    pub(crate) seat: Seat<(), Log>,
    pub(crate) seen: u32,
}

impl Model for Reader {
    ghost use Rattle.word_rule.specs.CallerData.{CallerData};

    ghost Value = { CallerData };

    ghost use Rattle.word_rule.specs.CallerInvariant.{KeepsReader};

    ghost view = { λ r. record { table = r.seat.table_id; left = 0; log = r.seat.me.0 } };

    ghost invariant = { λ r. KeepsReader r.seen r.seat.me };
}

impl Reader {
    /// How many updates it has seen.
    pub fn seen(&self) -> u32
        ensures { result ≡ length self.now.log.past }
    {
        self.seen
    }
}

impl Words {
    /// Makes a reader that has seen what a caller has. The caller stays as it was.
    pub fn reader_of(&self, me: &mut Caller) -> Reader
        requires { me.old.table ≡ self.now.table }
        ensures reader { result
            ≡ record { table = me.old.table; left = 0; log = reader_of me.old.log } }
        ensures same { me.new ≡ me.old }
    {
        let seen = me.seen;
        let seat = self.table.shared.split_seat::<Reads>(&mut me.seat);
        Reader { seat, seen }
    }

    /// Makes another reader that has seen what one has.
    pub fn another_reader(&self, me: &mut Reader) -> Reader
        requires { me.old.table ≡ self.now.table }
        ensures reader { result
            ≡ record { table = me.old.table; left = 0; log = reader_of me.old.log } }
        ensures same { me.new ≡ me.old }
    {
        Reader {
            seat: self.table.shared.split_seat::<Reads>(&mut me.seat),
            seen: me.seen,
        }
    }

    /// Makes a reader from the words alone, which has seen each update that was accepted by now.
    pub fn reader(&self) -> Reader
        ensures table { result.table ≡ self.now.table }
        ensures log { (past : List Update) × (result.log ≡ reader_log self.now.terms past) }
    {
        let (found, seat) = self.table.shared.load_new_seat::<Enters>(CLOCK_WORD);
        Reader {
            seat,
            seen: updates_at(found),
        }
    }

    // Loads the clock for a reader.
    pub(crate) fn read_clock(&self, me: &mut Reader, ask: Ask) -> u64
        requires table { me.old.table ≡ self.now.table }
        requires ask { MayAsk self.now.terms ask me.old.log }
        ensures log { AfterClock self.now.terms ask result me.old.log me.new.log }
        ensures rest { me.new ≡ record me.old { log = me.new.log } }
    {
        let found = self.load_clock_for::<Brand>(&mut me.seat, ask);
        me.seen = updates_at(found);
        found
    }

    // Begins a reader's sight of a node.
    pub(crate) fn begin_reading(&self, me: &mut Reader, node: u32) -> u64
        requires table { me.old.table ≡ self.now.table }
        requires inside { node < self.now.terms.nodes }
        ensures log { me.new ≡ record me.old { log = after_node_begin node result me.old.log } }
        ensures held { IfSome (held_of node me.old.log.holdings.held)
            (λ h. IsLockedAt h.version result) }
        ensures alone { AloneTells node result me.old.log }
    {
        self.begin_sight_for::<Brand>(&mut me.seat, node)
    }

    // Loads a word of a node for a reader.
    pub(crate) fn read_node(&self, me: &mut Reader, node: u32, at: u32) -> u64
        requires table { me.old.table ≡ self.now.table }
        requires inside { node < self.now.terms.nodes }
        requires word { (1 ≤ at) × (at ≤ 35) }
        ensures log { me.new ≡ record me.old { log = after_node_load node at result me.old.log } }
    {
        self.load_node_for::<Brand>(&mut me.seat, node, at)
    }

    // Loads a node's version for a reader.
    pub(crate) fn read_version(&self, me: &mut Reader, node: u32, ask: Ask) -> u64
        requires table { me.old.table ≡ self.now.table }
        requires inside { node < self.now.terms.nodes }
        ensures log { me.new
            ≡ record me.old { log = after_node_version ask node result me.old.log } }
        ensures tells { (me.old.log.terms ≡ self.now.terms) × SightTells node result me.old.log }
        ensures alone { AloneTells node result me.old.log }
    {
        self.load_version_for::<Brand>(&mut me.seat, node, ask)
    }

    // Loads a word of a copy for a reader.
    pub(crate) fn read_copy(&self, me: &mut Reader, at: u32) -> u64
        requires table { me.old.table ≡ self.now.table }
        requires copy { (copy_place self.now.terms 0 ≤ at) × (at < word_count self.now.terms) }
        ensures log { me.new ≡ record me.old { log = after_copy_load at result me.old.log } }
    {
        self.table
            .shared
            .load::<LoadsCopy>(&mut me.seat, at as usize)
    }
}
