//! Steps on the clock and on the loader's copies.
ghost use Rattle.std.specs.Prelude.{◌≡◌, ℕ, ◌+◌, ◌<◌, ◌≤◌, length, IfSome, IsSomeAnd, false};
ghost use Rattle.word_rule.specs.Logs.{is_gone};
ghost use Rattle.word_rule.specs.CallerData.{due};
ghost use Rattle.word_rule.specs.Places.{copy_place, word_count};
ghost use Rattle.word_rule.specs.Steps.{AfterPublish, IsHeldWord, MayPublish, MayStoreCopy};
ghost use Rattle.word_rule.specs.Steps.{after_copy_store};
ghost use Rattle.word_rule.specs.Sights.{after_copy_load};
ghost use Rattle.word_rule.specs.Clock.{AfterClock, MayAsk};
ghost use Rattle.word_rule.specs.TreeRefusals.{AppendsRefusal};

use crate::caller::Caller;
use crate::log::{Ask, Log, Role};
use crate::places::{CLOCK, LOWER, updates_at};
use crate::rule::{Asking, LoadsClock, LoadsCopy, Publishes, StoresCopy, Updating};
use crate::words::Words;
use atomic_table::Seat;
use reg_model::Update;
use std::marker::Brand;
use tree_laws::laws;

/// The clock among the words.
pub(crate) const CLOCK_WORD: usize = CLOCK as usize;

impl Words {
    pub(crate) fn load_clock_for<A: Asking>(&self, seat: &mut Seat<(), Log>, ask: Ask) -> u64
        requires table { seat.old.table_id ≡ self.now.table }
        requires about { (A.ask ≡ ask) × (A.terms ≡ self.now.terms) }
        requires ask { MayAsk self.now.terms ask seat.old.me.0 }
        requires stands { is_gone seat.old.me.0.role ≡ false }
        ensures same { (seat.new.table_id ≡ seat.old.table_id) × (seat.new.id ≡ seat.old.id)
            × (seat.new.me.1 ≡ seat.old.me.1) }
        ensures log { AfterClock A.terms A.ask result seat.old.me.0 seat.new.me.0 }
        ensures refusal { AppendsRefusal A.ask result seat.old.me.0 seat.new.me.0 }
    {
        let _ = ask;
        laws::leaf_fences();
        self.table.shared.load::<LoadsClock<A>>(seat, CLOCK_WORD)
    }

    /// Loads the clock: its lower half counts all updates that were accepted, its upper half those
    /// of the loader. The caller has then seen them all.
    pub fn load_clock(&self, me: &mut Caller, ask: Ask) -> u64
        requires table { me.old.table ≡ self.now.table }
        requires ask { MayAsk self.now.terms ask me.old.log }
        ensures log { AfterClock self.now.terms ask result me.old.log me.new.log }
        ensures refusal { AppendsRefusal ask result me.old.log me.new.log }
        ensures rest { me.new ≡ record me.old { log = me.new.log } }
    {
        let found = self.load_clock_for::<Brand>(&mut me.seat, ask);
        me.seen = updates_at(found);
        found
    }

    /// Loads a word of a copy, by its number in the whole table.
    pub fn load_copy(&self, me: &mut Caller, at: u32) -> u64
        requires table { me.old.table ≡ self.now.table }
        requires copy { (copy_place self.now.terms 0 ≤ at) × (at < word_count self.now.terms) }
        ensures log { me.new ≡ record me.old { log = after_copy_load at result me.old.log } }
        ensures held { IfSome me.old.log.loader (IsHeldWord me.old.log.terms at result) }
    {
        self.table
            .shared
            .load::<LoadsCopy>(&mut me.seat, at as usize)
    }

    /// Stores a word in the copy that isn't active, by its number in the whole table.
    pub fn store_copy(&self, me: &mut Caller, at: u32, value: u64)
        requires table { me.old.table ≡ self.now.table }
        requires spare { IsSomeAnd me.old.log.loader (MayStoreCopy self.now.terms at) }
        ensures { me.new ≡ record me.old { log = after_copy_store at value me.old.log } }
    {
        self.table
            .shared
            .store::<StoresCopy>(&mut me.seat, at as usize, value);
    }

    fn publish_for<U: Updating>(&self, seat: &mut Seat<(), Log>, update: Update) -> u64
        requires table { seat.old.table_id ≡ self.now.table }
        requires about { U.update ≡ update }
        requires may { IsSomeAnd seat.old.me.0.loader
            (MayPublish self.now.terms seat.old.me.0.budget.allowance update) }
        requires caller { seat.old.me.0.role ≡ Role.Caller }
        ensures same { (seat.new.table_id ≡ seat.old.table_id) × (seat.new.id ≡ seat.old.id)
            × (seat.new.me.1 ≡ seat.old.me.1) }
        ensures log { AfterPublish U.update result seat.old.me.0 seat.new.me.0 }
    {
        let _ = update;
        self.table
            .shared
            .fetch_add::<Publishes<U>>(seat, CLOCK_WORD, LOWER + 1)
    }

    /// Makes the copy that was stored the active one, and so accepts an update of the loader: its
    /// number. The loader's lock stays held.
    pub fn publish(&self, me: &mut Caller, update: Update) -> u32
        requires table { me.old.table ≡ self.now.table }
        requires due { 0 < due me.old }
        requires may { IsSomeAnd me.old.log.loader
            (MayPublish self.now.terms me.old.log.budget.allowance update) }
        ensures log { (found : ℕ) × AfterPublish update found me.old.log me.new.log }
        ensures number { result ≡ length me.new.log.past }
        ensures rest { me.new ≡ record me.old { log = me.new.log } }
    {
        let found = self.publish_for::<Brand>(&mut me.seat, update);
        me.seen = updates_at(found) + 1;
        me.seen
    }
}
