//! The commit of an update of the tree.
ghost use Rattle.std.specs.Prelude.{◌≡◌, ℕ, ◌<◌, length};
ghost use Rattle.word_rule.specs.CallerData.{due};
ghost use Rattle.word_rule.specs.Commits.{AfterCommit, MayCommit};

use crate::caller::Caller;
use crate::clock::CLOCK_WORD;
use crate::exchange::exchange_laws;
use crate::log::{Log, Role};
use crate::places::updates_at;
use crate::rule::{Commits, Updating};
use crate::words::Words;
use atomic_table::Seat;
use reg_model::Update;
use std::marker::Brand;
use tree_laws::laws;

impl Words {
    fn commit_for<U: Updating>(&self, seat: &mut Seat<(), Log>, update: Update) -> u64
        requires table { seat.old.table_id ≡ self.now.table }
        requires about { U.update ≡ update }
        requires may { MayCommit self.now.terms update seat.old.me.0 }
        requires caller { seat.old.me.0.role ≡ Role.Caller }
        ensures same { (seat.new.table_id ≡ seat.old.table_id) × (seat.new.id ≡ seat.old.id)
            × (seat.new.me.1 ≡ seat.old.me.1) }
        ensures log { AfterCommit U.update result seat.old.me.0 seat.new.me.0 }
    {
        let _ = update;
        exchange_laws();
        laws::decided();
        laws::order();
        self.table
            .shared
            .fetch_add::<Commits<U>>(seat, CLOCK_WORD, 1)
    }

    /// Accepts an update of the tree, which the caller has made in the words of a live leaf that it
    /// holds: its number. What the caller changed settles, and the leaf stays held.
    pub fn commit(&self, me: &mut Caller, update: Update) -> u32
        requires table { me.old.table ≡ self.now.table }
        requires due { 0 < due me.old }
        requires may { MayCommit self.now.terms update me.old.log }
        ensures log { (found : ℕ) × AfterCommit update found me.old.log me.new.log }
        ensures number { result ≡ length me.new.log.past }
        ensures later { length me.old.log.past < result }
        ensures rest { me.new ≡ record me.old { log = me.new.log } }
    {
        let found = self.commit_for::<Brand>(&mut me.seat, update);
        me.seen = updates_at(found) + 1;
        me.seen
    }
}
