//! Calls that wait in a way that their caller gives.

ghost use Rattle.std.specs.Prelude.{◌≡◌, ◌<◌, ◌↔◌, false};
ghost use Rattle.btree_change.specs.Insertion.{Inserts};
ghost use Rattle.btree_change.specs.Removal.{Removes};
ghost use Rattle.btree_change.specs.Replacement.{MakesReplacement};
ghost use Rattle.reg_model.specs.Chain.{Chain};
ghost use Rattle.reg_model.specs.Receipt.{IsPlace, receipts_of_place};
ghost use Rattle.reg_model.specs.declared.answer.Inserted.TheVariants as inserted;
ghost use Rattle.reg_model.specs.declared.answer.Receipt.TheVariants as receipt;
ghost use Rattle.reg_model.specs.declared.answer.Removed.TheVariants as removed;
ghost use Rattle.reg_model.specs.declared.answer.Replaced.TheVariants as replaced;
ghost use Rattle.word_rule.specs.Callers.{IsIdle};
ghost use Rattle.registry_core.specs.Calls.{EndsCall, MayUpdate, Receives};
ghost use Rattle.registry_core.specs.Queries.{IsKnownPlace, Queries};

use crate::lookup::{loaded_at, registered_at};
use crate::registry::Registry;
use node_store::{Locking, Pausing};
use reg_model::laws::receipts_stay;
use reg_model::{Found, Inserted, Member, Place, Removed, Replaced};
use std::sync::Wait;
use word_rule::{Caller, Looker};

impl Registry {
    /// Registers a member. Spent where the caller may begin no more update calls. It takes the
    /// locks of nodes by a way that never gives up.
    #[tactic(auto, using(crate::proofs::Updating::inserted_spent))]
    pub fn register_waiting<L: Locking>(
        &self,
        locking: &L,
        me: &mut Caller,
        member: Member,
    ) -> Inserted
        requires waits { L.gives_up ≡ false }
        requires caller { MayUpdate self.now me.old }
        requires payload { member.payload < self.now.terms.payloads }
        ensures answer { Inserts self.now.terms member me.old me.new result }
        ensures call { EndsCall self.now (receipt.Register member result) me.old me.new }
        ensures spent { (result ≡ inserted.Spent) ↔ (me.old.left ≡ 0) }
        ensures idle { IsIdle me.new.log }
    {
        btree_change::insert_waiting(locking, &self.words, me, member)
    }

    /// Removes the registered member that begins at an address, and names it. Spent where the
    /// caller may begin no more update calls. It takes the locks of nodes by a way
    /// that never gives up.
    #[tactic(auto, using(crate::proofs::Updating::removed_spent))]
    pub fn deregister_waiting<L: Locking>(&self, locking: &L, me: &mut Caller, base: u64) -> Removed
        requires waits { L.gives_up ≡ false }
        requires caller { MayUpdate self.now me.old }
        ensures answer { Removes self.now.terms base me.old me.new result }
        ensures call { EndsCall self.now (receipt.Deregister base result) me.old me.new }
        ensures spent { (result ≡ removed.Spent) ↔ (me.old.left ≡ 0) }
        ensures idle { IsIdle me.new.log }
    {
        btree_change::remove_waiting(locking, &self.words, me, base)
    }

    /// Gives a member the place of the registered one that has its whole span, whose payload it
    /// names. Spent where the caller may begin no more update calls. It takes the locks of nodes
    /// by a way that never gives up.
    #[tactic(auto, using(crate::proofs::Updating::replaced_spent))]
    pub fn replace_waiting<L: Locking>(
        &self,
        locking: &L,
        me: &mut Caller,
        member: Member,
    ) -> Replaced
        requires waits { L.gives_up ≡ false }
        requires caller { MayUpdate self.now me.old }
        requires payload { member.payload < self.now.terms.payloads }
        ensures answer { MakesReplacement self.now.terms member me.old me.new result }
        ensures call { EndsCall self.now (receipt.Replace member result) me.old me.new }
        ensures spent { (result ≡ replaced.Spent) ↔ (me.old.left ≡ 0) }
        ensures idle { IsIdle me.new.log }
    {
        btree_change::replace_waiting(locking, &self.words, me, member)
    }

    /// Where an address is found: the registered half is asked first, and the loader's where that
    /// misses. Each half is asked until it is answered, with this
    /// pause before it is asked again. It takes no lock and stores nothing.
    pub fn find_waiting<R: Wait, P: Pausing, L: Looker>(
        &self,
        rt: &R,
        pausing: &P,
        me: &mut L,
        pc: u64,
    ) -> Place
        requires table { (L.known me.old).table ≡ self.now.table }
        ensures queries { Queries self.now.terms (receipts_of_place pc result) (L.known me.old)
            (L.known me.new) }
        ensures halves { IsPlace result }
        ensures known { IsKnownPlace self.now.terms result }
        ensures terms { (L.known me.old).log.terms ≡ self.now.terms }
        ensures calls { Chain Receives (L.known me.old) (receipts_of_place pc result)
            (L.known me.new) }
    {
        // What the registered half answered goes on to hold; a law that takes no step.
        receipts_stay();
        let registered = registered_at(rt, pausing, &self.words, me, pc);
        match registered {
            Found::Hit { .. } => Place {
                registered,
                loaded: None,
            },
            Found::Miss { .. } => Place {
                registered,
                loaded: Some(loaded_at(rt, pausing, &self.words, me, pc)),
            },
        }
    }
}
