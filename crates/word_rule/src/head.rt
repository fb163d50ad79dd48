//! Steps on the free head.
ghost use Rattle.std.specs.Prelude.{◌≡◌, ◌≢◌, ◌<◌, ◌≤◌, IfOk, IfErr};
ghost use Rattle.word_rule.specs.Steps.{MayPop, MayPush, after_head_load, after_pop, after_push};

use crate::caller::Caller;
use crate::log::{Log, Role};
use crate::rule::{Asking, LoadsHead, Pops, Pushes};
use crate::words::Words;
use atomic_table::Seat;
use std::marker::Brand;
use tree_laws::laws;

/// Where the free head stands.
const HEAD_WORD: usize = 1;

impl Words {
    fn load_head_for<A: Asking>(&self, seat: &mut Seat<(), Log>) -> u64
        requires table { seat.old.table_id ≡ self.now.table }
        requires about { A.terms ≡ self.now.terms }
        requires caller { seat.old.me.0.role ≡ Role.Caller }
        ensures same { (seat.new.table_id ≡ seat.old.table_id) × (seat.new.id ≡ seat.old.id)
            × (seat.new.me.1 ≡ seat.old.me.1) }
        ensures log { seat.new.me.0 ≡ after_head_load result seat.old.me.0 }
        ensures node { (seat.old.me.0.terms ≡ A.terms) × (result < A.terms.nodes)
            × (A.terms.nodes ≤ 16384) }
    {
        laws::fillings();
        laws::order();
        self.table.shared.load::<LoadsHead<A>>(seat, HEAD_WORD)
    }

    /// Loads the free head: the first free node, or 0.
    pub fn load_head(&self, me: &mut Caller) -> u64
        requires table { me.old.table ≡ self.now.table }
        ensures log { me.new ≡ record me.old { log = after_head_load result me.old.log } }
        ensures terms { me.old.log.terms ≡ self.now.terms }
        ensures node { result < self.now.terms.nodes }
        ensures few { self.now.terms.nodes ≤ 16384 }
    {
        self.load_head_for::<Brand>(&mut me.seat)
    }

    /// Takes the first free node off the list, where the head is still this one: the caller holds
    /// it, and it is linked to `next`. Else answers the head found.
    pub fn pop(&self, me: &mut Caller, node: u32, next: u64) -> Result<(), u64>
        requires table { me.old.table ≡ self.now.table }
        requires may { MayPop node next me.old.log }
        ensures ok { IfOk result
            (λ _. me.new ≡ record me.old { log = after_pop node me.old.log }) }
        ensures err { IfErr result (λ found. (found ≢ node)
            × (found < me.old.log.terms.nodes) × (me.old.log.terms.nodes ≤ 16384)
            × (me.new ≡ record me.old { log = after_head_load found me.old.log })) }
    {
        laws::children();
        laws::fillings();
        laws::order();
        let found = self
            .table
            .shared
            .compare_exchange::<Pops>(&mut me.seat, HEAD_WORD, node as u64, next);
        if found == node as u64 {
            Ok(())
        } else {
            Err(found)
        }
    }

    /// Puts a node that was out onto the list, where the head is still the one to which it is
    /// linked. Else answers the head found.
    pub fn push(&self, me: &mut Caller, node: u32, next: u64) -> Result<(), u64>
        requires table { me.old.table ≡ self.now.table }
        requires may { MayPush node next me.old.log }
        ensures ok { IfOk result
            (λ _. me.new ≡ record me.old { log = after_push node me.old.log }) }
        ensures err { IfErr result (λ found. (found ≢ next)
            × (found < me.old.log.terms.nodes) × (me.old.log.terms.nodes ≤ 16384)
            × (me.new ≡ record me.old { log = after_head_load found me.old.log })) }
    {
        laws::children();
        laws::fillings();
        laws::order();
        let found = self
            .table
            .shared
            .compare_exchange::<Pushes>(&mut me.seat, HEAD_WORD, next, node as u64);
        if found == next { Ok(()) } else { Err(found) }
    }
}
