//! Callers and notes that come and go.
ghost use Rattle.std.specs.Prelude.{◌≡◌, ◌+◌, ◌-◌, ◌*◌, ◌<◌, ◌≤◌, [], None};
ghost use Rattle.std.specs.Prelude.{OnErr, IfOk, IfErr, OnOk, false, length};
ghost use mathlib.Core.List.{IsPrefix};
ghost use Rattle.word_rule.specs.Places.{ALLOWANCE, CALL_CREDIT, CREDIT};
ghost use Rattle.word_rule.specs.Logs.{is_nameless, after_split, split_off, after_note, note_of};
ghost use Rattle.word_rule.specs.Logs.{after_join, after_learn};
ghost use Rattle.word_rule.specs.Callers.{IsAlone, IsWhole};
ghost use Rattle.word_rule.specs.Shares.{WHOLE};

use crate::caller::{Caller, Note};
use crate::clock::CLOCK_WORD;
use crate::log::{Log, Role};
use crate::rule::{Confirms, Giving, Joins, Learns, Notes, Splits};
use crate::share::small_part;
use crate::words::Words;
use atomic_table::Seat;
use reg_model::NoMemory;
use std::marker::Brand;

impl Words {
    fn split_seat<G: Giving>(&self, seat: &mut Seat<(), Log>, left: u32, give: u32) -> Seat<(), Log>
        requires table { seat.old.table_id ≡ self.now.table }
        requires about { (G.left ≡ left) × (G.give ≡ give) }
        requires caller { seat.old.me.0.role ≡ Role.Caller }
        requires room { (give ≤ left) × (left ≤ seat.old.me.0.budget.allowance)
            × (CALL_CREDIT * left ≤ seat.old.me.0.budget.credit) }
        requires share { 2 ≤ seat.old.me.0.lineage.share }
        ensures old { (seat.new.table_id ≡ seat.old.table_id) × (seat.new.id ≡ seat.old.id)
            × (seat.new.me ≡ (after_split left give seat.old.me.0, seat.old.me.1)) }
        ensures new { (result.table_id ≡ seat.old.table_id)
            × (result.me ≡ (split_off left give seat.old.me.0, [])) }
    {
        let _ = left;
        let _ = give;
        self.table.shared.split_seat::<Splits<G>>(seat)
    }

    /// Splits off a caller with so many of the update calls.
    pub fn split(&self, me: &mut Caller, give: u32) -> Result<Caller, NoMemory>
        requires table { me.old.table ≡ self.now.table }
        requires give { give ≤ me.old.left }
        ensures new { IfOk result
            (λ other. other
            ≡ record {
              table = me.old.table;
              left = give;
              log = split_off me.old.left give me.old.log;
            }) }
        ensures me { OnOk result (me.new
            ≡ record {
              table = me.old.table;
              left = me.old.left - give;
              log = after_split me.old.left give me.old.log;
            }) }
        ensures apart { OnOk result (me.new.log.lineage.share < WHOLE) }
        ensures err { OnErr result (me.new ≡ me.old) }
    {
        let share = me.share.split()?;
        let seat = self.split_seat::<Brand>(&mut me.seat, me.left, give);
        me.left -= give;
        let spare = small_part(me.spare);
        me.spare -= spare;
        Ok(Caller {
            seat,
            left: give,
            spare,
            seen: me.seen,
            share,
        })
    }

    /// Makes a note of what a caller has seen.
    pub fn note(&self, me: &mut Caller) -> Result<Note, NoMemory>
        requires { me.old.table ≡ self.now.table }
        ensures note { IfOk result
            (λ note. note ≡ record { table = me.old.table; log = note_of me.old.log }) }
        ensures me { OnOk result (me.new ≡ record me.old { log = after_note me.old.log }) }
        ensures apart { OnOk result (me.new.log.lineage.share < WHOLE) }
        ensures err { OnErr result (me.new ≡ me.old) }
    {
        let share = me.share.split()?;
        let seen = me.seen;
        let seat = self.table.shared.split_seat::<Notes>(&mut me.seat);
        Ok(Note { seat, seen, share })
    }

    // A load of the clock, which stores nothing in the log.
    fn confirm_seat(&self, seat: &mut Seat<(), Log>)
        requires { seat.old.table_id ≡ self.now.table }
        ensures same { (seat.new.table_id ≡ seat.old.table_id) × (seat.new.id ≡ seat.old.id)
            × (seat.new.me ≡ seat.old.me) }
        ensures allowance { length seat.old.me.0.past + seat.old.me.0.budget.allowance
            ≤ ALLOWANCE }
        ensures credit { seat.old.me.0.budget.credit ≤ CREDIT }
        ensures share { seat.old.me.0.lineage.share ≤ WHOLE }
        ensures whole { is_nameless seat.old.me.0.role ≡ false → IsAlone seat.old.me.0.lineage
            → IsWhole seat.old.me.0 }
        ensures heard { IsPrefix seat.old.me.0.receipts.heard seat.old.me.0.past }
    {
        self.table.shared.load::<Confirms>(seat, CLOCK_WORD);
    }

    /// Makes sure of what a caller has: what it has seen, with the updates that it may still make,
    /// is no more than a registry takes; and where all others were joined into it, it has seen each
    /// update that was accepted. It loads the clock once, and nothing changes.
    pub fn confirm(&self, me: &mut Caller)
        requires table { me.old.table ≡ self.now.table }
        ensures same { me.new ≡ me.old }
        ensures room { length me.new.log.past + me.new.log.budget.allowance ≤ ALLOWANCE }
        ensures whole { IsAlone me.new.log.lineage → IsWhole me.new.log }
    {
        let seat = &mut me.seat;
        self.confirm_seat(seat);
    }

    /// Joins another caller into this one: its update calls, what it has seen, and its receipts.
    /// What either had seen begins what is seen afterwards. It comes back where there is no memory.
    pub fn join(&self, me: &mut Caller, other: Caller) -> Result<(), Caller>
        requires table { me.old.table ≡ self.now.table }
        requires other { other.table ≡ self.now.table }
        requires idle { (other.log.loader ≡ None) × (other.log.holdings.held ≡ [])
            × (other.log.holdings.out ≡ []) }
        ensures ok { OnOk result (me.new
            ≡ record {
              table = me.old.table;
              left = me.old.left + other.left;
              log = after_join me.old.log other.log;
            }) }
        ensures whole { OnOk result (IsAlone me.new.log.lineage → IsWhole me.new.log) }
        ensures begins { OnOk result (IsPrefix me.old.log.past me.new.log.past
            × IsPrefix other.log.past me.new.log.past) }
        ensures err { IfErr result (λ kept. (kept ≡ other) × (me.new ≡ me.old)) }
    {
        let Caller {
            seat,
            left,
            spare,
            seen,
            share,
        } = other;
        self.table.shared.join_seat::<Joins>(&mut me.seat, seat);
        self.confirm_seat(&mut me.seat);
        me.left += left;
        me.spare += spare;
        me.seen = me.seen.max(seen);
        me.share.join(share);
        Ok(())
    }

    /// Learns what the maker of a note had seen, which begins what is seen afterwards, as does what
    /// was seen before. The note comes back where there is no memory.
    pub fn learn(&self, me: &mut Caller, note: Note) -> Result<(), Note>
        requires table { me.old.table ≡ self.now.table }
        requires note { note.table ≡ self.now.table }
        ensures ok { OnOk result (me.new
            ≡ record me.old { log = after_learn me.old.log note.log }) }
        ensures begins { OnOk result (IsPrefix me.old.log.past me.new.log.past
            × IsPrefix note.log.past me.new.log.past) }
        ensures err { IfErr result (λ kept. (kept ≡ note) × (me.new ≡ me.old)) }
    {
        let Note {
            seat,
            seen: noted,
            share: given,
        } = note;
        let mine = &mut me.seat;
        self.table.shared.join_seat::<Learns>(mine, seat);
        self.confirm_seat(mine);
        me.seen = me.seen.max(noted);
        me.share.join(given);
        Ok(())
    }
}
