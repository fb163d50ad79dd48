//! The rule of the table, and what each step tells.

use crate::log::Log;
use atomic_table::{Join, Play, Split, TableRule};
use reg_model::Member;
use std::marker::{Brand, PhantomData};
use std::snapshot::Snapshot;

/// With what the words were made, as the code keeps it.
#[derive(Drop)]
pub(crate) struct Made {
    pub(crate) nodes: u32,
    pub(crate) loads: u32,
    pub(crate) payloads: u32,
    pub(crate) fixed: Vec<Member>,
}

/// What holds between any two steps.
pub(crate) struct Law;

impl TableRule<(), Log, Snapshot<Made>> for Law {
    ghost use Rattle.word_rule.specs.Key.{terms_of};
    ghost use Rattle.word_rule.specs.Logs.{first_log};
    ghost use Rattle.word_rule.specs.TableInvariant.{TableInvariant};

    ghost holds = { λ key s. TableInvariant (terms_of key.value) s.words s.views };

    ghost first = { λ key. first_log (terms_of key.value) };
}

pub(crate) struct Looks;

impl Play<(), Log> for Looks {
    ghost use Rattle.word_rule.specs.Plays.{looks};

    ghost then = { looks };
}

pub(crate) struct Locks;

impl Play<(), Log> for Locks {
    ghost use Rattle.word_rule.specs.Plays.{locks};

    ghost then = { locks };
}

pub(crate) struct Grabs;

impl Play<(), Log> for Grabs {
    ghost use Rattle.word_rule.specs.Plays.{grabs};

    ghost then = { grabs };
}

pub(crate) struct Marks;

impl Play<(), Log> for Marks {
    ghost use Rattle.word_rule.specs.Plays.{marks};

    ghost then = { marks };
}

pub(crate) struct Releases;

impl Play<(), Log> for Releases {
    ghost use Rattle.word_rule.specs.Plays.{releases};

    ghost then = { releases };
}

pub(crate) struct ReleasesSame;

impl Play<(), Log> for ReleasesSame {
    ghost use Rattle.word_rule.specs.Plays.{releases_same};

    ghost then = { releases_same };
}

pub(crate) struct Peeks;

impl Play<(), Log> for Peeks {
    ghost use Rattle.word_rule.specs.Plays.{peeks};

    ghost then = { peeks };
}

pub(crate) struct Confirms;

impl Play<(), Log> for Confirms {
    ghost use Rattle.word_rule.specs.Plays.{confirms};

    ghost then = { confirms };
}

pub(crate) struct LoadsCopy;

impl Play<(), Log> for LoadsCopy {
    ghost use Rattle.word_rule.specs.Plays.{loads_copy};

    ghost then = { loads_copy };
}

/// What a load of the clock is asked, and with what its words were made.
pub(crate) trait Asking {
    ghost use Rattle.word_rule.specs.declared.log.Ask.{Ask};
    ghost use Rattle.word_rule.specs.declared.log.Terms.{Terms};

    ghost ask: { Ask };

    ghost terms: { Terms };
}

impl Asking for Brand {
    ghost use Rattle.std.specs.Prelude.{[]};
    ghost use Rattle.word_rule.specs.declared.log.Ask.TheVariants as ask;

    ghost ask = { ask.Nothing };

    ghost terms = { record { nodes = 0; loads = 0; payloads = 0; fixed = [] } };
}

pub(crate) struct LoadsClock<A> {
    asking: PhantomData<A>,
}

impl<A: Asking> Play<(), Log> for LoadsClock<A> {
    ghost use Rattle.word_rule.specs.Plays.{loads_clock};

    ghost then = { loads_clock A.terms A.ask };
}

/// Of which node a step is, at which of its words, what it is asked, and with what its words were
/// made.
pub(crate) trait AtNode {
    ghost use Rattle.std.specs.Prelude.{ℕ};
    ghost use Rattle.word_rule.specs.declared.log.Ask.{Ask};
    ghost use Rattle.word_rule.specs.declared.log.Terms.{Terms};

    ghost node: { ℕ };

    ghost at: { ℕ };

    ghost ask: { Ask };

    ghost terms: { Terms };
}

impl AtNode for Brand {
    ghost use Rattle.std.specs.Prelude.{[]};
    ghost use Rattle.word_rule.specs.declared.log.Ask.TheVariants as ask;

    ghost node = { 0 };

    ghost at = { 0 };

    ghost ask = { ask.Nothing };

    ghost terms = { record { nodes = 0; loads = 0; payloads = 0; fixed = [] } };
}

pub(crate) struct LoadsVersion<N> {
    node: PhantomData<N>,
}

impl<N: AtNode> Play<(), Log> for LoadsVersion<N> {
    ghost use Rattle.word_rule.specs.Plays.{loads_version};

    ghost then = { loads_version N.terms N.ask N.node };
}

pub(crate) struct BeginsSight<N> {
    node: PhantomData<N>,
}

impl<N: AtNode> Play<(), Log> for BeginsSight<N> {
    ghost use Rattle.word_rule.specs.Plays.{begins_sight};

    ghost then = { begins_sight N.node };
}

pub(crate) struct PeeksNode<N> {
    node: PhantomData<N>,
}

impl<N: AtNode> Play<(), Log> for PeeksNode<N> {
    ghost use Rattle.word_rule.specs.Plays.{peeks_node};

    ghost then = { peeks_node N.node };
}

pub(crate) struct LoadsNode<N> {
    node: PhantomData<N>,
}

impl<N: AtNode> Play<(), Log> for LoadsNode<N> {
    ghost use Rattle.word_rule.specs.Plays.{loads_node};

    ghost then = { loads_node N.node N.at };
}

pub(crate) struct LocksNode<N> {
    node: PhantomData<N>,
}

impl<N: AtNode> Play<(), Log> for LocksNode<N> {
    ghost use Rattle.word_rule.specs.Plays.{locks_node};

    ghost then = { locks_node N.node };
}

pub(crate) struct LocksSeen<N> {
    node: PhantomData<N>,
}

impl<N: AtNode> Play<(), Log> for LocksSeen<N> {
    ghost use Rattle.word_rule.specs.Plays.{locks_seen};

    ghost then = { locks_seen N.node };
}

pub(crate) struct GrabsNode<N> {
    node: PhantomData<N>,
}

impl<N: AtNode> Play<(), Log> for GrabsNode<N> {
    ghost use Rattle.word_rule.specs.Plays.{grabs_node};

    ghost then = { grabs_node N.node };
}

pub(crate) struct ReleasesSameNode<N> {
    node: PhantomData<N>,
}

impl<N: AtNode> Play<(), Log> for ReleasesSameNode<N> {
    ghost use Rattle.word_rule.specs.Plays.{releases_same_node};

    ghost then = { releases_same_node N.node };
}

pub(crate) struct ReleasesNode<N> {
    node: PhantomData<N>,
}

impl<N: AtNode> Play<(), Log> for ReleasesNode<N> {
    ghost use Rattle.word_rule.specs.Plays.{releases_node};

    ghost then = { releases_node N.node };
}

pub(crate) struct StoresNode<N> {
    node: PhantomData<N>,
}

impl<N: AtNode> Play<(), Log> for StoresNode<N> {
    ghost use Rattle.word_rule.specs.Plays.{stores_node};

    ghost then = { stores_node N.node N.at };
}

pub(crate) struct LoadsHead<A> {
    asking: PhantomData<A>,
}

impl<A: Asking> Play<(), Log> for LoadsHead<A> {
    ghost use Rattle.word_rule.specs.Plays.{loads_head};

    ghost then = { loads_head A.terms };
}

pub(crate) struct Pops;

impl Play<(), Log> for Pops {
    ghost use Rattle.word_rule.specs.Plays.{pops};

    ghost then = { pops };
}

pub(crate) struct Pushes;

impl Play<(), Log> for Pushes {
    ghost use Rattle.word_rule.specs.Plays.{pushes};

    ghost then = { pushes };
}

pub(crate) struct StoresCopy;

impl Play<(), Log> for StoresCopy {
    ghost use Rattle.word_rule.specs.Plays.{stores_copy};

    ghost then = { stores_copy };
}

/// Which update is published, or committed.
pub(crate) trait Updating {
    ghost use Rattle.reg_model.specs.declared.answer.Update.{Update};

    ghost update: { Update };
}

impl Updating for Brand {
    ghost use Rattle.reg_model.specs.declared.answer.Update.TheVariants as update;

    ghost update = { update.Unload 0 };
}

pub(crate) struct Publishes<U> {
    updating: PhantomData<U>,
}

impl<U: Updating> Play<(), Log> for Publishes<U> {
    ghost use Rattle.word_rule.specs.Plays.{publishes};

    ghost then = { publishes U.update };
}

pub(crate) struct Commits<U> {
    updating: PhantomData<U>,
}

impl<U: Updating> Play<(), Log> for Commits<U> {
    ghost use Rattle.word_rule.specs.Plays.{commits};

    ghost then = { commits U.update };
}

/// How much a split gives away, which only the call knows: of so many update calls, these.
pub(crate) trait Giving {
    ghost use Rattle.std.specs.Prelude.{ℕ};

    ghost left: { ℕ };

    ghost give: { ℕ };
}

impl Giving for Brand {
    ghost left = { 0 };

    ghost give = { 0 };
}

pub(crate) struct Splits<G> {
    given: PhantomData<G>,
}

impl<G: Giving> Split<Log> for Splits<G> {
    ghost use Rattle.word_rule.specs.Logs.{after_split, split_off};

    ghost left = { after_split G.left G.give };

    ghost right = { split_off G.left G.give };
}

pub(crate) struct Notes;

impl Split<Log> for Notes {
    ghost use Rattle.word_rule.specs.Logs.{after_note, note_of};

    ghost left = { after_note };

    ghost right = { note_of };
}

pub(crate) struct Joins;

impl Join<Log> for Joins {
    ghost use Rattle.word_rule.specs.Logs.{after_join, spent_log};

    ghost both = { after_join };

    ghost spent = { spent_log };
}

pub(crate) struct Learns;

impl Join<Log> for Learns {
    ghost use Rattle.word_rule.specs.Logs.{after_learn, spent_log};

    ghost both = { after_learn };

    ghost spent = { spent_log };
}

pub(crate) struct Reads;

impl Split<Log> for Reads {
    ghost use Rattle.word_rule.specs.Logs.{reader_of};

    ghost left = { λ v. v };

    ghost right = { reader_of };
}

pub(crate) struct Enters;

impl Play<(), Log> for Enters {
    ghost use Rattle.word_rule.specs.Plays.{enters};

    ghost then = { enters };
}
