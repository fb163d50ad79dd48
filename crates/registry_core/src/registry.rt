//! The registry, and its calls.
ghost use Rattle.std.specs.Prelude.{◌≡◌, ◌<◌, ◌≤◌, ◌↔◌, [], length, IfOk, IsOk};
ghost use Rattle.std.specs.List.{AllByRecursion};
ghost use Rattle.array_publish.specs.Lookup.{LooksUp};
ghost use Rattle.array_publish.specs.Update.{LoadsMember, MayLoad, UnloadsMember};
ghost use Rattle.btree_change.specs.Insertion.{Inserts, TriesInsertion};
ghost use Rattle.btree_change.specs.Removal.{Removes, TriesRemoval};
ghost use Rattle.btree_change.specs.Replacement.{MakesReplacement, TriesReplacement};
ghost use Rattle.btree_lookup.specs.Tries.{TriesTree};
ghost use Rattle.reg_model.specs.Chain.{Chain};
ghost use Rattle.reg_model.specs.Receipt.{IsPlace, receipts_of_place};
ghost use Rattle.reg_model.specs.SpanData.{IsSpan};
ghost use Rattle.reg_model.specs.declared.answer.Inserted.TheVariants as inserted;
ghost use Rattle.reg_model.specs.declared.answer.Loading.TheVariants as loading;
ghost use Rattle.reg_model.specs.declared.answer.Receipt.TheVariants as receipt;
ghost use Rattle.reg_model.specs.declared.answer.Removed.TheVariants as removed;
ghost use Rattle.reg_model.specs.declared.answer.Replaced.TheVariants as replaced;
ghost use Rattle.segment_array.specs.Ascending.{AscendFrom};
ghost use Rattle.word_rule.specs.CallerData.{due};
ghost use Rattle.word_rule.specs.Callers.{IsAlone, IsIdle, IsWhole};
ghost use Rattle.word_rule.specs.Logs.{first_log};
ghost use Rattle.word_rule.specs.Places.{ALLOWANCE};
ghost use Rattle.registry_core.specs.Begun.{TriesLoad, TriesLoading, TriesUnload, TriesUpdate};
ghost use Rattle.registry_core.specs.Calls.{EndsCall, MayUpdate, Receives};
ghost use Rattle.registry_core.specs.Queries.{IsKnownPlace, Queries};
ghost use Rattle.registry_core.specs.Rounds.{IsBetweenRounds};

use array_publish::try_object;
use btree_lookup::try_find;
use node_store::{Busy, Locking, Waiting};
use reg_model::{Again, Found, Inserted, Loading, Member, NoMemory, Place, Removed, Replaced};
use std::alloc::Global;
use std::marker::Model;
use std::sync::Wait;
use word_rule::{Caller, Looker, Words};

/// The registry that threads share by `&`. Each has a caller of its own.
#[derive(Drop)]
pub struct Registry {
    pub(crate) words: Words,
}

impl Model for Registry {
    ghost use Rattle.word_rule.specs.CallerData.{WordsData};

    ghost Value = { WordsData };

    ghost view = { λ r. r.words };
}

impl Registry {
    /// An empty registry with so many nodes, so many members that may be loaded at a time, payloads
    /// below a number, and members that are there for good; and its first caller, which has all
    /// update calls.
    pub fn new(
        alloc: Global,
        nodes: u32,
        loads: u32,
        payloads: u32,
        fixed: Vec<Member>,
    ) -> Result<(Registry, Caller), NoMemory>
        requires nodes { (4 ≤ nodes) × (nodes ≤ 16384) }
        requires loads { (1 ≤ loads) × (loads ≤ 1024) }
        requires ascending { AscendFrom 0 fixed.items }
        requires members { AllByRecursion (λ m. IsSpan m.span × (m.payload < payloads))
            fixed.items }
        ensures terms { IfOk result
            (λ made. made.0.terms
            ≡ record { nodes = nodes; loads = loads; payloads = payloads; fixed = fixed.items }) }
        ensures caller { IfOk result
            (λ made. made.1
            ≡ record {
              table = made.0.table;
              left = ALLOWANCE;
              log = first_log made.0.terms;
            }) }
        ensures between { IfOk result (λ made. IsBetweenRounds made.1) }
    {
        let (words, me) = Words::new(alloc, nodes, loads, payloads, fixed)?;
        Ok((Registry { words }, me))
    }

    /// The words, on which callers take single steps.
    pub fn words(&self) -> &Words
        ensures { result.now ≡ self.now }
    {
        &self.words
    }

    /// Registers a member. Spent where the caller may begin no more update calls. It waits for the
    /// locks of nodes.
    pub fn register<R: Wait>(&self, rt: &R, me: &mut Caller, member: Member) -> Inserted
        requires caller { MayUpdate self.now me.old }
        requires payload { member.payload < self.now.terms.payloads }
        ensures answer { Inserts self.now.terms member me.old me.new result }
        ensures call { EndsCall self.now (receipt.Register member result) me.old me.new }
        ensures spent { (result ≡ inserted.Spent) ↔ (me.old.left ≡ 0) }
        ensures idle { IsIdle me.new.log }
    {
        self.register_waiting(&Waiting { rt }, me, member)
    }

    /// Removes the registered member that begins at an address, and names it. Spent where the
    /// caller may begin no more update calls. It waits for the locks of nodes.
    pub fn deregister<R: Wait>(&self, rt: &R, me: &mut Caller, base: u64) -> Removed
        requires caller { MayUpdate self.now me.old }
        ensures answer { Removes self.now.terms base me.old me.new result }
        ensures call { EndsCall self.now (receipt.Deregister base result) me.old me.new }
        ensures spent { (result ≡ removed.Spent) ↔ (me.old.left ≡ 0) }
        ensures idle { IsIdle me.new.log }
    {
        self.deregister_waiting(&Waiting { rt }, me, base)
    }

    /// Gives a member the place of the registered one that has its whole span, whose payload it
    /// names. Spent where the caller may begin no more update calls. It waits for the locks of
    /// nodes.
    pub fn replace<R: Wait>(&self, rt: &R, me: &mut Caller, member: Member) -> Replaced
        requires caller { MayUpdate self.now me.old }
        requires payload { member.payload < self.now.terms.payloads }
        ensures answer { MakesReplacement self.now.terms member me.old me.new result }
        ensures call { EndsCall self.now (receipt.Replace member result) me.old me.new }
        ensures spent { (result ≡ replaced.Spent) ↔ (me.old.left ≡ 0) }
        ensures idle { IsIdle me.new.log }
    {
        self.replace_waiting(&Waiting { rt }, me, member)
    }

    /// Registers a member as `register` does, for an update call that was begun. Spent where the
    /// caller has fewer than 64 releases to spare. Busy where `locking` gives up: the call is still
    /// begun then, and may be tried again by a caller that didn't lose a node.
    pub fn register_by<L: Locking>(
        &self,
        locking: &L,
        me: &mut Caller,
        member: Member,
    ) -> Result<Inserted, Busy>
        requires caller { MayUpdate self.now me.old }
        requires begun { 0 < due me.old }
        requires payload { member.payload < self.now.terms.payloads }
        ensures answer { IfOk result (TriesInsertion self.now.terms member me.old me.new) }
        ensures call { TriesUpdate self.now L.gives_up result me.old me.new }
    {
        if !me.may_try() {
            return Ok(Inserted::Spent);
        }
        btree_change::insert_by(locking, &self.words, me, member)
    }

    /// Removes a registered member as `deregister` does, for an update call that was begun. Spent
    /// where the caller has fewer than 64 releases to spare. Busy where `locking` gives up: the
    /// call is still begun then, and may be tried again by a caller that didn't lose a node.
    pub fn deregister_by<L: Locking>(
        &self,
        locking: &L,
        me: &mut Caller,
        base: u64,
    ) -> Result<Removed, Busy>
        requires caller { MayUpdate self.now me.old }
        requires begun { 0 < due me.old }
        ensures answer { IfOk result (TriesRemoval self.now.terms base me.old me.new) }
        ensures call { TriesUpdate self.now L.gives_up result me.old me.new }
    {
        if !me.may_try() {
            return Ok(Removed::Spent);
        }
        btree_change::remove_by(locking, &self.words, me, base)
    }

    /// Replaces a registered member as `replace` does, for an update call that was begun. Spent
    /// where the caller has fewer than 64 releases to spare. Busy where `locking` gives up: the
    /// call is still begun then, and may be tried again by a caller that didn't lose a node.
    pub fn replace_by<L: Locking>(
        &self,
        locking: &L,
        me: &mut Caller,
        member: Member,
    ) -> Result<Replaced, Busy>
        requires caller { MayUpdate self.now me.old }
        requires begun { 0 < due me.old }
        requires payload { member.payload < self.now.terms.payloads }
        ensures answer { IfOk result (TriesReplacement self.now.terms member me.old me.new) }
        ensures call { TriesUpdate self.now L.gives_up result me.old me.new }
    {
        if !me.may_try() {
            return Ok(Replaced::Spent);
        }
        btree_change::replace_by(locking, &self.words, me, member)
    }

    /// Loads a member. Spent where the caller may begin no more update calls. It waits for the
    /// loader's lock.
    pub fn load<R: Wait>(&self, rt: &R, me: &mut Caller, member: Member) -> Loading
        requires caller { MayLoad self.now me.old }
        requires payload { member.payload < self.now.terms.payloads }
        ensures answer { LoadsMember self.now.terms member me.old me.new result }
        ensures call { EndsCall self.now (receipt.Load member result) me.old me.new }
        ensures spent { (result ≡ loading.Spent) ↔ (me.old.left ≡ 0) }
    {
        array_publish::load(rt, &self.words, me, member)
    }

    /// Loads a member as `load` does, for an update call that was begun. Spent where the caller has
    /// fewer than 64 releases to spare. Busy where the loader's lock was found taken and `locking`
    /// gives up: then the call is still begun, and may be tried again.
    pub fn load_by<L: Locking>(
        &self,
        locking: &L,
        me: &mut Caller,
        member: Member,
    ) -> Result<Loading, Busy>
        requires caller { MayLoad self.now me.old }
        requires begun { 0 < due me.old }
        requires payload { member.payload < self.now.terms.payloads }
        ensures answer { IfOk result (TriesLoad self.now.terms member me.old me.new) }
        ensures call { TriesLoading self.now L.gives_up result me.old me.new }
    {
        if !me.may_try() {
            return Ok(Loading::Spent);
        }
        array_publish::load_by(locking, &self.words, me, member)
    }

    /// Unloads the loaded member that begins at an address, and names it. A fixed member can't be
    /// unloaded. Spent where the caller may begin no more update calls. It waits for the loader's
    /// lock.
    pub fn unload<R: Wait>(&self, rt: &R, me: &mut Caller, base: u64) -> Removed
        requires caller { MayLoad self.now me.old }
        ensures answer { UnloadsMember self.now.terms base me.old me.new result }
        ensures call { EndsCall self.now (receipt.Unload base result) me.old me.new }
        ensures spent { (result ≡ removed.Spent) ↔ (me.old.left ≡ 0) }
    {
        array_publish::unload(rt, &self.words, me, base)
    }

    /// Unloads a loaded member as `unload` does, for an update call that was begun. Spent where the
    /// caller has fewer than 64 releases to spare. Busy where the loader's lock was found taken and
    /// `locking` gives up: then the call is still begun, and may be tried again.
    pub fn unload_by<L: Locking>(
        &self,
        locking: &L,
        me: &mut Caller,
        base: u64,
    ) -> Result<Removed, Busy>
        requires caller { MayLoad self.now me.old }
        requires begun { 0 < due me.old }
        ensures answer { IfOk result (TriesUnload self.now.terms base me.old me.new) }
        ensures call { TriesLoading self.now L.gives_up result me.old me.new }
    {
        if !me.may_try() {
            return Ok(Removed::Spent);
        }
        array_publish::unload_by(locking, &self.words, me, base)
    }

    /// Looks an address up once among the registered members. Again where the tree was changed or
    /// locked on the way. It takes no lock, stores nothing and waits for nobody.
    pub fn try_registered<L: Looker>(&self, me: &mut L, pc: u64) -> Result<Found, Again>
        requires table { (L.known me.old).table ≡ self.now.table }
        ensures tries { TriesTree self.now.terms pc (L.known me.old) (L.known me.new) result }
        ensures terms { IsOk result → (L.known me.old).log.terms ≡ self.now.terms }
        ensures alone { IsAlone (L.known me.old).log.lineage
            → (L.known me.old).log.holdings.held ≡ [] → IsOk result }
    {
        try_find(&self.words, me, pc)
    }

    /// Looks an address up once among the fixed and the loaded members. Again where the loader
    /// published meanwhile. It takes no lock, stores nothing and waits for nobody.
    pub fn try_loaded<L: Looker>(&self, me: &mut L, pc: u64) -> Result<Found, Again>
        requires table { (L.known me.old).table ≡ self.now.table }
        ensures looks { LooksUp self.now.terms pc (L.known me.old) (L.known me.new) result }
        ensures alone { IsAlone (L.known me.old).log.lineage → IsOk result }
    {
        try_object(&self.words, me, pc)
    }

    /// Where an address is found: the registered half is asked first, and the loader's where that
    /// misses. Each half is asked until it is answered. It takes no lock and stores nothing.
    pub fn find<R: Wait, L: Looker>(&self, rt: &R, me: &mut L, pc: u64) -> Place
        requires table { (L.known me.old).table ≡ self.now.table }
        ensures queries { Queries self.now.terms (receipts_of_place pc result) (L.known me.old)
            (L.known me.new) }
        ensures halves { IsPlace result }
        ensures known { IsKnownPlace self.now.terms result }
        ensures terms { (L.known me.old).log.terms ≡ self.now.terms }
        ensures calls { Chain Receives (L.known me.old) (receipts_of_place pc result)
            (L.known me.new) }
    {
        self.find_waiting(rt, &Waiting { rt }, me, pc)
    }

    /// Takes the registry apart, by a caller that is alone, and answers how many updates were
    /// accepted. They are a history, and the caller's log has each of its numbers once.
    pub fn close(self, me: Caller) -> u32
        requires table { me.table ≡ self.table }
        requires alone { IsAlone me.log.lineage }
        requires idle { IsIdle me.log }
        ensures number { result ≡ length me.log.past }
        ensures whole { IsWhole me.log }
    {
        self.words.close(me)
    }
}
