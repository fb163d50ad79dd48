//! Tries of updates. Each takes locks by one step or not at all, and wakes nobody.
//!
//! A call that was busy is still begun, and whatever update is tried next goes on with it. Where it
//! has used up its releases, one that is left takes its place.

ghost use Rattle.std.specs.Prelude.{◌≡◌, MatchBool};
ghost use Rattle.registry_client.specs.Tries.{Begins, IsSpent, is_lost, is_provided};
ghost use Rattle.registry_client.specs.Updates.{Deregisters, Loads, Registers, Replaces, Unloads};

use crate::attempt::Attempt;
use crate::client::Client;
use crate::member::RegistryMember;
use frame_cache::laws::caches_go_on_to_fit;
use node_store::{Busy, Once};
use reg_model::{Inserted, Loading, Removed, Replaced};

/// Whether a try that gave up lost a node.
fn is_lost(why: Busy) -> bool
    ensures { result ≡ is_lost why }
{
    match why {
        Busy::Taken { .. } => false,
        Busy::Raced => false,
        Busy::Lost => true,
    }
}

impl Client {
    /// Whether a call is begun, and the releases that it may make are to spare.
    fn is_provided(&self) -> bool
        ensures { result ≡ is_provided self.now }
    {
        self.begun && self.me.may_try()
    }

    /// Begins an update call, unless one is begun that has its releases; and says whether it may be
    /// tried. None may be once a node was lost.
    fn begin(&mut self) -> bool
        ensures { MatchBool result (Begins self.old self.new) (IsSpent self.old self.new) }
    {
        if self.lost {
            return false;
        }
        if self.is_provided() {
            return true;
        }
        if !self.me.use_one() {
            return false;
        }
        self.begun = true;
        true
    }

    /// Tries to register a member.
    pub fn register(&mut self, told: &RegistryMember) -> Attempt<Inserted>
        ensures { Registers told.now self.old self.new result }
    {
        caches_go_on_to_fit();
        let member = match told.member(self.payloads) {
            Ok(member) => member,
            Err(why) => return Attempt::NoMember { why },
        };
        if !self.begin() {
            let answer = Inserted::Spent;
            return Attempt::Answered { answer };
        }
        match self.registry.register_by(&Once, &mut self.me, member) {
            Ok(inserted) => {
                self.begun = false;
                Attempt::Answered { answer: inserted }
            }
            Err(why) => {
                self.lost = is_lost(why);
                Attempt::Busy { why }
            }
        }
    }

    /// Tries to remove the registered member that begins at an address.
    pub fn deregister(&mut self, base: u64) -> Attempt<Removed>
        ensures { Deregisters base self.old self.new result }
    {
        caches_go_on_to_fit();
        if !self.begin() {
            let answer = Removed::Spent;
            return Attempt::Answered { answer };
        }
        match self.registry.deregister_by(&Once, &mut self.me, base) {
            Ok(removed) => {
                self.begun = false;
                Attempt::Answered { answer: removed }
            }
            Err(why) => {
                self.lost = is_lost(why);
                Attempt::Busy { why }
            }
        }
    }

    /// Tries to give the registered member of a span another payload.
    pub fn replace(&mut self, told: &RegistryMember) -> Attempt<Replaced>
        ensures { Replaces told.now self.old self.new result }
    {
        caches_go_on_to_fit();
        let member = match told.member(self.payloads) {
            Ok(member) => member,
            Err(why) => return Attempt::NoMember { why },
        };
        if !self.begin() {
            let answer = Replaced::Spent;
            return Attempt::Answered { answer };
        }
        match self.registry.replace_by(&Once, &mut self.me, member) {
            Ok(replaced) => {
                self.begun = false;
                Attempt::Answered { answer: replaced }
            }
            Err(why) => {
                self.lost = is_lost(why);
                Attempt::Busy { why }
            }
        }
    }

    /// Tries to load a member.
    pub fn load(&mut self, told: &RegistryMember) -> Attempt<Loading>
        ensures { Loads told.now self.old self.new result }
    {
        caches_go_on_to_fit();
        let member = match told.member(self.payloads) {
            Ok(member) => member,
            Err(why) => return Attempt::NoMember { why },
        };
        if !self.begin() {
            let answer = Loading::Spent;
            return Attempt::Answered { answer };
        }
        match self.registry.load_by(&Once, &mut self.me, member) {
            Ok(loading) => {
                self.begun = false;
                Attempt::Answered { answer: loading }
            }
            Err(why) => Attempt::Busy { why },
        }
    }

    /// Tries to unload the loaded member that begins at an address.
    pub fn unload(&mut self, base: u64) -> Attempt<Removed>
        ensures { Unloads base self.old self.new result }
    {
        caches_go_on_to_fit();
        if !self.begin() {
            let answer = Removed::Spent;
            return Attempt::Answered { answer };
        }
        match self.registry.unload_by(&Once, &mut self.me, base) {
            Ok(unloaded) => {
                self.begun = false;
                Attempt::Answered { answer: unloaded }
            }
            Err(why) => Attempt::Busy { why },
        }
    }
}
