//! Clients are split off and joined.

ghost use Rattle.std.specs.Prelude.{◌≡◌, MatchResult, IfErr, IfSome, OnErr, OnOk, Ok, Err};
ghost use Rattle.registry_client.specs.Splits.{JoinsClient, SplitsOff, join_told};

use crate::client::Client;
use frame_cache::laws::caches_go_on_to_fit;
use std::alloc::Global;
use std::sync::Arc;

/// Why no client is split off.
#[derive(Clone, Copy, Debug, PartialEq, Eq)]
pub enum SplitFault {
    NoMemory,
    Few,
}

/// What came of a join.
#[derive(Clone, Copy, Debug, PartialEq, Eq)]
pub enum JoinAnswer {
    Joined,
    NoMemoryToJoin,
    OtherRegistry,
}

impl JoinAnswer {
    /// As C is told it.
    pub fn told(self) -> u64
        ensures { result ≡ join_told self }
    {
        match self {
            JoinAnswer::Joined => 0,
            JoinAnswer::NoMemoryToJoin => 1,
            JoinAnswer::OtherRegistry => 2,
        }
    }
}

impl Client {
    /// Splits off a client with so many of the update calls.
    pub fn split(&mut self, alloc: Global, give: u32) -> Result<Box<Client, Global>, SplitFault>
        ensures { MatchResult result (λ other. SplitsOff give self.old self.new (Ok other.value))
            (λ fault. SplitsOff give self.old self.new (Err fault)) }
    {
        caches_go_on_to_fit();
        if give > self.me.left() {
            return Err(SplitFault::Few);
        }
        let Ok(registry) = Arc::try_clone(&self.registry) else {
            return Err(SplitFault::NoMemory);
        };
        let Ok(me) = self.registry.words().split(&mut self.me, give) else {
            return Err(SplitFault::NoMemory);
        };
        match Client::fresh(alloc, registry, me, self.payloads, self.name) {
            Ok(other) => Ok(other),
            Err(_) => Err(SplitFault::NoMemory),
        }
    }

    /// Joins another client of the same registry into this one. Where there is no memory it comes
    /// back, or is gone; it comes back where it has lost a node.
    pub fn join(
        &mut self,
        alloc: Global,
        other: Box<Client, Global>,
    ) -> Result<(), Option<Box<Client, Global>>>
        requires same { other.value.words.table ≡ self.old.words.table }
        ensures joined { OnOk result (JoinsClient other.value self.old self.new) }
        ensures same { OnErr result (self.new ≡ self.old) }
        ensures back { IfErr result (λ back. IfSome back (λ b. b.value ≡ other.value)) }
    {
        caches_go_on_to_fit();
        if other.lost {
            return Err(Some(other));
        }
        let Client {
            registry,
            me,
            registered,
            loaded,
            begun,
            payloads,
            name,
            ..
        } = Box::into_inner(other);
        let Err(me) = self.registry.words().join(&mut self.me, me) else {
            self.begun = self.begun || begun;
            return Ok(());
        };
        let other = Client {
            registry,
            me,
            registered,
            loaded,
            begun,
            lost: false,
            payloads,
            name,
        };
        Err(Box::new(alloc, other).ok())
    }
}
