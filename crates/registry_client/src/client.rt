//! What the handle of a client leads to: the registry that all clients share, and a caller.

ghost use Rattle.std.specs.Prelude.{◌≡◌, ◌↔◌, IfOk, MatchResult, Ok, Err, length, true};
ghost use Rattle.std.specs.Arc.{arc_value};
ghost use Rattle.word_rule.specs.Callers.{IsAlone};
ghost use Rattle.registry_client.specs.Clients.{IsClient, fresh_client};
ghost use Rattle.registry_client.specs.Limits.{IsNew};
ghost use Rattle.registry_core.specs.Rounds.{IsWholeWhereAlone};

use crate::limits::{LimitFault, RegistryLimits, fixed_members};
use crate::member::RegistryMember;
use c_handle::check_size;
use frame_cache::FrameCache;
use reg_model::Half;
use registry_core::Registry;
use std::alloc::{AllocError, Global};
use std::marker::Model;
use std::sync::Arc;
use word_rule::Caller;

/// A client: one thread at a time calls by it.
#[derive(Drop)]
pub struct Client {
    pub(crate) registry: Arc<Registry, Global>,
    pub(crate) me: Caller,
    /// Its last hits among what is registered.
    pub(crate) registered: FrameCache,
    /// And among what is loaded.
    pub(crate) loaded: FrameCache,
    /// Whether an update call is begun, and not answered yet.
    pub(crate) begun: bool,
    /// Whether a node couldn't be put back: it makes no more updates then.
    pub(crate) lost: bool,
    /// Those that there are.
    pub(crate) payloads: u32,
    /// The name of its registry.
    pub(crate) name: u64,
}

impl Model for Client {
    ghost use Rattle.std.specs.Prelude.{◌≡◌};
    ghost use Rattle.std.specs.Arc.{arc_value};
    ghost use Rattle.registry_client.specs.Clients.{ClientData, IsClient, client_data};

    ghost Value = { ClientData };

    ghost view = { λ c.
        client_data (arc_value c.registry) c.me c.registered c.loaded c.begun c.lost c.name };

    ghost invariant = { λ c. IsClient
        (client_data (arc_value c.registry) c.me c.registered c.loaded c.begun c.lost c.name)
        × (c.payloads ≡ (arc_value c.registry).terms.payloads) };
}

impl Client {
    /// The first client of a new registry.
    pub fn new(
        alloc: Global,
        limits: &RegistryLimits,
        fixed: &[RegistryMember],
    ) -> Result<Box<Client, Global>, LimitFault>
        ensures { MatchResult result (λ client. IsNew limits.now fixed.now (Ok client.value))
            (λ fault. IsNew limits.now fixed.now (Err fault)) }
    {
        match check_size(limits.nodes, limits.loads) {
            Ok(()) => {}
            Err(fault) => return Err(LimitFault::Size(fault)),
        }
        let members = fixed_members(alloc, limits.payloads, fixed)?;
        let made = Registry::new(alloc, limits.nodes, limits.loads, limits.payloads, members);
        let Ok((registry, me)) = made else {
            return Err(LimitFault::NoMemory);
        };
        let Ok(registry) = Arc::new(alloc, registry) else {
            return Err(LimitFault::NoMemory);
        };
        match Client::fresh(alloc, registry, me, limits.payloads, limits.name) {
            Ok(client) => Ok(client),
            Err(_) => Err(LimitFault::NoMemory),
        }
    }

    /// A client that has called nothing yet, with empty caches.
    pub fn fresh(
        alloc: Global,
        registry: Arc<Registry, Global>,
        me: Caller,
        payloads: u32,
        name: u64,
    ) -> Result<Box<Client, Global>, AllocError>
        requires idle { IsClient (fresh_client (arc_value registry) me name) }
        requires payloads { payloads ≡ (arc_value registry).terms.payloads }
        ensures { IfOk result
            (λ client. client.value ≡ fresh_client (arc_value registry) me name) }
    {
        let client = Client {
            registry,
            me,
            registered: FrameCache::new(Half::Registered),
            loaded: FrameCache::new(Half::Loaded),
            begun: false,
            lost: false,
            payloads,
            name,
        };
        match Box::new(alloc, client) {
            Ok(client) => Ok(client),
            Err(_) => Err(AllocError),
        }
    }

    /// Makes sure of what it has seen: all updates, where every other client was joined into it.
    pub fn confirm(&mut self)
        ensures same { self.new ≡ self.old }
        ensures whole { IsWholeWhereAlone self.new.me.log }
    {
        self.registry.words().confirm(&mut self.me);
    }

    /// How many update calls it may still begin.
    pub fn left(&self) -> u32
        ensures { result ≡ self.now.me.left }
    {
        self.me.left()
    }

    /// How many updates it has seen.
    pub fn seen(&self) -> u32
        ensures { result ≡ length self.now.me.log.past }
    {
        self.me.seen()
    }

    /// Whether the registries of both have one name.
    pub fn has_name_of(&self, other: &Client) -> bool
        ensures { (result ≡ true) ↔ (other.now.name ≡ self.now.name) }
    {
        other.name == self.name
    }

    /// Whether every other client was joined into it.
    pub fn alone(&self) -> bool
        ensures { (result ≡ true) ↔ IsAlone self.now.me.log.lineage }
    {
        self.me.alone()
    }
}
