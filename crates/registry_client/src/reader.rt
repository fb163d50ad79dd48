//! What the handle of a reader leads to: the registry that it shares with the clients, and one that
//! only looks up. No client waits for it.

ghost use Rattle.std.specs.Prelude.{◌≡◌, IfOk, length};
ghost use Rattle.std.specs.Arc.{arc_value};
ghost use Rattle.registry_client.specs.Readers.{ReaderAsksLoaded, ReaderAsksRegistered};
ghost use Rattle.registry_client.specs.Readers.{ReaderFinds};
ghost use Rattle.registry_client.specs.Readers.{reader_beside, reader_data};

use crate::client::Client;
use reg_model::{Again, Found, NoMemory, Place};
use registry_core::Registry;
use std::alloc::Global;
use std::marker::Model;
use std::sync::Arc;
use word_rule::Reader;

/// A reader of a registry: one thread at a time looks up by it.
#[derive(Drop)]
pub struct RegistryReader {
    registry: Arc<Registry, Global>,
    me: Reader,
}

impl Model for RegistryReader {
    ghost use Rattle.std.specs.Prelude.{◌≡◌};
    ghost use Rattle.std.specs.Arc.{arc_value};
    ghost use Rattle.registry_client.specs.Readers.{ReaderData, reader_data};

    ghost Value = { ReaderData };

    ghost view = { λ r. reader_data (arc_value r.registry) r.me };

    ghost invariant = { λ r. r.me.table ≡ (arc_value r.registry).table };
}

impl Client {
    /// A reader that has seen what the client has.
    pub fn reader(&mut self, alloc: Global) -> Result<Box<RegistryReader, Global>, NoMemory>
        ensures same { self.new ≡ self.old }
        ensures reader { IfOk result (λ r. r.value ≡ reader_beside self.old.words self.old.me) }
    {
        RegistryReader::boxed(alloc, &self.registry, self.registry.reader_of(&mut self.me))
    }
}

impl RegistryReader {
    /// Another reader, which has seen what this one has.
    pub fn another(&mut self, alloc: Global) -> Result<Box<RegistryReader, Global>, NoMemory>
        ensures same { self.new ≡ self.old }
        ensures reader { IfOk result (λ r. r.value ≡ reader_beside self.old.words self.old.me) }
    {
        RegistryReader::boxed(
            alloc,
            &self.registry,
            self.registry.another_reader(&mut self.me),
        )
    }

    /// A reader of the registry, in a box of its own.
    fn boxed(
        alloc: Global,
        registry: &Arc<Registry, Global>,
        me: Reader,
    ) -> Result<Box<RegistryReader, Global>, NoMemory>
        requires { me.table ≡ (arc_value registry.now).table }
        ensures { IfOk result (λ r. r.value ≡ reader_data (arc_value registry.now) me) }
    {
        let Ok(registry) = Arc::try_clone(registry) else {
            return Err(NoMemory);
        };
        match Box::new(alloc, RegistryReader { registry, me }) {
            Ok(reader) => Ok(reader),
            Err(_) => Err(NoMemory),
        }
    }

    /// How many updates it has seen.
    pub fn seen(&self) -> u32
        ensures { result ≡ length self.now.me.log.past }
    {
        self.me.seen()
    }

    /// Asks the registered half once.
    pub fn try_registered(&mut self, pc: u64) -> Result<Found, Again>
        ensures { ReaderAsksRegistered pc self.old self.new result }
    {
        self.registry.try_registered(&mut self.me, pc)
    }

    /// Asks the loader's half once.
    pub fn try_loaded(&mut self, pc: u64) -> Result<Found, Again>
        ensures { ReaderAsksLoaded pc self.old self.new result }
    {
        self.registry.try_loaded(&mut self.me, pc)
    }

    /// Asks the registered half once, and where that misses the loader's.
    pub fn find(&mut self, pc: u64) -> Result<Place, Again>
        ensures { ReaderFinds pc self.old self.new result }
    {
        let registered = self.try_registered(pc)?;
        match registered {
            Found::Hit { .. } => Ok(Place {
                registered,
                loaded: None,
            }),
            Found::Miss { .. } => match self.try_loaded(pc) {
                Ok(loaded) => Ok(Place {
                    registered,
                    loaded: Some(loaded),
                }),
                Err(again) => Err(again),
            },
        }
    }
}
