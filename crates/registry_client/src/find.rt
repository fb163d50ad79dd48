//! Lookups: each is one try, takes no lock, counts no share, and stores nothing that is shared.

ghost use Rattle.std.specs.Prelude.{◌≡◌, Ok};
ghost use Rattle.registry_client.specs.Finds.{AsksLoaded, AsksLoadedBy, AsksRegistered};
ghost use Rattle.registry_client.specs.Finds.{AsksRegisteredBy, FindsOnce};
ghost use Rattle.registry_client.specs.Finds.{found_told, loaded_told, place_told};

use crate::client::Client;
use crate::kinds::{AGAIN, HIT, MISS};
use crate::member::RegistryMember;
use c_handle::{FIND_AGAIN, LOADED, NOWHERE, REGISTERED};
use frame_cache::laws::caches_go_on_to_fit;
use reg_model::{Again, Found, Place};

/// What one half answered: a kind, its stamp, and the member that was found.
#[repr(C)]
#[derive(Clone, Copy, Debug, PartialEq, Eq)]
pub struct RegistryFound {
    pub kind: u32,
    pub stamp: u32,
    pub member: RegistryMember,
}

/// What both halves answered: a kind, the stamp of each half, and the member that was found.
#[repr(C)]
#[derive(Clone, Copy, Debug, PartialEq, Eq)]
pub struct RegistryPlace {
    pub kind: u32,
    pub registered: u32,
    pub loaded: u32,
    pub member: RegistryMember,
}

/// By what a half is asked: by its shared tables alone, or first by the client's last hits.
#[derive(Clone, Copy, Debug, PartialEq, Eq)]
pub enum LookupBy {
    Tables,
    Caches,
}

impl RegistryFound {
    pub fn of(answer: Result<Found, Again>) -> RegistryFound
        ensures { result ≡ found_told answer }
    {
        match answer {
            Ok(Found::Miss { stamp }) => RegistryFound {
                kind: MISS,
                stamp,
                member: RegistryMember::none(),
            },
            Ok(Found::Hit { member, stamp }) => RegistryFound {
                kind: HIT,
                stamp,
                member: RegistryMember::of(&member),
            },
            Err(_) => RegistryFound {
                kind: AGAIN,
                stamp: 0,
                member: RegistryMember::none(),
            },
        }
    }
}

impl RegistryPlace {
    /// The loader's answer, where the registered half had a miss.
    fn loaded(registered: u32, loaded: Option<Found>) -> RegistryPlace
        ensures { result ≡ loaded_told registered loaded }
    {
        match loaded {
            None => RegistryPlace {
                kind: NOWHERE,
                registered,
                loaded: 0,
                member: RegistryMember::none(),
            },
            Some(Found::Miss { stamp }) => RegistryPlace {
                kind: NOWHERE,
                registered,
                loaded: stamp,
                member: RegistryMember::none(),
            },
            Some(Found::Hit { member, stamp }) => RegistryPlace {
                kind: LOADED,
                registered,
                loaded: stamp,
                member: RegistryMember::of(&member),
            },
        }
    }

    pub fn of(answer: Result<Place, Again>) -> RegistryPlace
        ensures { result ≡ place_told answer }
    {
        let Ok(place) = answer else {
            return RegistryPlace {
                kind: FIND_AGAIN,
                registered: 0,
                loaded: 0,
                member: RegistryMember::none(),
            };
        };
        match place.registered {
            Found::Miss { stamp } => RegistryPlace::loaded(stamp, place.loaded),
            Found::Hit { member, stamp } => RegistryPlace {
                kind: REGISTERED,
                registered: stamp,
                loaded: 0,
                member: RegistryMember::of(&member),
            },
        }
    }
}

impl Client {
    /// Asks the registered half once.
    pub fn try_registered(&mut self, pc: u64) -> Result<Found, Again>
        ensures { AsksRegistered pc self.old self.new result }
    {
        caches_go_on_to_fit();
        self.registry.try_registered(&mut self.me, pc)
    }

    /// Asks the loader's half once.
    pub fn try_loaded(&mut self, pc: u64) -> Result<Found, Again>
        ensures { AsksLoaded pc self.old self.new result }
    {
        caches_go_on_to_fit();
        self.registry.try_loaded(&mut self.me, pc)
    }

    fn registered_by(&mut self, how: LookupBy, pc: u64) -> Result<Found, Again>
        ensures { AsksRegisteredBy how pc self.old self.new result }
    {
        caches_go_on_to_fit();
        match how {
            LookupBy::Tables => self.try_registered(pc),
            LookupBy::Caches => self.registered.try_cached(&self.registry, &mut self.me, pc),
        }
    }

    fn loaded_by(&mut self, how: LookupBy, pc: u64) -> Result<Found, Again>
        ensures { AsksLoadedBy how pc self.old self.new result }
    {
        caches_go_on_to_fit();
        match how {
            LookupBy::Tables => self.try_loaded(pc),
            LookupBy::Caches => self.loaded.try_cached(&self.registry, &mut self.me, pc),
        }
    }

    /// Asks the registered half once, and where that misses the loader's.
    pub fn find(&mut self, how: LookupBy, pc: u64) -> Result<Place, Again>
        ensures { FindsOnce how pc self.old self.new result }
    {
        let registered = self.registered_by(how, pc)?;
        match registered {
            Found::Hit { .. } => Ok(Place {
                registered,
                loaded: None,
            }),
            Found::Miss { .. } => match self.loaded_by(how, pc) {
                Ok(loaded) => Ok(Place {
                    registered,
                    loaded: Some(loaded),
                }),
                Err(again) => Err(again),
            },
        }
    }
}
