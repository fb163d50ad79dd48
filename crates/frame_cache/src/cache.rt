//! The cache of one half.
ghost use Rattle.std.specs.Prelude.{◌≡◌, ◌<◌, ◌≤◌, [], length, slice_get, Some, IfOk, IsOk};
ghost use Rattle.word_rule.specs.Callers.{IsAlone};
ghost use Rattle.frame_cache.specs.CacheData.{HaveOwnSpans};
ghost use Rattle.frame_cache.specs.Cached.{CachedTry, FitsCaller, IsAnswerOf, OnlyLooks, TriesHalf};

use crate::recent::Recent;
use reg_model::laws::{histories_are_lawful, one_member_contains};
use reg_model::{Again, Found, Half, Member};
use registry_core::Registry;
use std::marker::Model;
use word_rule::places::updates_at;
use word_rule::{Ask, Caller};

/// The last hits of one caller in one half, eight at most, the most recently used one first.
#[derive(Drop)]
pub struct FrameCache {
    half: Half,
    recent: Recent,
}

impl Model for FrameCache {
    ghost use Rattle.frame_cache.specs.CacheData.{CacheData, HaveOwnSpans};
    ghost use Rattle.frame_cache.specs.Recent.{cache_of, cached_entries};

    ghost Value = { CacheData };

    ghost view = { λ c. cache_of c.half c.recent };

    ghost invariant = { λ c. HaveOwnSpans (cached_entries c.recent) };
}

/// One try of a half.
fn try_half(half: Half, registry: &Registry, me: &mut Caller, pc: u64) -> Result<Found, Again>
    requires table { me.old.table ≡ registry.now.table }
    ensures tries { TriesHalf half registry.now.terms pc me.old me.new result }
    ensures alone { IsAlone me.old.log.lineage → me.old.log.holdings.held ≡ [] → IsOk result }
    ensures rest { OnlyLooks me.old me.new }
{
    match half {
        Half::Registered => registry.try_registered(me, pc),
        Half::Loaded => registry.try_loaded(me, pc),
    }
}

impl FrameCache {
    /// A cache of a half, without entries. It fits every caller.
    pub fn new(half: Half) -> FrameCache
        ensures { result ≡ record { half = half; stamp = 0; entries = [] } }
    {
        FrameCache {
            half,
            recent: Recent::new(),
        }
    }

    /// How many entries it has.
    pub fn entries(&self) -> u32
        ensures count { result ≡ length self.now.entries }
        ensures few { result ≤ 8 }
        ensures own { HaveOwnSpans self.now.entries }
    {
        self.recent.count()
    }

    /// An entry: 0 is the one that was used last.
    pub fn entry(&self, index: u32) -> Member
        requires { index < length self.now.entries }
        ensures { slice_get self.now.entries index ≡ Some result }
    {
        self.recent.get(index).member()
    }

    /// After so many updates all entries were right.
    pub fn stamp(&self) -> u32
        ensures { result ≡ self.now.stamp }
    {
        self.recent.stamp()
    }

    /// Looks an address up once, first among the entries. Each answer is right at its stamp, and
    /// not below what the caller had seen. Again as a try of the registry says it, which is made
    /// where no entry contains the address. It takes no lock, stores nothing in the registry and
    /// waits for nobody.
    pub fn try_cached(
        &mut self,
        registry: &Registry,
        me: &mut Caller,
        pc: u64,
    ) -> Result<Found, Again>
        requires table { me.old.table ≡ registry.now.table }
        requires fits { FitsCaller self.old me.old.log }
        ensures steps { CachedTry registry.now.terms pc self.old self.new me.old me.new result }
        ensures fits { FitsCaller self.new me.new.log }
        ensures answers { IfOk result
            (IsAnswerOf registry.now.terms self.old.half pc me.old me.new) }
        ensures alone { IsAlone me.old.log.lineage → me.old.log.holdings.held ≡ [] → IsOk result }
        ensures terms { me.old.log.terms ≡ registry.now.terms }
        ensures rest { OnlyLooks me.old me.new }
    {
        // Laws, which take no step.
        histories_are_lawful();
        one_member_contains();
        let clock = registry.words().load_clock(me, Ask::Nothing);
        self.recent.keep(updates_at(clock));
        if let Some(place) = self.recent.seek(pc) {
            let member = self.recent.get(place).member();
            self.recent.touch(place);
            return Ok(Found::Hit {
                member,
                stamp: self.recent.stamp(),
            });
        }
        match try_half(self.half, registry, me, pc)? {
            Found::Hit { member, stamp } => {
                self.recent.keep(stamp);
                self.recent.add(&member);
                Ok(Found::Hit { member, stamp })
            }
            Found::Miss { stamp } => Ok(Found::Miss { stamp }),
        }
    }
}
