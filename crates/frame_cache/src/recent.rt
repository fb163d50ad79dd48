//! Members at a stamp, the most recently used first.
ghost use Rattle.std.specs.Prelude.{◌≡◌, ◌<◌, ◌≤◌, ◌∷◌, [], length, take};
ghost use Rattle.frame_cache.specs.CacheData.{kept_entries};
ghost use Rattle.frame_cache.specs.Order.{but_nth};
ghost use Rattle.frame_cache.specs.Recent.{SeeksEntry, cached_entries, cached_entry};

use crate::entry::CachedEntry;
use crate::order::Order;
use crate::slots::Slots;
use reg_model::Member;
use std::marker::Model;

/// How many members there are at most, and how many slots.
const MOST: u32 = 8;

/// Each member in a slot. The slots that are used come first in their order.
#[derive(Drop)]
pub(crate) struct Recent {
    stamp: u32,
    members: Slots,
    order: Order,
    used: u32,
}

impl Model for Recent {
    ghost use Rattle.frame_cache.specs.RecentData.{IsRecent, RecentData, recent};

    ghost Value = { RecentData };

    ghost view = { λ r. recent r.stamp r.members r.order r.used };

    ghost invariant = { λ r. IsRecent (recent r.stamp r.members r.order r.used) };
}

impl Recent {
    /// No members, at stamp 0.
    pub(crate) fn new() -> Recent
        ensures stamp { result.stamp ≡ 0 }
        ensures entries { cached_entries result ≡ [] }
    {
        Recent {
            stamp: 0,
            members: Slots::new(),
            order: Order::new(),
            used: 0,
        }
    }

    /// The stamp of all members.
    pub(crate) fn stamp(&self) -> u32
        ensures { result ≡ self.now.stamp }
    {
        self.stamp
    }

    /// How many members there are.
    pub(crate) fn count(&self) -> u32
        ensures count { result ≡ length (cached_entries self.now) }
        ensures few { result ≤ 8 }
    {
        self.used
    }

    /// Drops all members of another stamp.
    pub(crate) fn keep(&mut self, stamp: u32)
        ensures stamp { self.new.stamp ≡ stamp }
        ensures entries { cached_entries self.new
            ≡ kept_entries stamp self.old.stamp (cached_entries self.old) }
    {
        if stamp != self.stamp {
            self.stamp = stamp;
            self.used = 0;
        }
    }

    /// The member at a place.
    pub(crate) fn get(&self, place: u32) -> CachedEntry
        requires { place < length (cached_entries self.now) }
        ensures { result ≡ cached_entry place self.now }
    {
        self.members.get(self.order.at(place))
    }

    /// The place of the first member that contains the address, one place after another. It is a
    /// call of its own, which leaves registers to a search that finds none.
    #[inline(never)]
    fn walk(&self, pc: u64) -> Option<u32>
        ensures { SeeksEntry self.now pc result }
    {
        for place in 0..self.used {
            let entry = self.get(place);
            if entry.holds(pc) {
                return Some(place);
            }
        }
        None
    }

    /// The place of the first member that contains the address. After the one in front, which it
    /// mostly is, all slots are asked at once: where none of them may hold the address there is no
    /// need of their order.
    pub(crate) fn seek(&self, pc: u64) -> Option<u32>
        ensures { SeeksEntry self.now pc result }
    {
        let front = self.members.get(self.order.at(0));
        if front.holds(pc) && self.used > 0 {
            return Some(0);
        }
        if self.members.may_hold(pc) {
            self.walk(pc)
        } else {
            None
        }
    }

    /// Brings the member at a place to the front.
    #[inline(never)]
    pub(crate) fn touch(&mut self, place: u32)
        requires { place < length (cached_entries self.old) }
        ensures stamp { self.new.stamp ≡ self.old.stamp }
        ensures entries { cached_entries self.new
            ≡ cached_entry place self.old ∷ but_nth place (cached_entries self.old) }
    {
        self.order.bring(place);
    }

    /// Puts a member in front of all. With eight already there, the last one goes.
    pub(crate) fn add(&mut self, member: &Member)
        ensures stamp { self.new.stamp ≡ self.old.stamp }
        ensures entries { cached_entries self.new ≡ take 8 (member.now ∷ cached_entries self.old) }
    {
        let slot = self.order.bring_last();
        self.members.put(slot, member);
        if self.used < MOST {
            self.used += 1;
        }
    }
}
