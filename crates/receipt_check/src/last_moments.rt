//! When so many members were registered last.

ghost use Rattle.std.specs.Prelude.{◌≡◌, ℕ, ◌+◌, ◌^◌, ◌<◌, ◌≤◌, ◌↔◌, ◌&&◌, IsTrue, OnOk};
ghost use Rattle.std.specs.Prelude.{nat_le, nat_lt, if◌then◌else◌, length, slice_index_or};
ghost use Rattle.receipt_check.specs.Sweep.{last_with};

use reg_model::NoMemory;
use std::alloc::Global;

/// How many members are registered, and of each greater number the last moment with so many.
/// Counts rise and fall by one where updates fit, and then each update changes one place.
#[derive(Drop)]
pub struct LastMoments {
    count: usize,
    /// One more than the last moment with more members than the place, or 0 where there was none.
    /// Places below the count say nothing.
    ends: Vec<usize>,
}

impl LastMoments {
    /// There is one moment, and nothing is registered.
    pub fn new(alloc: Global) -> Self
        ensures { (least : ℕ)
            → last_with result 0 least ≡ (if nat_le least 0 then 1 else 0) }
    {
        LastMoments {
            count: 0,
            ends: Vec::new(alloc),
        }
    }

    /// Goes on from a moment to the next one, at which so many are registered.
    pub fn go_on(&mut self, moment: usize, count: usize) -> Result<(), NoMemory>
        requires { moment + 2 < 2 ^ 64 }
        ensures { OnOk result ((least : ℕ) → last_with self.new (moment + 1) least
            ≡ (if nat_le least count then moment + 2 else last_with self.old moment least)) }
    {
        if count < self.count {
            return self.fall(count, moment + 1);
        }
        self.count = count;
        Ok(())
    }

    /// The count falls, so the moment was the last one with more.
    fn fall(&mut self, count: usize, end: usize) -> Result<(), NoMemory>
        requires { count ≤ self.old.count }
        ensures count { OnOk result (self.new.count ≡ count) }
        ensures ends { OnOk result ((place : ℕ) → slice_index_or self.new.ends.items place 0
            ≡ (if nat_le count place && nat_lt place self.old.count then end
            else slice_index_or self.old.ends.items place 0)) }
    {
        let past = self.count;
        grow_to(&mut self.ends, past)?;
        put_all(&mut self.ends, count, past, end);
        self.count = count;
        Ok(())
    }

    /// Whether there was a moment since, up to this one, with so many.
    pub fn had_since(&self, moment: usize, least: usize, since: usize) -> bool
        ensures { IsTrue result ↔ (since < last_with self.now moment least) }
    {
        if least <= self.count {
            return since <= moment;
        }
        match self.ends.get(least - 1) {
            Some(end) => since < *end,
            None => false,
        }
    }
}

/// Makes as many places at least, and new ones say that there was no moment.
fn grow_to(ends: &mut Vec<usize>, count: usize) -> Result<(), NoMemory>
    ensures many { OnOk result (count ≤ length ends.new.items) }
    ensures same { OnOk result ((place : ℕ)
        → slice_index_or ends.new.items place 0 ≡ slice_index_or ends.old.items place 0) }
{
    let places = count.max(ends.len());
    ends.resize(places, 0)?;
    Ok(())
}

/// Puts an end into each place of a range.
fn put_all(ends: &mut Vec<usize>, from: usize, to: usize, end: usize)
    requires order { from ≤ to }
    requires there { to ≤ length ends.old.items }
    ensures { (place : ℕ) → slice_index_or ends.new.items place 0
        ≡ (if nat_le from place && nat_lt place to then end
        else slice_index_or ends.old.items place 0) }
{
    for place in from..to {
        ends[place] = end;
    }
}
