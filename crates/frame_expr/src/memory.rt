//! Recorded memory: a list of regions, of which each is an address and the bytes from there on.

ghost use Rattle.std.specs.Prelude.{◌≡◌, ◌<◌, ◌+◌, ◌^◌, None, IfErr, length};
ghost use Rattle.std.specs.Prelude.{◌++◌, ◌∷◌, [], slice_get, Some, IfSome, OnOk, OnErr};
ghost use Rattle.std.specs.Option.{option_map};
ghost use Rattle.std.specs.Prelude.{ℕ, if◌then◌else◌};
ghost use Rattle.std.specs.Option.{option_and_then};
ghost use Rattle.byteorder.specs.Endian.{little_number};
ghost use Rattle.frame_expr.specs.Regions.{RegionData, end, holds_bytes, region_at, word_at};
ghost use Rattle.frame_expr.specs.Regions.{tail_in, tail_at};
ghost use Rattle.frame_expr.specs.Regions.{regions_end, Accepts, IsRefusedRegion, AreRegions};

use crate::lent::word_from;
use crate::source::WordSource;
use std::alloc::{AllocError, AllocFailed, Global};
use std::marker::Model;

/// Why a region isn't recorded.
#[derive(Clone, Copy, Debug, PartialEq, Eq)]
pub enum RegionFault {
    /// It has no bytes.
    Empty,
    /// Its address and its length come to more than 2^64 - 1.
    End,
    /// It isn't above the last byte of the region before.
    Order,
    /// Memory ran out, which says nothing of the region.
    NoMemory,
}

impl From<AllocError> for RegionFault {
    ghost use Rattle.frame_expr.specs.declared.memory.RegionFault.TheVariants.{NoMemory};

    ghost from_gives = { λ _ e. e ≡ NoMemory };

    fn from(_e: AllocError) -> RegionFault {
        RegionFault::NoMemory
    }
}

impl<T: Drop> From<AllocFailed<T>> for RegionFault {
    ghost use Rattle.frame_expr.specs.declared.memory.RegionFault.TheVariants.{NoMemory};

    ghost from_gives = { λ _ e. e ≡ NoMemory };

    fn from(_e: AllocFailed<T>) -> RegionFault {
        RegionFault::NoMemory
    }
}

/// Bytes that stand one after another from an address on.
#[derive(Drop)]
struct Region {
    address: u64,
    bytes: Vec<u8>,
}

impl Model for Region {
    ghost Value = { RegionData };

    ghost view = { λ r. record { address = r.address; bytes = r.bytes.items } };
}

impl Region {
    /// The first address after it.
    fn end(&self) -> u64
        requires { end self.now < 2 ^ 64 }
        ensures { result ≡ end self.now }
    {
        self.address + self.bytes.len() as u64
    }

    /// The eight bytes at an address as a number, where it holds all eight.
    fn word(&self, address: u64) -> Option<u64>
        ensures { result ≡ (if holds_bytes 8 address self.now
            then Some (little_number 8 (tail_in address self.now)) else None) }
    {
        word_from(self.address, &self.bytes, address)
    }

    /// Its bytes from an address on, where it holds the address.
    fn tail(&self, address: u64) -> Option<&[u8]>
        requires { end self.now < 2 ^ 64 }
        ensures { option_map (λ bytes. bytes.now) result ≡ (if holds_bytes 1 address self.now
            then Some (tail_in address self.now) else None) }
    {
        if address < self.address {
            return None;
        }
        let place = address - self.address;
        if place >= self.bytes.len() as u64 {
            return None;
        }
        Some(&self.bytes[place as usize..])
    }
}

/// Recorded memory: regions that ascend and have no byte in common.
#[derive(Drop)]
pub struct Memory {
    alloc: Global,
    regions: Vec<Region>,
}

impl Model for Memory {
    ghost use Rattle.std.specs.Prelude.{List};
    ghost use Rattle.frame_expr.specs.Regions.{RegionData, AreRegions};

    ghost Value = { List RegionData };

    ghost view = { λ m. m.regions.items };

    ghost invariant = { λ m. AreRegions m.regions.items };
}

impl Memory {
    /// Memory without any region. It takes no memory itself.
    pub fn new(alloc: Global) -> Memory
        ensures { result ≡ [] }
    {
        Memory {
            alloc,
            regions: Vec::new(alloc),
        }
    }

    /// The regions of a memory ascend and have no byte in common.
    pub fn known(&self)
        ensures { AreRegions self.now }
    {
        let _ = &self.regions;
    }

    /// Records a region above all that are recorded. The bytes are copied.
    pub fn push_region(&mut self, address: u64, bytes: &[u8]) -> Result<(), RegionFault>
        ensures ok { OnOk result (self.new
            ≡ self.old ++ record { address = address; bytes = bytes.now } ∷ []) }
        ensures accepted { OnOk result (Accepts self.old address bytes.now) }
        ensures refused { OnErr result (self.new ≡ self.old) }
        ensures fault { IfErr result (IsRefusedRegion self.old address bytes.now) }
    {
        if bytes.is_empty() {
            return Err(RegionFault::Empty);
        }
        if bytes.len() as u64 > u64::MAX - address {
            return Err(RegionFault::End);
        }
        if address < regions_end(&self.regions) {
            return Err(RegionFault::Order);
        }
        let bytes = Vec::from_slice(self.alloc, bytes)?;
        self.regions.push(Region { address, bytes })?;
        Ok(())
    }

    /// How many regions there are.
    pub fn count(&self) -> usize
        ensures { result ≡ length self.now }
    {
        self.regions.len()
    }

    /// The address of a region, by its number in ascending order.
    pub fn address(&self, index: usize) -> u64
        requires { index < length self.now }
        ensures { option_map (λ r. r.address) (slice_get self.now index) ≡ Some result }
    {
        self.regions[index].address
    }

    /// The bytes of a region, by its number in ascending order.
    pub fn region(&self, index: usize) -> &[u8]
        requires { index < length self.now }
        ensures { option_map (λ r. r.bytes) (slice_get self.now index) ≡ Some result.now }
    {
        &self.regions[index].bytes
    }

    /// The bytes from an address to the end of the region that holds it. `None` exactly where none
    /// does.
    pub fn tail(&self, address: u64) -> Option<&[u8]>
        ensures { option_map (λ bytes. bytes.now) result ≡ tail_at address self.now }
    {
        tail_among(&self.regions, address)
    }
}

impl WordSource for Memory {
    ghost regions = { λ m. m };

    #[inline(always)]
    fn word(&self, address: u64) -> Option<u64> {
        word_among(&self.regions, address)
    }
}

/// The first address after the last region, or 0.
fn regions_end(regions: &[Region]) -> u64
    requires { AreRegions regions.now }
    ensures { result ≡ regions_end regions.now }
{
    match regions.last() {
        None => 0,
        Some(region) => region.end(),
    }
}

/// The region that holds an address, where one does; else it may be another, or none. The regions
/// ascend, so half of those that are left are passed by at a time.
fn last_from(regions: &[Region], address: u64) -> Option<&Region>
    requires { AreRegions regions.now }
    ensures held { (n : ℕ) → 0 < n → region_at n address regions.now ≡ option_and_then
        (λ r. if holds_bytes n address r.now then Some r.now else None) result }
    ensures fits { IfSome result (λ r. end r.now < 2 ^ 64) }
{
    let mut left = regions;
    while left.len() > 1 {
        let (low, high) = left.split_at(left.len() / 2);
        let first = &high[0];
        left = if first.address <= address { high } else { low };
    }
    match left {
        [region, ..] => Some(region),
        [] => None,
    }
}

fn word_among(regions: &[Region], address: u64) -> Option<u64>
    requires { AreRegions regions.now }
    ensures { result ≡ word_at address regions.now }
{
    match last_from(regions, address) {
        None => None,
        Some(region) => region.word(address),
    }
}

fn tail_among(regions: &[Region], address: u64) -> Option<&[u8]>
    requires { AreRegions regions.now }
    ensures { option_map (λ bytes. bytes.now) result ≡ tail_at address regions.now }
{
    match last_from(regions, address) {
        None => None,
        Some(region) => region.tail(address),
    }
}
