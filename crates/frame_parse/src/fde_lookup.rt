//! Which FDE covers an address. The FDEs of most sections share no address, so their ranges are put
//! in order when the section is read, and then a lookup passes by most of those that are left at
//! each step. Where two share one, the addresses are put in order in pieces (`cover_pieces`).

ghost use Rattle.std.specs.Prelude.{◌≡◌, ◌+◌, ◌<◌, ◌^◌, length, map, true, false, nat_le};
ghost use Rattle.std.specs.Prelude.{if◌then◌else◌};
ghost use Rattle.std.specs.Prelude.{IfOk, IfNone, IfSome, Some, slice_get, option_and_then};
ghost use Rattle.std.specs.List.{All, Contains};
ghost use Rattle.frame_parse.specs.Entries.{fde_among, with_cie, HasCie};
ghost use Rattle.frame_parse.specs.Sections.{first_cover};
ghost use Rattle.frame_parse.specs.declared.fde_lookup.CoveredRange.{CoveredRange};
ghost use Rattle.frame_parse.specs.Lookups.{HasRanges, are_apart, holds, Finds};

use crate::cover_pieces::{CoverPiece, piece_cover, pieces_of};
use crate::records::{CieRecord, FdeEntry, cie_at};
use std::alloc::{AllocError, Global};
use std::marker::Model;

/// The addresses that an FDE covers, and the FDE's number in order of bytes.
#[derive(Clone, Copy, Debug, PartialEq, Eq)]
pub struct CoveredRange {
    pub first: u64,
    pub range: u64,
    pub fde: usize,
}

/// How the FDE of an address is found.
#[derive(Drop)]
pub enum Lookup {
    /// No two ranges share an address. They stand in order of addresses, without the empty ones.
    Ordered(Vec<CoveredRange>),
    /// The addresses in pieces, from the highest down.
    Pieces(Vec<CoverPiece>),
}

/// The FDEs of a section in order of bytes, their CIEs, and how an FDE is found.
#[derive(Drop)]
pub struct FdeList {
    cies: Vec<CieRecord>,
    fdes: Vec<FdeEntry>,
    lookup: Lookup,
}

impl Model for FdeList {
    ghost use Rattle.std.specs.Prelude.{List, length, map};
    ghost use Rattle.std.specs.List.{All};
    ghost use Rattle.frame_parse.specs.Entries.{FdeRecord, fde_among, HasCie};
    ghost use Rattle.frame_parse.specs.Lookups.{Finds};

    ghost Value = { List FdeRecord };

    ghost view = { λ l. map (fde_among l.cies.items) l.fdes.items };

    ghost invariant = { λ l. Finds l.fdes.items l.lookup
        × All (HasCie (length l.cies.items)) l.fdes.items };
}

impl FdeList {
    pub(crate) fn new(
        alloc: Global,
        cies: Vec<CieRecord>,
        fdes: Vec<FdeEntry>,
    ) -> Result<FdeList, AllocError>
        requires { All (HasCie (length cies.items)) fdes.items }
        ensures { IfOk result (λ list. list ≡ map (fde_among cies.items) fdes.items) }
    {
        let lookup = lookup_of(alloc, &fdes)?;
        Ok(FdeList { cies, fdes, lookup })
    }

    /// How many FDEs there are.
    pub(crate) fn len(&self) -> usize
        ensures { result ≡ length self.now }
    {
        self.fdes.len()
    }

    /// An FDE by its number, in order of bytes, with its CIE.
    pub(crate) fn get(&self, index: usize) -> (&CieRecord, &FdeEntry)
        requires { index < length self.now }
        ensures { slice_get self.now index ≡ Some (with_cie result.0.now result.1.now) }
    {
        fde_at(&self.cies, &self.fdes, index)
    }

    /// The number of the first FDE in order of bytes that covers an address.
    pub(crate) fn cover(&self, pc: u64) -> Option<usize>
        ensures value { option_and_then (slice_get self.now) result ≡ first_cover pc self.now }
        ensures within { IfSome result (λ i. i < length self.now) }
    {
        match &self.lookup {
            Lookup::Ordered(ranges) => ordered_cover(ranges, pc),
            Lookup::Pieces(pieces) => piece_cover(pieces, pc),
        }
    }
}

fn fde_at<'a>(
    cies: &'a [CieRecord],
    fdes: &'a [FdeEntry],
    index: usize,
) -> (&'a CieRecord, &'a FdeEntry)
    requires within { index < length fdes.now }
    requires cies { All (HasCie (length cies.now)) fdes.now }
    ensures { slice_get (map (fde_among cies.now) fdes.now) index
        ≡ Some (with_cie result.0.now result.1.now) }
{
    let fde = &fdes[index];
    (cie_at(cies, fde.cie), fde)
}

/// The ranges that aren't empty.
fn ranges_of(alloc: Global, fdes: &[FdeEntry]) -> Result<Vec<CoveredRange>, AllocError>
    ensures { IfOk result (λ ranges. HasRanges fdes.now (length fdes.now) ranges.items) }
{
    let mut ranges = Vec::new(alloc);
    for (index, fde) in fdes.iter().enumerate() {
        if fde.range > 0 {
            ranges.push(CoveredRange {
                first: fde.first,
                range: fde.range,
                fde: index,
            })?;
        }
    }
    Ok(ranges)
}

/// How FDEs are found among these.
fn lookup_of(alloc: Global, fdes: &[FdeEntry]) -> Result<Lookup, AllocError>
    ensures { IfOk result (Finds fdes.now) }
{
    let mut ranges = ranges_of(alloc, fdes)?;
    ranges.sort_unstable_by_key(|range| range.first);
    if are_apart(&ranges) {
        return Ok(Lookup::Ordered(ranges));
    }
    let pieces = pieces_of(alloc, fdes, 0)?;
    Ok(Lookup::Pieces(pieces))
}

/// Whether a range ends before another begins.
fn ends_before(range: &CoveredRange, next: &CoveredRange) -> bool
    ensures { result ≡ nat_le (range.now.first + range.now.range) next.now.first }
{
    range.first <= next.first && next.first - range.first >= range.range
}

/// Whether each range ends before the next begins.
fn are_apart(ranges: &[CoveredRange]) -> bool
    ensures { result ≡ are_apart ranges.now }
{
    let mut left = ranges;
    while let [first, second, ..] = left {
        if !ends_before(first, second) {
            return false;
        }
        left = &left[1..];
    }
    true
}

fn holds(range: &CoveredRange, pc: u64) -> bool
    ensures { result ≡ holds pc range.now }
{
    range.first <= pc && pc - range.first < range.range
}

/// All of a number where something holds, else 0, without a branch: the processor would guess wrong
/// half of the time.
#[inline(always)]
fn where_holds(number: usize, holds: bool) -> usize
    requires { number < 2 ^ 63 }
    ensures { result ≡ (if holds then number else 0) }
{
    (number << u32::from(holds)) - number
}

/// 1 where the range begins up to an address, else 0.
#[inline(always)]
fn begins(range: &CoveredRange, pc: u64) -> usize
    ensures { result ≡ (if nat_le range.now.first pc then 1 else 0) }
{
    usize::from(range.first <= pc)
}

/// The number of the FDE whose range has the address, where the ranges are apart. Three quarters of
/// those that may have it are passed by at a time, and at the end one half; those that are left
/// begin at `base`.
fn ordered_cover(ranges: &[CoveredRange], pc: u64) -> Option<usize>
    requires { are_apart ranges.now ≡ true }
    ensures none { IfNone result (All (λ range. holds pc range ≡ false) ranges.now) }
    ensures some { IfSome result (λ fde. (range : CoveredRange)
        × Contains ranges.now range × (holds pc range ≡ true) × (range.fde ≡ fde)) }
{
    let mut base = 0;
    let mut size = ranges.len();
    'quarters: while size > 3 {
        let quarter = size / 4;
        let first = begins(&ranges[base + quarter], pc);
        let second = begins(&ranges[base + 2 * quarter], pc);
        let third = begins(&ranges[base + 3 * quarter], pc);
        base += (first + second + third) * quarter;
        size -= 3 * quarter;
    }
    'halves: while size > 1 {
        let half = size / 2;
        base += where_holds(half, ranges[base + half].first <= pc);
        size -= half;
    }
    if base < ranges.len() && holds(&ranges[base], pc) {
        Some(ranges[base].fde)
    } else {
        None
    }
}
