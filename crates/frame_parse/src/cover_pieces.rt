//! Which FDE covers an address, where FDEs share addresses: the addresses in pieces, each with the
//! number of the first FDE in order of bytes that covers it. They are put together by halves of the
//! FDEs, so that whatever FDEs a section has, reading it takes some `n log n` steps.

ghost use Rattle.std.specs.Prelude.{◌≡◌, ◌+◌, ◌<◌, ◌^◌, length, if◌then◌else◌, nat_le, IfOk, []};
ghost use Rattle.std.specs.Prelude.{◌∷◌, None, drop};
ghost use Rattle.frame_parse.specs.declared.cover_pieces.CoverPiece.{CoverPiece};
ghost use Rattle.frame_parse.specs.Lookups.{piece_number, number_or, Falls, TellsCovers, IsOverlay};

use crate::records::FdeEntry;
use std::alloc::{AllocError, Global};

/// The addresses from a first one on, up to the next piece above, and the number of the first FDE
/// in order of bytes that covers them, if one does.
#[derive(Clone, Copy, Debug, PartialEq, Eq)]
pub struct CoverPiece {
    pub first: u64,
    pub fde: Option<usize>,
}

/// The pieces of one FDE, by its number.
fn pieces_of_one(
    alloc: Global,
    fde: &FdeEntry,
    number: usize,
) -> Result<Vec<CoverPiece>, AllocError>
    ensures { IfOk result (λ pieces. TellsCovers number (fde.now ∷ []) pieces.items) }
{
    let mut pieces = Vec::with_capacity(alloc, 2)?;
    if let Some(end) = fde.first.checked_add(fde.range) {
        pieces.push(CoverPiece {
            first: end,
            fde: None,
        })?;
    }
    pieces.push(CoverPiece {
        first: fde.first,
        fde: Some(number),
    })?;
    Ok(pieces)
}

/// What holds from the higher one of two first addresses on: an earlier FDE stands before a later.
#[inline(always)]
fn higher(earlier: &CoverPiece, later: &CoverPiece) -> CoverPiece
    ensures first { result.first ≡ (if nat_le earlier.now.first later.now.first
        then later.now.first else earlier.now.first) }
    ensures fde { result.fde ≡ number_or earlier.now.fde later.now.fde }
{
    CoverPiece {
        first: if earlier.first <= later.first {
            later.first
        } else {
            earlier.first
        },
        fde: match earlier.fde {
            Some(number) => Some(number),
            None => later.fde,
        },
    }
}

/// All pieces but the first.
#[inline(always)]
fn behind_first(pieces: &[CoverPiece]) -> &[CoverPiece]
    requires { 0 < length pieces.now }
    ensures { result.now ≡ drop 1 pieces.now }
{
    &pieces[1..]
}

/// The pieces of FDEs and of those after them.
fn overlaid(
    alloc: Global,
    earlier: &[CoverPiece],
    later: &[CoverPiece],
) -> Result<Vec<CoverPiece>, AllocError>
    requires earlier { Falls earlier.now }
    requires later { Falls later.now }
    ensures { IfOk result (λ pieces. IsOverlay earlier.now later.now pieces.items) }
{
    let mut pieces = Vec::with_capacity(alloc, earlier.len().saturating_add(later.len()))?;
    let mut left = earlier;
    let mut right = later;
    while !left.is_empty() {
        if right.is_empty() {
            pieces.extend_from_slice(left)?;
            return Ok(pieces);
        }
        let x = left[0];
        let y = right[0];
        pieces.push(higher(&x, &y))?;
        if x.first > y.first {
            left = behind_first(left);
        } else if x.first < y.first {
            right = behind_first(right);
        } else {
            left = behind_first(left);
            right = behind_first(right);
        }
    }
    pieces.extend_from_slice(right)?;
    Ok(pieces)
}

/// The pieces of FDEs, of which the first has a number.
pub(crate) fn pieces_of(
    alloc: Global,
    fdes: &[FdeEntry],
    number: usize,
) -> Result<Vec<CoverPiece>, AllocError>
    requires { number + length fdes.now < 2 ^ 64 }
    ensures { IfOk result (λ pieces. TellsCovers number fdes.now pieces.items) }
{
    match fdes {
        [] => Ok(Vec::new(alloc)),
        [fde] => pieces_of_one(alloc, fde, number),
        _ => {
            let half = fdes.len() / 2;
            let (front, back) = fdes.split_at(half);
            let earlier = pieces_of(alloc, front, number)?;
            let later = pieces_of(alloc, back, number + half)?;
            let pieces = overlaid(alloc, &earlier, &later)?;
            Ok(pieces)
        }
    }
}

/// The number of the first FDE that covers an address.
pub(crate) fn piece_cover(pieces: &[CoverPiece], pc: u64) -> Option<usize>
    requires { Falls pieces.now }
    ensures { result ≡ piece_number pc pieces.now None }
{
    let mut low = 0;
    let mut high = pieces.len();
    while low < high {
        let middle = low + (high - low) / 2;
        if pc < pieces[middle].first {
            low = middle + 1;
        } else {
            high = middle;
        }
    }
    if low < pieces.len() {
        pieces[low].fde
    } else {
        None
    }
}
