//! Records: what they say, and their fields.

ghost use Rattle.std.specs.Prelude.{◌≡◌, ◌<◌, length, slice_index_or};
ghost use Rattle.frame_parse.specs.Entries.{no_cie};

mod augmentation;
mod cie;
mod fde;
pub(crate) mod fields;

pub use augmentation::Augmentation;
pub(crate) use cie::cie;
pub(crate) use fde::fde;
pub use fde::range;
pub use fields::{four_bytes, pointer};

/// A part of the section's bytes, by places.
#[derive(Clone, Copy, Debug, PartialEq, Eq)]
pub struct Extent {
    pub at: usize,
    pub end: usize,
}

/// A CIE.
#[derive(Clone, Copy, Debug, PartialEq, Eq)]
pub struct CieRecord {
    pub start: usize,
    pub code_alignment: u64,
    pub data_alignment: i64,
    /// Its FDEs have augmentation data.
    pub has_data: bool,
    pub augmentation: Augmentation,
    /// Its initial instructions leave a CFA rule that is a column plus an offset.
    pub offset: bool,
    pub initial: Extent,
}

/// An FDE, as a section keeps it: its CIE is kept once, and goes by its number in order of bytes.
#[derive(Clone, Copy, Debug, PartialEq, Eq)]
pub struct FdeEntry {
    /// The place of its first byte, that of its length.
    pub start: usize,
    pub cie: usize,
    pub first: u64,
    pub range: u64,
    pub lsda: Option<u64>,
    pub program: Extent,
}

/// A record, as a section keeps it.
#[derive(Clone, Copy, Debug, PartialEq, Eq)]
pub enum Entry {
    Cie(CieRecord),
    Fde(FdeEntry),
}

/// A CIE by its number.
#[inline(always)]
pub(crate) fn cie_at(cies: &[CieRecord], index: usize) -> &CieRecord
    requires { index < length cies.now }
    ensures { result.now ≡ slice_index_or cies.now index no_cie }
{
    &cies[index]
}
