//! What covers or claims an address.

use crate::refused::RefusedRecord;

/// The answer to an address, by what stands first in the bytes. `F` tells the FDE.
#[derive(Clone, Copy, Debug, PartialEq, Eq)]
pub enum FdeAnswer<F> {
    /// No FDE covers it, and no refused record claims it.
    NoFde,
    Found(F),
    /// A refused record claims it.
    Claimed(RefusedRecord),
}
