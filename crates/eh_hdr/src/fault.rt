//! Why the bytes are no header of a section.

ghost use Rattle.std.specs.Prelude.{◌≡◌};
ghost use Rattle.eh_hdr.specs.declared.fault.HeaderFault.TheVariants.{NoMemory};

use std::alloc::{AllocError, AllocFailed};

/// The first refusal of a header in order of bytes, and of those of one place the first one here.
/// `at` is the place that is refused.
#[derive(Clone, Copy, Debug, PartialEq, Eq)]
pub enum HeaderFault {
    /// A field isn't whole.
    Short { at: usize },
    /// The version isn't 1.
    Version { at: usize },
    /// The pointer isn't four signed bytes to which its own address is added, the count is neither
    /// four bytes nor left out, or the table has another encoding than goes with that.
    Encoding { at: usize },
    /// The pointer doesn't lead to the section.
    Section { at: usize },
    /// There aren't as many entries as the section has FDEs.
    Count { at: usize },
    /// An entry's address isn't that of an FDE whose first address is the entry's location.
    Fde { at: usize },
    /// An entry's location isn't above that of the entry before.
    Order { at: usize },
    /// The FDE of the entry before reaches past an entry's location.
    Overlap { at: usize },
    /// Memory ran out, which says nothing of the bytes.
    NoMemory,
}

impl From<AllocError> for HeaderFault {
    ghost from_gives = { λ _ e. e ≡ NoMemory };

    fn from(_e: AllocError) -> HeaderFault {
        HeaderFault::NoMemory
    }
}

impl<T: Drop> From<AllocFailed<T>> for HeaderFault {
    ghost from_gives = { λ _ e. e ≡ NoMemory };

    fn from(_e: AllocFailed<T>) -> HeaderFault {
        HeaderFault::NoMemory
    }
}
