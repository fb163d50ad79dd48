//! Why a section gets no table.

ghost use Rattle.std.specs.Prelude.{◌≡◌};
ghost use Rattle.row_table.specs.declared.fault.TableFault.TheVariants.{NoMemory};

use std::alloc::{AllocError, AllocFailed};

/// Neither says anything against the section, which stays as it is.
#[derive(Clone, Copy, Debug, PartialEq, Eq)]
pub enum TableFault {
    /// More than 65,536 rows differ.
    TooManyRows,
    /// Memory ran out.
    NoMemory,
}

impl From<AllocError> for TableFault {
    ghost from_gives = { λ _ e. e ≡ NoMemory };

    fn from(_e: AllocError) -> TableFault {
        TableFault::NoMemory
    }
}

impl<T: Drop> From<AllocFailed<T>> for TableFault {
    ghost from_gives = { λ _ e. e ≡ NoMemory };

    fn from(_e: AllocFailed<T>) -> TableFault {
        TableFault::NoMemory
    }
}
