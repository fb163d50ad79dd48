//! Why bytes are not read as a script.

ghost use Rattle.std.specs.Prelude.{◌≡◌};
ghost use Rattle.event_script.specs.declared.reader.fault.LineFault.TheVariants.{Bad, NoMemory};

use script_text::Reason;
use std::alloc::AllocFailed;

/// Why bytes are not read as a script.
#[derive(Clone, Copy, Debug, PartialEq, Eq)]
pub enum ScriptFault {
    /// The first bad line, numbered from 1, and the first reason that holds of it.
    Bad { line: u32, reason: Reason },
    NoMemory,
}

/// Why reading ends before the bytes do.
#[derive(Clone, Copy)]
pub enum LineFault {
    Bad { reason: Reason },
    NoMemory,
}

impl From<Reason> for LineFault {
    ghost from_gives = { λ reason fault. fault ≡ Bad reason };

    fn from(reason: Reason) -> LineFault {
        LineFault::Bad { reason }
    }
}

impl From<reg_model::NoMemory> for LineFault {
    ghost from_gives = { λ _ fault. fault ≡ NoMemory };

    fn from(_error: reg_model::NoMemory) -> LineFault {
        LineFault::NoMemory
    }
}

impl<T: Drop> From<AllocFailed<T>> for LineFault {
    ghost from_gives = { λ _ fault. fault ≡ NoMemory };

    fn from(_error: AllocFailed<T>) -> LineFault {
        LineFault::NoMemory
    }
}
