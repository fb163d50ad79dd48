//! How a raise ended for its process.

ghost use Rattle.std.specs.Prelude.{◌≡◌};
ghost use Rattle.raise_run.specs.RaiseStatuses.{raise_code_of, raise_ending_of};

use run_ports::{Ending, ProgramStatus};

/// How the program ended.
#[derive(Clone, Copy, Debug, PartialEq, Eq)]
pub enum RaiseStatus {
    /// What became of the exception was written, caught or not.
    Done,
    /// The words of the command line are no snapshot and kind.
    Usage,
    /// The input is no script.
    Script,
    /// The input could not be read.
    ReadFault,
    /// The output could not be written.
    WriteFault,
    /// Memory was wanted and not to be had.
    NoMemory,
    /// The input is longer than a script may be.
    TooLong,
    /// The script has no snapshot of that number.
    NoSnapshot,
}

impl RaiseStatus {
    /// The status of the process.
    pub fn code(&self) -> u8
        ensures { result ≡ raise_code_of self.now }
    {
        match self {
            RaiseStatus::Done => 0,
            RaiseStatus::Usage => 2,
            RaiseStatus::Script => 3,
            RaiseStatus::ReadFault => 4,
            RaiseStatus::WriteFault => 5,
            RaiseStatus::NoMemory => 6,
            RaiseStatus::TooLong => 7,
            RaiseStatus::NoSnapshot => 8,
        }
    }
}

impl ProgramStatus for RaiseStatus {
    ghost says = { raise_ending_of };

    fn ending(&self) -> Ending
        ensures { result ≡ raise_ending_of self.now }
    {
        match self {
            RaiseStatus::Done | RaiseStatus::Usage | RaiseStatus::Script => Ending::Written,
            RaiseStatus::TooLong | RaiseStatus::NoSnapshot => Ending::Written,
            RaiseStatus::ReadFault => Ending::ReadFault,
            RaiseStatus::WriteFault => Ending::WriteFault,
            RaiseStatus::NoMemory => Ending::NoMemory,
        }
    }

    fn write_fault() -> Self
        ensures { result ≡ RaiseStatus.WriteFault }
    {
        RaiseStatus::WriteFault
    }

    fn no_memory() -> Self
        ensures { result ≡ RaiseStatus.NoMemory }
    {
        RaiseStatus::NoMemory
    }
}
