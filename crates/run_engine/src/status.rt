//! How a run ended.

ghost use Rattle.std.specs.Prelude.{◌≡◌};
ghost use Rattle.run_engine.specs.Statuses.{code_of, ending_of};

use run_ports::{Ending, ProgramStatus};

/// How a run ended.
#[derive(Clone, Copy, Debug, PartialEq, Eq)]
pub enum Status {
    /// The journal was written.
    Done,
    /// The words of the command line are not taken.
    Usage,
    /// The input is no script.
    Script,
    /// The input could not be read.
    ReadFault,
    /// The output could not be written.
    WriteFault,
    /// Memory was wanted and not to be had.
    NoMemory,
    /// The input is longer than a script may be.
    TooLong,
}

impl Status {
    /// The status of the process.
    pub fn code(&self) -> u8
        ensures { result ≡ code_of self.now }
    {
        match self {
            Status::Done => 0,
            Status::Usage => 2,
            Status::Script => 3,
            Status::ReadFault => 4,
            Status::WriteFault => 5,
            Status::NoMemory => 6,
            Status::TooLong => 7,
        }
    }
}

impl ProgramStatus for Status {
    ghost says = { ending_of };

    fn ending(&self) -> Ending
        ensures { result ≡ ending_of self.now }
    {
        match self {
            Status::Done | Status::Usage | Status::Script | Status::TooLong => Ending::Written,
            Status::ReadFault => Ending::ReadFault,
            Status::WriteFault => Ending::WriteFault,
            Status::NoMemory => Ending::NoMemory,
        }
    }

    fn write_fault() -> Self
        ensures { result ≡ Status.WriteFault }
    {
        Status::WriteFault
    }

    fn no_memory() -> Self
        ensures { result ≡ Status.NoMemory }
    {
        Status::NoMemory
    }
}
