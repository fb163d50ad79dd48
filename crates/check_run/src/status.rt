//! How a check ended for its process.

ghost use Rattle.std.specs.Prelude.{◌≡◌};
ghost use Rattle.check_run.specs.CheckStatuses.{check_code_of, check_ending_of};
ghost use Rattle.check_run.specs.CheckStatuses.{verdict_status};

use journal_check::Verdict;
use run_ports::{Ending, ProgramStatus};

/// How the program ended.
#[derive(Clone, Copy, Debug, PartialEq, Eq)]
pub enum CheckStatus {
    /// The journal is lawful.
    Lawful,
    /// A line of the journal is not, and was told.
    Unlawful,
    /// There are words on the command line.
    Usage,
    /// The input begins with no script.
    Script,
    /// The input could not be read.
    ReadFault,
    /// The output could not be written.
    WriteFault,
    /// Memory was wanted and not to be had.
    NoMemory,
    /// The input is longer than what is taken.
    TooLong,
}

impl CheckStatus {
    /// The status of the process.
    pub fn code(&self) -> u8
        ensures { result ≡ check_code_of self.now }
    {
        match self {
            CheckStatus::Lawful => 0,
            CheckStatus::Unlawful => 1,
            CheckStatus::Usage => 2,
            CheckStatus::Script => 3,
            CheckStatus::ReadFault => 4,
            CheckStatus::WriteFault => 5,
            CheckStatus::NoMemory => 6,
            CheckStatus::TooLong => 7,
        }
    }
}

impl ProgramStatus for CheckStatus {
    ghost says = { check_ending_of };

    fn ending(&self) -> Ending
        ensures { result ≡ check_ending_of self.now }
    {
        match self {
            CheckStatus::Lawful | CheckStatus::Unlawful => Ending::Written,
            CheckStatus::Usage | CheckStatus::Script | CheckStatus::TooLong => Ending::Written,
            CheckStatus::ReadFault => Ending::ReadFault,
            CheckStatus::WriteFault => Ending::WriteFault,
            CheckStatus::NoMemory => Ending::NoMemory,
        }
    }

    fn write_fault() -> Self
        ensures { result ≡ CheckStatus.WriteFault }
    {
        CheckStatus::WriteFault
    }

    fn no_memory() -> Self
        ensures { result ≡ CheckStatus.NoMemory }
    {
        CheckStatus::NoMemory
    }
}

/// The status of a verdict.
pub fn status_of(verdict: Verdict) -> CheckStatus
    ensures { result ≡ verdict_status verdict }
{
    match verdict {
        Verdict::Lawful { .. } => CheckStatus::Lawful,
        Verdict::Line { .. } => CheckStatus::Unlawful,
    }
}
