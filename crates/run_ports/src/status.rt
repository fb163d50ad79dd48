//! What the statuses of a program say of its devices.

ghost use Rattle.std.specs.Prelude.{◌≡◌};

/// What a status says of a program's devices.
#[derive(Clone, Copy, Debug, PartialEq, Eq)]
pub enum Ending {
    /// The text that is due with the status was written.
    Written,
    /// The input could not be read.
    ReadFault,
    /// The output could not be written.
    WriteFault,
    /// Memory was wanted and not to be had.
    NoMemory,
}

/// The statuses of a program.
pub trait ProgramStatus: Copy {
    ghost use Rattle.run_ports.specs.declared.status.Ending.{Ending};

    /// What each of them says of the devices.
    ghost says: { Self → Ending };

    fn ending(&self) -> Ending
        ensures { result ≡ says self.now };

    /// A write failed.
    fn write_fault() -> Self
        ensures { says result ≡ Ending.WriteFault };

    /// Memory was wanted.
    fn no_memory() -> Self
        ensures { says result ≡ Ending.NoMemory };
}
