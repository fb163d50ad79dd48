//! Where bytes come from and where they go, with their faults counted.

ghost use Rattle.std.specs.Prelude.{◌≡◌, ◌≢◌, ℕ, ◌<◌, ◌≤◌, List, [], Option, length, take, IfOk};
ghost use Rattle.std.specs.Prelude.{IfSome, OnOk, OnErr, IsErr, Err};
ghost use Rattle.run_ports.specs.Ports.{Rose, Hands, Gains};

/// A read failed.
#[derive(Clone, Copy, Debug, PartialEq, Eq)]
pub struct Failed;

/// A write failed, or wanted memory.
#[derive(Clone, Copy, Debug, PartialEq, Eq)]
pub enum SinkFault {
    Failed,
    NoMemory,
}

/// Where a script comes from.
pub trait Source {
    /// The bytes that are left, where the source tells them.
    ghost remaining: { Self → Option (List ℕ) };

    /// How many reads have failed. It stands still at its last value, 2^64 - 1.
    ghost faults: { Self → ℕ };

    /// It may be read: it has neither failed nor said its end.
    ghost can_read: { Self → Type 0 };

    /// Reads some bytes to the front of the buffer. None for a buffer that has room is the end. An
    /// `Err` hands out nothing.
    fn read(&mut self, buffer: &mut [u8]) -> Result<usize, Failed>
        requires { can_read self.old }
        ensures count { IfOk result (λ count. count ≤ length buffer.old) }
        ensures bytes { IfOk result
            (λ count. Hands (remaining self.old) (remaining self.new) (take count buffer.new)) }
        ensures end { IfOk result
            (λ count. count ≡ 0 → 0 < length buffer.old
            → IfSome (remaining self.old) (λ bytes. bytes ≡ [])) }
        ensures goes_on { IfOk result (λ count. 0 < count → can_read self.new) }
        ensures kept { OnErr result (remaining self.new ≡ remaining self.old) }

        // The count of faults rises where a read fails, and only there.
        ensures err { IsErr result → Rose (faults self.old) (faults self.new) }
        ensures sound { OnOk result (faults self.new ≡ faults self.old) }
        ensures counted { faults self.old ≤ faults self.new };
}

/// Where a journal goes.
pub trait Sink {
    /// The bytes that it holds, where it tells them.
    ghost written: { Self → Option (List ℕ) };

    /// How many writes have failed. It stands still at its last value, 2^64 - 1.
    ghost faults: { Self → ℕ };

    /// It may be written to: it has neither failed nor wanted memory. One that may be asked again
    /// after that has no need to say so.
    ghost can_write: { Self → Type 0 } = { λ _. Unit {0} };

    /// Takes a front of the piece, and of a piece that is not empty at least one byte. An `Err`
    /// takes nothing.
    fn write(&mut self, piece: &[u8]) -> Result<usize, SinkFault>
        requires { can_write self.old }
        ensures count { IfOk result (λ count. count ≤ length piece.now) }
        ensures some { IfOk result (λ count. 0 < length piece.now → 0 < count) }
        ensures bytes { IfOk result
            (λ count. Gains (written self.old) (written self.new) (take count piece.now)) }
        ensures goes_on { OnOk result (can_write self.new) }
        ensures err { OnErr result (written self.new ≡ written self.old) }

        // The count of faults rises where a write fails, and only there.
        ensures failed { result ≡ Err SinkFault.Failed → Rose (faults self.old) (faults self.new) }
        ensures sound { result ≢ Err SinkFault.Failed → faults self.new ≡ faults self.old }
        ensures counted { faults self.old ≤ faults self.new };
}
