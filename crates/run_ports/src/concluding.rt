//! Ends a program with the line that is due.

ghost use Rattle.std.specs.Prelude.{◌≡◌, ◌≢◌, ℕ, List, IfOk};
ghost use Rattle.run_ports.specs.Endings.{Concludes, sink_change};

use crate::ports::{Sink, SinkFault};
use crate::status::{Ending, ProgramStatus};
use crate::writing::write_piece;

/// Writes the line that is due with a status.
pub fn conclude<T: ProgramStatus, K: Sink>(sink: &mut K, line: &[u8], status: T) -> T
    requires { K.can_write sink.old }
    ensures sound { T.says result ≢ Ending.WriteFault → K.faults sink.new ≡ K.faults sink.old }
    ensures concludes { Concludes T.says line.now status
        (sink_change K.faults K.written sink.old sink.new 0 0) result }
{
    match write_piece(sink, line) {
        Ok(()) => status,
        Err(SinkFault::Failed) => T::write_fault(),
        Err(SinkFault::NoMemory) => T::no_memory(),
    }
}

/// Writes the line that is due with a status, where there was memory to make it.
pub fn conclude_made<T: ProgramStatus, E: Copy, K: Sink>(
    sink: &mut K,
    made: Result<Vec<u8>, E>,
    status: T,
) -> T
    requires { K.can_write sink.old }
    ensures sound { T.says result ≢ Ending.WriteFault → K.faults sink.new ≡ K.faults sink.old }
    ensures concludes { (line : List ℕ) → IfOk made (λ text. text.items ≡ line)
        → Concludes T.says line status
        (sink_change K.faults K.written sink.old sink.new 0 0) result }
{
    match made {
        Ok(line) => conclude(sink, &line, status),
        Err(_) => T::no_memory(),
    }
}
