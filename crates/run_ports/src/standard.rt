//! Standard input and output as a source and a sink. They tell no bytes: what the system takes and
//! gives is trusted.
//!
//! A device that isn't ready for the moment, as a pipe that doesn't block, is waited for, and after
//! a signal a call is made again (read(2), write(2): EAGAIN, EINTR). Neither is a fault.

ghost use Rattle.std.specs.Prelude.{◌≤◌, None, IfOk, length};

use crate::ports::{Failed, Sink, SinkFault, Source};
use std::io::{self, ErrorKind, Read};
use std::sync::Wait;
use std::thread::sleep;
use std::time::{Clock, Duration};

/// Whether a call that failed is to be made again. Where the device isn't ready, that is a
/// millisecond later.
fn is_made_again<C: Clock>(clock: &C, error: &io::Error) -> bool {
    match error.kind() {
        ErrorKind::Interrupted => true,
        ErrorKind::WouldBlock => {
            sleep(clock, Duration::from_millis(1));
            true
        }
        _ => false,
    }
}

/// Reads from a device when it is ready.
fn read_ready<C: Clock + Wait, R: Read>(
    rt: &C,
    reader: &mut R,
    buffer: &mut [u8],
) -> io::Result<usize>
    ensures { IfOk result (λ count. count ≤ length buffer.old) }
{
    for _ in rt.forever() {
        match reader.read(buffer) {
            Err(error) if is_made_again(rt, &error) => {}
            outcome => return outcome,
        }
    }
    unreachable!()
}

/// Writes to what prints when it is ready.
fn write_ready<P: Print + Clock + Wait>(out: &P, piece: &[u8]) -> io::Result<usize>
    ensures { IfOk result (λ count. count ≤ length piece.now) }
{
    for _ in out.forever() {
        match out.write_some(piece) {
            Err(error) if is_made_again(out, &error) => {}
            outcome => return outcome,
        }
    }
    unreachable!()
}

/// A reader, with a count of its failures.
#[derive(Drop)]
pub struct StandardInput<'a, C: Clock + Wait, R: Read> {
    rt: &'a C,
    reader: R,
    faults: u64,
}

impl<'a, C: Clock + Wait, R: Read> StandardInput<'a, C, R> {
    pub fn new(rt: &'a C, reader: R) -> Self {
        StandardInput {
            rt,
            reader,
            faults: 0,
        }
    }
}

impl<C: Clock + Wait, R: Read> Source for StandardInput<'_, C, R> {
    ghost remaining = { λ _. None };

    ghost faults = { λ s. s.faults };

    ghost can_read = { λ _. Unit {0} };

    fn read(&mut self, buffer: &mut [u8]) -> Result<usize, Failed> {
        match read_ready(self.rt, &mut self.reader, buffer) {
            Ok(count) => Ok(count),
            Err(_) => {
                self.faults = self.faults.saturating_add(1);
                Err(Failed)
            }
        }
    }
}

/// What prints, with a count of its failures.
#[derive(Drop)]
pub struct StandardOutput<'a, P: Print + Clock + Wait> {
    out: &'a P,
    faults: u64,
}

impl<'a, P: Print + Clock + Wait> StandardOutput<'a, P> {
    pub fn new(out: &'a P) -> Self {
        StandardOutput { out, faults: 0 }
    }
}

impl<P: Print + Clock + Wait> Sink for StandardOutput<'_, P> {
    ghost written = { λ _. None };

    ghost faults = { λ s. s.faults };

    fn write(&mut self, piece: &[u8]) -> Result<usize, SinkFault> {
        match write_ready(self.out, piece) {
            Ok(count) if count > 0 || piece.is_empty() => Ok(count),
            _ => {
                self.faults = self.faults.saturating_add(1);
                Err(SinkFault::Failed)
            }
        }
    }
}
