//! A sink that gathers pieces for another one, to which each call is dear.

ghost use Rattle.std.specs.Prelude.{◌≡◌, ◌≢◌, ◌≤◌, [], ◌++◌, Err, OnOk, OnErr};
ghost use Rattle.run_ports.specs.Devices.{IsHandedOn};
ghost use Rattle.run_ports.specs.Ports.{Rose, with_bytes};

use crate::ports::{Sink, SinkFault};
use crate::status::{Ending, ProgramStatus};
use crate::writing::hand_on;
use std::alloc::{AllocError, Global};
use std::marker::Model;

/// How many bytes are gathered at least before they are handed on.
const ENOUGH: usize = 16_384;

/// Gathers pieces, and hands on what it holds where that is enough, or at the end.
#[derive(Drop)]
pub struct BufferedSink<K: Sink> {
    sink: K,
    held: Vec<u8>,
    /// How many of these bytes the sink has taken.
    at: usize,
}

impl<K: Sink> Model for BufferedSink<K> {
    ghost use Rattle.std.specs.Prelude.{◌≤◌, drop, vec_len};
    ghost use Rattle.run_ports.specs.Devices.{BufferedSinkData};

    ghost Value = { BufferedSinkData K };

    ghost view = { λ s. record { sink = s.sink; held = drop s.at s.held.items } };

    ghost invariant = { λ s. s.at ≤ vec_len s.held };
}

impl<K: Sink> BufferedSink<K> {
    /// Nothing yet. It takes no memory.
    pub fn new(alloc: Global, sink: K) -> Self
        ensures { result ≡ record { sink = sink; held = [] } }
    {
        BufferedSink {
            sink,
            held: Vec::new(alloc),
            at: 0,
        }
    }

    /// The sink that gets the pieces.
    pub fn sink(&self) -> &K
        ensures { result.now ≡ self.now.sink }
    {
        &self.sink
    }

    /// Hands on what is held. What the sink didn't take is held on.
    pub fn flush(&mut self) -> Result<(), SinkFault>
        requires { K.can_write self.old.sink }
        ensures all { OnOk result (self.new.held ≡ []) }
        ensures goes_on { OnOk result (K.can_write self.new.sink) }
        // Of what was held nothing is lost, and a write that failed is counted.
        ensures kept { with_bytes (K.written self.new.sink) self.new.held
            ≡ with_bytes (K.written self.old.sink) self.old.held }
        ensures failed { result ≡ Err SinkFault.Failed
            → Rose (K.faults self.old.sink) (K.faults self.new.sink) }
        ensures sound { result ≢ Err SinkFault.Failed
            → K.faults self.new.sink ≡ K.faults self.old.sink }
        ensures counted { K.faults self.old.sink ≤ K.faults self.new.sink }
    {
        match hand_on(&mut self.sink, &self.held, &mut self.at) {
            Ok(()) => {
                self.held.clear();
                self.at = 0;
                Ok(())
            }
            Err(fault) => Err(fault),
        }
    }

    /// Hands on what is held where that is enough.
    fn make_room(&mut self) -> Result<(), SinkFault>
        requires { K.can_write self.old.sink }
        ensures goes_on { OnOk result (K.can_write self.new.sink) }
        ensures handed { IsHandedOn K.faults K.written result self.old.sink self.old.held
            self.new.sink self.new.held }
    {
        if self.held.len() < ENOUGH {
            return Ok(());
        }
        self.flush()
    }

    /// Holds a piece too.
    #[tactic(auto, using(crate::proofs::Bytes::drop_front))]
    fn hold(&mut self, piece: &[u8]) -> Result<(), AllocError>
        ensures sink { self.new.sink ≡ self.old.sink }
        ensures held { OnOk result (self.new.held ≡ self.old.held ++ piece.now) }
        ensures err { OnErr result (self.new.held ≡ self.old.held) }
    {
        self.held.extend_from_slice(piece)
    }

    /// Hands on what is held at the end of a run, and says how the run ended then. A sink that
    /// failed isn't asked again.
    pub fn finish<T: ProgramStatus>(&mut self, status: T) -> T
        requires { K.can_write self.old.sink }
        // Either the sink has all that was written, and the status stands, or the fault is told.
        ensures all { T.says result ≢ Ending.WriteFault → T.says result ≢ Ending.NoMemory
            → (result ≡ status) × (K.written self.new.sink
            ≡ with_bytes (K.written self.old.sink) self.old.held) }
        ensures failed { T.says status ≢ Ending.WriteFault → T.says result ≡ Ending.WriteFault
            → Rose (K.faults self.old.sink) (K.faults self.new.sink) }
        ensures sound { T.says result ≢ Ending.WriteFault
            → K.faults self.new.sink ≡ K.faults self.old.sink }
        ensures asked { T.says status ≡ Ending.WriteFault → self.new ≡ self.old }
    {
        if status.ending() == Ending::WriteFault {
            return status;
        }
        match self.flush() {
            Ok(()) => status,
            Err(SinkFault::Failed) => T::write_fault(),
            Err(SinkFault::NoMemory) => T::no_memory(),
        }
    }
}

impl<K: Sink> Sink for BufferedSink<K> {
    ghost written = { λ s. with_bytes (K.written s.sink) s.held };

    ghost faults = { λ s. K.faults s.sink };

    ghost can_write = { λ s. K.can_write s.sink };

    #[tactic(auto, using(crate::proofs::Pieces::held_gains))]
    fn write(&mut self, piece: &[u8]) -> Result<usize, SinkFault> {
        match self.make_room() {
            Ok(()) => match self.hold(piece) {
                Ok(()) => Ok(piece.len()),
                Err(_) => Err(SinkFault::NoMemory),
            },
            Err(fault) => Err(fault),
        }
    }
}
