//! Devices that never fail: those that hand out and take all at once, and those of one byte at a
//! time.

ghost use Rattle.std.specs.Prelude.{None};

use crate::playing::{ONE_RANGE, ONE_RANGE_JOURNAL, run_text, words_of};
use run_engine::{BufferedSink, Failed, NoGate, Sink, SinkFault, Source, Status, run};
use std::test::Fail;

#[test]
fn all_at_once(rt: HostRuntime) -> Result<(), Fail> {
    let alloc = rt.alloc();
    let (status, sink) = run_text(&rt, alloc, "run", ONE_RANGE, &NoGate)?;
    assert!(rt; status == Status::Done);
    assert!(rt; sink.bytes() == ONE_RANGE_JOURNAL.as_bytes());
    Ok(())
}

/// Hands out one byte at a time.
#[derive(Drop)]
struct SlowSource {
    bytes: Vec<u8>,
    at: usize,
}

impl Source for SlowSource {
    ghost remaining = { λ _. None };

    ghost faults = { λ _. 0 };

    ghost can_read = { λ _. Unit {0} };

    fn read(&mut self, buffer: &mut [u8]) -> Result<usize, Failed> {
        match (buffer.first_mut(), self.bytes.get(self.at)) {
            (Some(first), Some(byte)) => {
                *first = *byte;
                self.at += 1;
                Ok(1)
            }
            _ => Ok(0),
        }
    }
}

/// Takes one byte at a time.
#[derive(Drop)]
struct SlowSink {
    bytes: Vec<u8>,
}

impl Sink for SlowSink {
    ghost written = { λ _. None };

    ghost faults = { λ _. 0 };

    fn write(&mut self, piece: &[u8]) -> Result<usize, SinkFault> {
        match piece.first() {
            None => Ok(0),
            Some(byte) => match self.bytes.push(*byte) {
                Ok(()) => Ok(1),
                Err(_) => Err(SinkFault::NoMemory),
            },
        }
    }
}

#[test]
fn one_byte_at_a_time(rt: HostRuntime) -> Result<(), Fail> {
    let alloc = rt.alloc();
    let words = words_of(alloc, "run")?;
    let mut source = SlowSource {
        bytes: ONE_RANGE.as_bytes().to_vec(alloc)?,
        at: 0,
    };
    let mut sink = SlowSink {
        bytes: Vec::new(alloc),
    };
    let status = run(&rt, alloc, &words, &mut source, &mut sink, &NoGate);
    assert!(rt; status == Status::Done);
    assert!(rt; sink.bytes.as_slice() == ONE_RANGE_JOURNAL.as_bytes());
    Ok(())
}

#[test]
fn held_bytes_are_handed_on_at_the_end(rt: HostRuntime) -> Result<(), Fail> {
    let alloc = rt.alloc();
    let slow = SlowSink {
        bytes: Vec::new(alloc),
    };
    let mut sink = BufferedSink::new(alloc, slow);
    let mut wanted = Vec::new(alloc);
    for _ in 0..2_000 {
        assert!(rt; sink.write(b"one line\n") == Ok(9));
        wanted.extend_from_slice(b"one line\n")?;
    }
    let early = sink.sink().bytes.len();
    assert!(rt; 0 < early && early < wanted.len());
    assert!(rt; sink.finish(Status::Done) == Status::Done);
    assert!(rt; sink.sink().bytes.as_slice() == wanted.as_slice());
    Ok(())
}
