//! Devices of which one call fails, each in turn.

ghost use Rattle.std.specs.Prelude.{◌-◌, ◌^◌, None};

use crate::playing::{ONE_RANGE, ONE_RANGE_JOURNAL, words_of};
use run_engine::{
    BufferedSink, MemorySink, MemorySource, NoGate, Sink, SinkFault, Status, SureSource, run,
};
use std::alloc::Global;
use std::test::Fail;

/// A script of three pieces of 16,384 bytes at most, the last of which is not full.
fn three_pieces(alloc: Global) -> Result<Vec<u8>, Fail> {
    let mut text = b"frames 1\nnodes 4\nloads 1\nround\nthread\n".to_vec(alloc)?;
    for _ in 0..4_000 {
        text.extend_from_slice(b"find 1010\n")?;
    }
    text.extend_from_slice(b"end\n")?;
    Ok(text)
}

#[test]
fn failed_reads_write_nothing(rt: HostRuntime) -> Result<(), Fail> {
    let alloc = rt.alloc();
    let words = words_of(alloc, "run")?;
    // The fourth read would have found the end, and there is no fifth one.
    for (read, wanted) in [
        (1, Status::ReadFault),
        (2, Status::ReadFault),
        (3, Status::ReadFault),
        (4, Status::ReadFault),
        (5, Status::Done),
    ] {
        let mut source = MemorySource::new(three_pieces(alloc)?, vec![in alloc; read]?);
        let mut sink = MemorySink::new(alloc, Vec::new(alloc));
        let status = run(&rt, alloc, &words, &mut source, &mut sink, &NoGate);
        assert!(rt; status == wanted, "with read {read} failing");
        let is_empty = sink.bytes().is_empty();
        assert!(rt;
            is_empty == (wanted == Status::ReadFault),
            "with read {read} failing"
        );
    }
    Ok(())
}

/// Takes all that is offered but at one call, and counts the calls.
#[derive(Drop)]
struct CountingSink {
    bytes: Vec<u8>,
    calls: u32,
    /// The call that fails, counted from 1.
    failing: u32,
    fault: SinkFault,
}

impl Sink for CountingSink {
    ghost written = { λ _. None };

    ghost faults = { λ _. 2 ^ 64 - 1 };

    fn write(&mut self, piece: &[u8]) -> Result<usize, SinkFault> {
        self.calls = self.calls.saturating_add(1);
        if self.calls == self.failing {
            return Err(self.fault);
        }
        match self.bytes.extend_from_slice(piece) {
            Ok(()) => Ok(piece.len()),
            Err(_) => Err(SinkFault::NoMemory),
        }
    }
}

/// Of the case one_range, how many bytes the lines have before each of the six; and of the summary
/// of `gen 1` those before its third line.
const BEFORE: [(&str, u32, usize); 7] = [
    ("run", 1, 0),
    ("run", 2, 24),
    ("run", 3, 58),
    ("run", 4, 112),
    ("run", 5, 149),
    ("run", 6, 203),
    ("gen 1", 3, 20),
];

#[test]
fn a_sink_that_failed_is_not_asked_again(rt: HostRuntime) -> Result<(), Fail> {
    let alloc = rt.alloc();
    for (line, failing, left) in BEFORE {
        let words = words_of(alloc, line)?;
        for (fault, wanted) in [
            (SinkFault::Failed, Status::WriteFault),
            (SinkFault::NoMemory, Status::NoMemory),
        ] {
            let mut source = SureSource::new(ONE_RANGE.as_bytes().to_vec(alloc)?);
            let mut sink = CountingSink {
                bytes: Vec::new(alloc),
                calls: 0,
                failing,
                fault,
            };
            let status = run(&rt, alloc, &words, &mut source, &mut sink, &NoGate);
            assert!(rt; status == wanted, "{line} with write {failing} failing");
            assert!(rt;
                sink.calls == failing,
                "{line} with write {failing} failing"
            );
            assert!(rt;
                sink.bytes.len() == left,
                "{line} with write {failing} failing"
            );
        }
    }
    Ok(())
}

#[test]
fn failed_writes_leave_the_lines_before(rt: HostRuntime) -> Result<(), Fail> {
    let alloc = rt.alloc();
    let words = words_of(alloc, "run")?;
    // The journal has six lines, so there is no seventh write.
    for (write, wanted) in [(4, Status::WriteFault), (7, Status::Done)] {
        let mut source = MemorySource::new(ONE_RANGE.as_bytes().to_vec(alloc)?, Vec::new(alloc));
        let mut sink = MemorySink::new(alloc, vec![in alloc; write]?);
        let status = run(&rt, alloc, &words, &mut source, &mut sink, &NoGate);
        assert!(rt; status == wanted, "with write {write} failing");
        let lines = ONE_RANGE_JOURNAL.as_bytes();
        let front = if write == 4 { &lines[..112] } else { lines };
        assert!(rt; sink.bytes() == front, "with write {write} failing");
    }
    Ok(())
}

#[test]
fn a_failed_flush_is_a_failed_write(rt: HostRuntime) -> Result<(), Fail> {
    let alloc = rt.alloc();
    let words = words_of(alloc, "run")?;
    for (fault, wanted) in [
        (SinkFault::Failed, Status::WriteFault),
        (SinkFault::NoMemory, Status::NoMemory),
    ] {
        let counting = CountingSink {
            bytes: Vec::new(alloc),
            calls: 0,
            failing: 1,
            fault,
        };
        let mut sink = BufferedSink::new(alloc, counting);
        let mut source = SureSource::new(ONE_RANGE.as_bytes().to_vec(alloc)?);
        let status = run(&rt, alloc, &words, &mut source, &mut sink, &NoGate);
        assert!(rt; status == Status::Done);
        assert!(rt; sink.finish(status) == wanted);
        assert!(rt; sink.finish(Status::WriteFault) == Status::WriteFault);
        assert!(rt; sink.sink().calls == 1);
    }
    Ok(())
}
