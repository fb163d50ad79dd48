//! Sources and sinks in memory, for tests and for promises about bytes.

ghost use Rattle.std.specs.Prelude.{◌≡◌, ◌≢◌, ℕ, ◌+◌, ◌-◌, ◌^◌, ◌<◌, ◌≤◌, ◌↔◌, ◌++◌, [], Some, Err};
ghost use Rattle.std.specs.Prelude.{IsTrue, IfOk, IsOk, IsErr, OnErr, Contains, length, min, take};
ghost use Rattle.std.specs.Prelude.{drop};
ghost use Rattle.run_ports.specs.Ports.{Rose};

use crate::ports::{Failed, Sink, SinkFault, Source};
use std::alloc::Global;
use std::marker::Model;

/// Bytes in memory, of which a read hands out so many at most, and some reads fail.
#[derive(Drop)]
pub struct MemorySource {
    bytes: Vec<u8>,
    at: usize,
    most: usize,
    fails: Vec<u32>,
    calls: u64,
    faults: u64,
}

impl Model for MemorySource {
    ghost use Rattle.std.specs.Prelude.{◌<◌, ◌≤◌, drop, vec_len};
    ghost use Rattle.run_ports.specs.Devices.{MemorySourceData};

    ghost Value = { MemorySourceData };

    ghost view = { λ s. record {
      rest = drop s.at s.bytes.items;
      most = s.most;
      fails = s.fails.items;
      calls = s.calls;
      faults = s.faults;
    } };

    ghost invariant = { λ s. (s.at ≤ vec_len s.bytes) × (0 < s.most) };
}

impl MemorySource {
    /// These bytes, of which the reads with these numbers fail, counted from 1. It takes no memory.
    pub fn new(bytes: Vec<u8>, fails: Vec<u32>) -> Self
        ensures { result ≡ record {
          rest = bytes.items;
          most = 2 ^ 64 - 1;
          fails = fails.items;
          calls = 0;
          faults = 0;
        } }
    {
        MemorySource::in_pieces(bytes, fails, usize::MAX)
    }

    /// The same, and a read hands out so many bytes at most.
    pub fn in_pieces(bytes: Vec<u8>, fails: Vec<u32>, most: usize) -> Self
        requires { 0 < most }
        ensures { result ≡ record {
          rest = bytes.items;
          most = most;
          fails = fails.items;
          calls = 0;
          faults = 0;
        } }
    {
        MemorySource {
            bytes,
            at: 0,
            most,
            fails,
            calls: 0,
            faults: 0,
        }
    }
}

impl Source for MemorySource {
    ghost remaining = { λ s. Some s.rest };

    ghost faults = { λ s. s.faults };

    ghost can_read = { λ _. Unit {0} };

    fn read(&mut self, buffer: &mut [u8]) -> Result<usize, Failed>
        ensures count { IfOk result (λ count. count ≤ length buffer.old) }
        ensures bytes { IfOk result
            (λ count. self.old.rest ≡ take count buffer.new ++ self.new.rest) }
        ensures end { IfOk result
            (λ count. count ≡ 0 → 0 < length buffer.old → self.old.rest ≡ []) }
        ensures err { IsErr result → Rose self.old.faults self.new.faults }
        ensures counted { self.old.faults ≤ self.new.faults }

        // The reads are counted, and those fail whose number is listed. Any other hands out all
        // that fits, and no more than may be.
        ensures call { self.new.calls ≡ min (self.old.calls + 1) (2 ^ 64 - 1) }
        ensures fails { IsErr result ↔ Contains self.old.fails self.new.calls }
        ensures all { IfOk result
            (λ count. count ≡ min self.old.most (min (length self.old.rest) (length buffer.old))) }
        ensures kept { OnErr result (self.new.rest ≡ self.old.rest) }
        ensures fault { OnErr result (self.new.faults ≡ min (self.old.faults + 1) (2 ^ 64 - 1)) }
        ensures sound { IfOk result (λ _. self.new.faults ≡ self.old.faults) }
        ensures listed { self.new.fails ≡ self.old.fails }
        ensures most { self.new.most ≡ self.old.most }
    {
        self.calls = self.calls.saturating_add(1);
        if is_listed(&self.fails, self.calls) {
            self.faults = self.faults.saturating_add(1);
            return Err(Failed);
        }
        let count = copy_front(&self.bytes, self.at, buffer, self.most);
        self.at += count;
        Ok(count)
    }
}

/// Whether the call with this number is one of those that fail.
fn is_listed(fails: &[u32], call: u64) -> bool
    ensures { IsTrue result ↔ Contains fails.now call }
{
    fails.iter().any(|number| u64::from(*number) == call)
}

/// Copies what fits of the bytes from a place on to the front of the buffer, so many at most, and
/// says how many.
fn copy_front(bytes: &[u8], at: usize, buffer: &mut [u8], most: usize) -> usize
    requires { at ≤ length bytes.now }
    ensures count { result ≡ min most (min (length bytes.now - at) (length buffer.old)) }
    ensures copied { take result buffer.new ≡ take result (drop at bytes.now) }
{
    let count = most.min((bytes.len() - at).min(buffer.len()));
    buffer[..count].copy_from_slice(&bytes[at..at + count]);
    count
}

/// Bytes in memory, of which no read fails.
#[derive(Drop)]
pub struct SureSource {
    bytes: Vec<u8>,
    at: usize,
}

impl Model for SureSource {
    ghost use Rattle.std.specs.Prelude.{ℕ, ◌≤◌, List, drop, vec_len};

    ghost Value = { List ℕ };

    ghost view = { λ s. drop s.at s.bytes.items };

    ghost invariant = { λ s. s.at ≤ vec_len s.bytes };
}

impl SureSource {
    /// These bytes. It takes no memory.
    pub fn new(bytes: Vec<u8>) -> Self
        ensures { result ≡ bytes.items }
    {
        SureSource { bytes, at: 0 }
    }
}

impl Source for SureSource {
    ghost remaining = { λ s. Some s };

    ghost faults = { λ _. 0 };

    ghost can_read = { λ _. Unit {0} };

    fn read(&mut self, buffer: &mut [u8]) -> Result<usize, Failed>
        ensures count { IfOk result (λ count. count ≤ length buffer.old) }
        ensures bytes { IfOk result (λ count. self.old ≡ take count buffer.new ++ self.new) }
        ensures end { IfOk result (λ count. count ≡ 0 → 0 < length buffer.old → self.old ≡ []) }

        // Each read hands out all that fits.
        ensures never { IsOk result }
        ensures all { IfOk result (λ count. count ≡ min (length self.old) (length buffer.old)) }
    {
        let count = copy_front(&self.bytes, self.at, buffer, usize::MAX);
        self.at += count;
        Ok(count)
    }
}

/// A list of bytes, to which a write adds so many at most, and of which some writes fail.
#[derive(Drop)]
pub struct MemorySink {
    bytes: Vec<u8>,
    most: usize,
    fails: Vec<u32>,
    calls: u64,
    faults: u64,
}

impl Model for MemorySink {
    ghost use Rattle.std.specs.Prelude.{◌<◌};
    ghost use Rattle.run_ports.specs.Devices.{MemorySinkData};

    ghost Value = { MemorySinkData };

    ghost view = { λ s. record {
      bytes = s.bytes.items;
      most = s.most;
      fails = s.fails.items;
      calls = s.calls;
      faults = s.faults;
    } };

    ghost invariant = { λ s. 0 < s.most };
}

impl MemorySink {
    /// Nothing yet; the writes with these numbers will fail, counted from 1. It takes no memory.
    pub fn new(alloc: Global, fails: Vec<u32>) -> Self
        ensures { result ≡ record {
          bytes = [];
          most = 2 ^ 64 - 1;
          fails = fails.items;
          calls = 0;
          faults = 0;
        } }
    {
        MemorySink::in_pieces(alloc, fails, usize::MAX)
    }

    /// The same, and a write takes so many bytes at most.
    pub fn in_pieces(alloc: Global, fails: Vec<u32>, most: usize) -> Self
        requires { 0 < most }
        ensures { result ≡ record {
          bytes = [];
          most = most;
          fails = fails.items;
          calls = 0;
          faults = 0;
        } }
    {
        MemorySink {
            bytes: Vec::new(alloc),
            most,
            fails,
            calls: 0,
            faults: 0,
        }
    }

    /// What was written.
    pub fn bytes(&self) -> &[u8]
        ensures { result.now ≡ self.now.bytes }
    {
        &self.bytes
    }
}

impl Sink for MemorySink {
    ghost written = { λ s. Some s.bytes };

    ghost faults = { λ s. s.faults };

    fn write(&mut self, piece: &[u8]) -> Result<usize, SinkFault>
        ensures count { IfOk result (λ count. count ≤ length piece.now) }
        ensures some { IfOk result (λ count. 0 < length piece.now → 0 < count) }
        ensures bytes { IfOk result
            (λ count. self.new.bytes ≡ self.old.bytes ++ take count piece.now) }
        ensures err { OnErr result (self.new.bytes ≡ self.old.bytes) }
        ensures failed { result ≡ Err SinkFault.Failed → Rose self.old.faults self.new.faults }
        ensures counted { self.old.faults ≤ self.new.faults }

        // The writes are counted, and those fail whose number is listed. Any other takes the whole
        // piece, or as much of it as may be, unless memory is wanted.
        ensures call { self.new.calls ≡ min (self.old.calls + 1) (2 ^ 64 - 1) }
        ensures fails { (result ≡ Err SinkFault.Failed) ↔ Contains self.old.fails self.new.calls }
        ensures all { IfOk result (λ count. count ≡ min self.old.most (length piece.now)) }
        ensures fault { result ≡ Err SinkFault.Failed
            → self.new.faults ≡ min (self.old.faults + 1) (2 ^ 64 - 1) }
        ensures sound { result ≢ Err SinkFault.Failed → self.new.faults ≡ self.old.faults }
        ensures listed { self.new.fails ≡ self.old.fails }
        ensures most { self.new.most ≡ self.old.most }
    {
        self.calls = self.calls.saturating_add(1);
        if is_listed(&self.fails, self.calls) {
            self.faults = self.faults.saturating_add(1);
            return Err(SinkFault::Failed);
        }
        let count = self.most.min(piece.len());
        match self.bytes.extend_from_slice(&piece[..count]) {
            Ok(()) => Ok(count),
            Err(_) => Err(SinkFault::NoMemory),
        }
    }
}

/// A list of bytes, of which no write fails.
#[derive(Drop)]
pub struct SureSink {
    bytes: Vec<u8>,
}

impl Model for SureSink {
    ghost use Rattle.std.specs.Prelude.{ℕ, List};

    ghost Value = { List ℕ };

    ghost view = { λ s. s.bytes.items };
}

impl SureSink {
    /// Nothing yet. It takes no memory.
    pub fn new(alloc: Global) -> Self
        ensures { result ≡ [] }
    {
        SureSink {
            bytes: Vec::new(alloc),
        }
    }

    /// What was written.
    pub fn bytes(&self) -> &[u8]
        ensures { result.now ≡ self.now }
    {
        &self.bytes
    }
}

impl Sink for SureSink {
    ghost written = { λ s. Some s };

    ghost faults = { λ _. 0 };

    fn write(&mut self, piece: &[u8]) -> Result<usize, SinkFault>
        ensures count { IfOk result (λ count. count ≤ length piece.now) }
        ensures some { IfOk result (λ count. 0 < length piece.now → 0 < count) }
        ensures bytes { IfOk result (λ count. self.new ≡ self.old ++ take count piece.now) }
        ensures err { OnErr result (self.new ≡ self.old) }

        // Each write takes the whole piece, unless memory is wanted.
        ensures never { result ≢ Err SinkFault.Failed }
        ensures all { IfOk result (λ count. count ≡ length piece.now) }
    {
        match self.bytes.extend_from_slice(piece) {
            Ok(()) => Ok(piece.len()),
            Err(_) => Err(SinkFault::NoMemory),
        }
    }
}
