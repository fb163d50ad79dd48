//! Writes pieces to a sink.

ghost use Rattle.std.specs.Prelude.{◌≡◌, ◌≢◌, ◌≤◌, length, drop, map, OnOk, OnErr, Err};
ghost use Rattle.std.specs.List.{flat_map};
ghost use Rattle.run_ports.specs.Devices.{IsHandedOn};
ghost use Rattle.run_ports.specs.Ports.{Rose, Gains, GainsPart};

use crate::ports::{Sink, SinkFault};

/// Offers the bytes from a place on until the sink has taken them. The place goes on with what it
/// took. A sink that failed is not asked again.
pub fn hand_on<K: Sink>(sink: &mut K, bytes: &[u8], at: &mut usize) -> Result<(), SinkFault>
    requires within { at.old ≤ length bytes.now }
    requires sink { K.can_write sink.old }
    ensures within { at.new ≤ length bytes.now }
    ensures all { OnOk result (at.new ≡ length bytes.now) }
    ensures goes_on { OnOk result (K.can_write sink.new) }
    ensures handed { IsHandedOn K.faults K.written result sink.old (drop at.old bytes.now) sink.new
        (drop at.new bytes.now) }
{
    while *at < bytes.len() {
        match sink.write(&bytes[*at..]) {
            Ok(count) => *at += count,
            Err(fault) => return Err(fault),
        }
    }
    Ok(())
}

/// Writes a piece: what the sink leaves of it is offered again.
pub fn write_piece<K: Sink>(sink: &mut K, piece: &[u8]) -> Result<(), SinkFault>
    requires { K.can_write sink.old }
    ensures goes_on { OnOk result (K.can_write sink.new) }
    ensures ok { OnOk result (Gains (K.written sink.old) (K.written sink.new) piece.now) }
    ensures err { OnErr result (GainsPart (K.written sink.old) (K.written sink.new) piece.now) }
    ensures failed { result ≡ Err SinkFault.Failed → Rose (K.faults sink.old) (K.faults sink.new) }
    ensures sound { result ≢ Err SinkFault.Failed → K.faults sink.new ≡ K.faults sink.old }
{
    let mut at = 0;
    hand_on(sink, piece, &mut at)
}

/// Writes lines, a piece for each.
pub fn write_lines<K: Sink>(sink: &mut K, lines: &[Vec<u8>]) -> Result<(), SinkFault>
    requires { K.can_write sink.old }
    ensures ok { OnOk result (Gains (K.written sink.old) (K.written sink.new)
        (flat_map (λ line. line) (map (λ line. line.items) lines.now))) }
    ensures err { OnErr result (GainsPart (K.written sink.old) (K.written sink.new)
        (flat_map (λ line. line) (map (λ line. line.items) lines.now))) }
    ensures failed { result ≡ Err SinkFault.Failed → Rose (K.faults sink.old) (K.faults sink.new) }
    ensures sound { result ≢ Err SinkFault.Failed → K.faults sink.new ≡ K.faults sink.old }
{
    for line in lines {
        match write_piece(sink, line) {
            Ok(()) => {}
            Err(fault) => return Err(fault),
        }
    }
    Ok(())
}
