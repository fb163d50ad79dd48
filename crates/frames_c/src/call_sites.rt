//! What a table of call sites says of an exception.

ghost use Rattle.std.specs.Prelude.{◌≡◌};
ghost use Rattle.frames_c.specs.CallSiteTables.{
  verdict_numbers,
  fault_numbers,
  call_sites_told,
  verdict_told_at,
};

use raise_phases::{LsdaFault, Verdict, verdict};

/// Where an exception goes on, or why its table doesn't say. What the outcome hasn't is 0.
#[repr(C)]
#[derive(Clone, Copy)]
pub struct FramesVerdict {
    pub outcome: u64,
    /// The address at which a cleanup or a handler stands.
    pub pad: u64,
    /// What a handler is told of its type.
    pub filter: u64,
    /// The place that is refused, among the table's bytes.
    pub at: u64,
    pub byte: u64,
}

impl FramesVerdict {
    fn new(outcome: u64, pad: u64, filter: u64) -> FramesVerdict
        ensures { result ≡ verdict_numbers outcome pad filter }
    {
        FramesVerdict {
            outcome,
            pad,
            filter,
            at: 0,
            byte: 0,
        }
    }

    fn refused(outcome: u64, at: usize, byte: u8) -> FramesVerdict
        ensures { result ≡ fault_numbers outcome at byte }
    {
        FramesVerdict {
            outcome,
            pad: 0,
            filter: 0,
            at: at as u64,
            byte: byte as u64,
        }
    }

    fn of(verdict: Result<Verdict, LsdaFault>) -> FramesVerdict
        ensures { result ≡ call_sites_told verdict }
    {
        match verdict {
            Ok(Verdict::Continue) => FramesVerdict::new(0, 0, 0),
            Ok(Verdict::Cleanup { pad }) => FramesVerdict::new(1, pad, 0),
            Ok(Verdict::Handler { pad, filter }) => FramesVerdict::new(2, pad, filter),
            Ok(Verdict::Terminate) => FramesVerdict::new(3, 0, 0),
            Err(LsdaFault::Short { at }) => FramesVerdict::refused(4, at, 0),
            Err(LsdaFault::TooWide { at }) => FramesVerdict::refused(5, at, 0),
            Err(LsdaFault::Encoding { at, byte }) => FramesVerdict::refused(6, at, byte),
            Err(LsdaFault::Filter { at }) => FramesVerdict::refused(7, at, 0),
            Err(LsdaFault::Chain { at }) => FramesVerdict::refused(8, at, 0),
            Err(LsdaFault::TypeEntry { at }) => FramesVerdict::refused(9, at, 0),
        }
    }

    /// The verdict of a table whose function starts at `first`.
    fn at(first: u64, address: u64, bytes: &[u8], look: u64, kind: u64) -> FramesVerdict
        ensures { result ≡ verdict_told_at first address bytes.now look kind }
    {
        if first <= look {
            FramesVerdict::of(verdict(first, address, bytes, look, kind))
        } else {
            FramesVerdict::refused(10, 0, 0)
        }
    }
}

/// Tells what the table of call sites whose bytes stand at an address, of the function that starts
/// at `first`, says of an exception of a kind at the address `look`. The outcome is 0 where it goes
/// on to the caller, 1 after a cleanup, 2 where it is caught, 3 where it may not pass, 4 to 9 where
/// the table has no verdict, 10 where the address is below the function.
#[unsafe(no_mangle)]
pub extern "C" fn frames_c_verdict(
    first: u64,
    address: u64,
    bytes: &[u8],
    look: u64,
    kind: u64,
    out: &mut FramesVerdict,
) -> u64
    ensures verdict { out.new ≡ verdict_told_at first address bytes.now look kind }
    ensures outcome { result ≡ out.new.outcome }
{
    let told = FramesVerdict::at(first, address, bytes, look, kind);
    *out = told;
    told.outcome
}
