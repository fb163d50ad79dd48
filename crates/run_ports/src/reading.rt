//! Takes a source to its end.

ghost use Rattle.std.specs.Prelude.{◌≡◌, ◌≢◌, ℕ, ◌+◌, ◌≤◌, List, [], ◌++◌, IfOk, IfSome, OnOk};
ghost use Rattle.std.specs.Prelude.{Err, vec_len};
ghost use Rattle.run_ports.specs.Ports.{Rose, Hands, HandsUpTo};
ghost use Rattle.run_ports.specs.Takers.{Came};
ghost use Rattle.run_ports.specs.declared.reading.TakeFault.TheVariants.{NoMemory};

use crate::ports::{Failed, Source};
use std::alloc::{AllocError, Global};

/// The greatest length of a script that a program takes, in bytes.
pub const SCRIPT_LIMIT: usize = 8_388_608;

/// How many bytes are asked of a source at a time.
const PIECE: usize = 16_384;

/// Why the bytes of a source were not taken.
#[derive(Clone, Copy, Debug, PartialEq, Eq)]
pub enum TakeFault {
    Failed,
    NoMemory,
}

impl From<AllocError> for TakeFault {
    ghost from_gives = { λ _ e. e ≡ NoMemory };

    fn from(_e: AllocError) -> TakeFault {
        TakeFault::NoMemory
    }
}

/// How much of a source was taken.
#[derive(Clone, Copy, Debug, PartialEq, Eq)]
pub enum Taken {
    /// All of its bytes, up to its end.
    Whole,
    /// One byte more than the limit.
    TooLong,
}

/// Takes bytes as they come, piece after piece.
pub trait Taker {
    /// It has taken these bytes.
    ghost has_taken: { Self → List ℕ → Type 0 };

    /// Takes a piece behind those before. An `Err` is want of memory.
    fn take(&mut self, piece: &[u8]) -> Result<(), AllocError>
        ensures { OnOk result ((bytes : List ℕ) → has_taken self.old bytes
            → has_taken self.new (bytes ++ piece.now)) };
}

impl Taker for Vec<u8> {
    ghost has_taken = { λ vec bytes. vec.items ≡ bytes };

    fn take(&mut self, piece: &[u8]) -> Result<(), AllocError> {
        self.extend_from_slice(piece)
    }
}

/// Hands the bytes of a source on to a taker as they are read, up to the source's end, or one more
/// of them than the limit. A source that failed, or said its end, is not asked again.
pub fn hand_up_to<S: Source, T: Taker>(
    source: &mut S,
    taker: &mut T,
    limit: usize,
) -> Result<Taken, TakeFault>
    requires source { S.can_read source.old }
    requires taker { T.has_taken taker.old [] }
    ensures came { IfOk result (Came limit (T.has_taken taker.new)
        (S.remaining source.old) (S.remaining source.new)) }
    ensures taken { HandsUpTo (limit + 1) (S.remaining source.old) (S.remaining source.new) }
    ensures failed { result ≡ Err TakeFault.Failed
        → Rose (S.faults source.old) (S.faults source.new) }
    ensures sound { result ≢ Err TakeFault.Failed → S.faults source.new ≡ S.faults source.old }
{
    let mut left = limit;
    let mut buffer = [0u8; PIECE];
    'pieces: loop {
        let room = left.min(PIECE - 1) + 1;
        let count = match source.read(&mut buffer[..room]) {
            Ok(count) => count,
            Err(Failed) => return Err(TakeFault::Failed),
        };
        if count == 0 {
            return Ok(Taken::Whole);
        }
        taker.take(&buffer[..count])?;
        if count > left {
            return Ok(Taken::TooLong);
        }
        left -= count;
    }
}

/// The bytes of a source up to its end, or one more of them than the limit. A source that failed,
/// or said its end, is not asked again.
pub fn take_up_to<S: Source>(
    alloc: Global,
    source: &mut S,
    limit: usize,
) -> Result<Vec<u8>, TakeFault>
    requires { S.can_read source.old }
    ensures handed { IfOk result
        (λ bytes. Hands (S.remaining source.old) (S.remaining source.new) bytes.items) }
    ensures limit { IfOk result (λ bytes. vec_len bytes ≤ limit + 1) }
    ensures all { IfOk result
        (λ bytes. vec_len bytes ≤ limit
        → IfSome (S.remaining source.old) (λ had. had ≡ bytes.items)) }
    ensures taken { HandsUpTo (limit + 1) (S.remaining source.old) (S.remaining source.new) }
    ensures failed { result ≡ Err TakeFault.Failed
        → Rose (S.faults source.old) (S.faults source.new) }
    ensures sound { result ≢ Err TakeFault.Failed → S.faults source.new ≡ S.faults source.old }
{
    let mut bytes = Vec::new(alloc);
    hand_up_to(source, &mut bytes, limit)?;
    Ok(bytes)
}
