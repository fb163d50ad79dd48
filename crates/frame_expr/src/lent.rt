//! Memory that a caller lends.

ghost use Rattle.std.specs.Prelude.{◌≡◌, [], ◌∷◌, Some, None, if◌then◌else◌};
ghost use Rattle.byteorder.specs.Endian.{little_number};
ghost use Rattle.frame_expr.specs.Regions.{holds_bytes, tail_in, word_at};

use crate::source::WordSource;
use byteorder::{ByteOrder, LittleEndian};

/// Bytes that a caller lends, from an address on. Nothing is copied, and any address is one: what
/// would stand past the last address isn't found.
#[derive(Clone, Copy)]
pub struct Lent<'a> {
    pub address: u64,
    pub bytes: &'a [u8],
}

impl<'a> WordSource for Lent<'a> {
    ghost regions = { λ l. record { address = l.address; bytes = l.bytes.now } ∷ [] };

    #[inline(always)]
    fn word(&self, address: u64) -> Option<u64> {
        lent_word(self.address, self.bytes, address)
    }
}

/// The eight bytes at an address, where they all stand among those from `first` on.
#[inline(always)]
fn lent_word(first: u64, bytes: &[u8], address: u64) -> Option<u64>
    ensures { result ≡ word_at address (record { address = first; bytes = bytes.now } ∷ []) }
{
    word_from(first, bytes, address)
}

/// The eight bytes at an address as a number, where a region holds all eight.
#[inline(always)]
pub(crate) fn word_from(first: u64, bytes: &[u8], address: u64) -> Option<u64>
    ensures { result ≡ (if holds_bytes 8 address (record { address = first; bytes = bytes.now })
        then Some (little_number 8 (tail_in address (record {
          address = first;
          bytes = bytes.now;
        }))) else None) }
{
    if address < first || bytes.len() < 8 {
        return None;
    }
    let place = address - first;
    if place > bytes.len() as u64 - 8 {
        return None;
    }
    Some(LittleEndian::read_u64(&bytes[place as usize..]))
}
