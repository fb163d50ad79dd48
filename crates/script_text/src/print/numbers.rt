//! Numbers in a text, without a formatter.

ghost use Rattle.std.specs.Prelude.{◌≡◌, ◌+◌, ◌/◌, ◌%◌, ◌≤◌, ◌∷◌, ◌++◌, false, length};
ghost use Rattle.std.specs.Prelude.{OnOk, decimal, drop};
ghost use Rattle.std.specs.Fmt.{digit_glyph};
ghost use Rattle.std.specs.String.{string_bytes};
ghost use Rattle.script_text.specs.Digits.{hex};

use itoa::Buffer;
use std::alloc::AllocError;

/// Adds a number in decimal digits.
pub fn put_decimal(text: &mut String, number: usize) -> Result<(), AllocError>
    ensures { OnOk result (string_bytes text.new ≡ string_bytes text.old ++ decimal number) }
{
    let mut digits = Buffer::new();
    text.push_str(digits.format(number))
}

/// Adds a word and a number in decimal digits.
pub fn put_decimal_after(text: &mut String, word: &str, number: usize) -> Result<(), AllocError>
    ensures { OnOk result (string_bytes text.new
        ≡ string_bytes text.old ++ (word.now ++ decimal number)) }
{
    text.push_str(word)?;
    put_decimal(text, number)
}

/// Writes a number's hexadecimal digits so that they end at a place of the room, and says where
/// they start.
pub fn write_hex(number: u64, room: &mut [u8], end: usize) -> usize
    requires { (length (hex number) ≤ end) × (end ≤ length room.old) }
    ensures start { result + length (hex number) ≡ end }
    ensures written { drop result room.new ≡ hex number ++ drop end room.old }
{
    let mut left = number;
    let mut at = end;
    while left >= 256 {
        write_pair((left % 256) as u8, room, at - 2);
        left /= 256;
        at -= 2;
    }
    write_first(left as u8, room, at)
}

/// Writes the two digits of a byte at a place of the room.
#[inline(always)]
fn write_pair(byte: u8, room: &mut [u8], at: usize)
    requires { at + 2 ≤ length room.old }
    ensures { drop at room.new
        ≡ digit_glyph false (byte / 16) ∷ digit_glyph false (byte % 16) ∷ drop (at + 2) room.old }
{
    let from = byte as usize * 2;
    let (high, low) = (HEX_PAIRS[from], HEX_PAIRS[from + 1]);
    room[at] = high;
    room[at + 1] = low;
}

/// Writes the first digits of a number, one or two.
#[inline(always)]
fn write_first(byte: u8, room: &mut [u8], end: usize) -> usize
    requires { (length (hex byte) ≤ end) × (end ≤ length room.old) }
    ensures start { result + length (hex byte) ≡ end }
    ensures written { drop result room.new ≡ hex byte ++ drop end room.old }
{
    if byte < 16 {
        room[end - 1] = HEX_PAIRS[byte as usize * 2 + 1];
        return end - 1;
    }
    write_pair(byte, room, end - 2);
    end - 2
}

/// The two digits of each byte, in lower case.
static HEX_PAIRS: [u8; 512] = *b"\
    000102030405060708090a0b0c0d0e0f101112131415161718191a1b1c1d1e1f\
    202122232425262728292a2b2c2d2e2f303132333435363738393a3b3c3d3e3f\
    404142434445464748494a4b4c4d4e4f505152535455565758595a5b5c5d5e5f\
    606162636465666768696a6b6c6d6e6f707172737475767778797a7b7c7d7e7f\
    808182838485868788898a8b8c8d8e8f909192939495969798999a9b9c9d9e9f\
    a0a1a2a3a4a5a6a7a8a9aaabacadaeafb0b1b2b3b4b5b6b7b8b9babbbcbdbebf\
    c0c1c2c3c4c5c6c7c8c9cacbcccdcecfd0d1d2d3d4d5d6d7d8d9dadbdcdddedf\
    e0e1e2e3e4e5e6e7e8e9eaebecedeeeff0f1f2f3f4f5f6f7f8f9fafbfcfdfeff";
