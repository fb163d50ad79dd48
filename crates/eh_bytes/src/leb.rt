//! LEB128 numbers of any length. Those of one byte are read before.

ghost use Rattle.eh_bytes.specs.CursorData.{first_below};
ghost use Rattle.std.specs.Prelude.{◌≡◌, ◌^◌, ◌<◌, ◌≤◌, length, Some, None, IfSome, nat_lt};
ghost use Rattle.std.specs.Prelude.{if◌then◌else◌};
ghost use Rattle.eh_bytes.specs.Leb.{leb_len, uleb_value, signed_digit, sleb_value, fits_signed};

/// How many bytes stand before the first below a bound, or `None` where there is none.
#[inline]
pub(crate) fn first_below(bytes: &[u8], bound: u8) -> Option<usize>
    ensures first { result ≡ first_below bound bytes.now }
    ensures within { IfSome result (λ n. n < length bytes.now) }
{
    for (i, b) in bytes.iter().enumerate() {
        if *b < bound {
            return Some(i);
        }
    }
    None
}

/// How many bytes the number at the front has, or `None` where its last byte is not there.
pub(crate) fn leb_length(bytes: &[u8]) -> Option<usize>
    ensures length { result ≡ leb_len bytes.now }
    ensures within { IfSome result (λ n. (0 < n) × (n ≤ length bytes.now)) }
{
    Some(first_below(bytes, 128)? + 1)
}

/// The unsigned number that the bytes spell, where it fits.
pub(crate) fn uleb_number(text: &[u8]) -> Option<u64>
    ensures { result ≡ (if nat_lt (uleb_value text.now) (2 ^ 64)
        then Some (uleb_value text.now) else None) }
{
    let mut number: u64 = 0;
    let mut i = text.len();
    while i > 0 {
        i -= 1;
        number = number.checked_mul(128)? + (text[i] % 128) as u64;
    }
    Some(number)
}

/// The last byte's low seven bits, whose highest bit is the sign.
pub(crate) fn signed_digit(byte: u8) -> i64
    ensures { result ≡ signed_digit byte }
{
    let digit = byte % 128;
    if digit < 64 {
        digit as i64
    } else {
        digit as i64 - 128
    }
}

/// The signed number that the bytes spell, where it fits.
pub(crate) fn sleb_number(text: &[u8]) -> Option<i64>
    requires { 0 < length text.now }
    ensures { result ≡ (if fits_signed (sleb_value text.now)
        then Some (sleb_value text.now) else None) }
{
    let mut i = text.len() - 1;
    let mut signed = signed_digit(text[i]);
    while i > 0 {
        i -= 1;
        signed = signed.checked_mul(128)? + (text[i] % 128) as i64;
    }
    Some(signed)
}
