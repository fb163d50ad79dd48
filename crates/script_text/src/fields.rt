//! What stands in the fields of a line: numbers.

ghost use Rattle.std.specs.Prelude.{◌≡◌, ◌≢◌, ◌*◌, ◌^◌, ◌<◌, ◌≤◌, ℕ, length, slice_index};
ghost use Rattle.script_text.specs.Fields.{number_in, decimal_in, hex_in};
ghost use Rattle.script_text.specs.Lower.{lower_value};

/// The value of each byte as a digit in lower case, or 255.
const DIGITS: [u8; 256] = [
    255, 255, 255, 255, 255, 255, 255, 255, 255, 255, 255, 255, 255, 255, 255, 255, 255, 255, 255,
    255, 255, 255, 255, 255, 255, 255, 255, 255, 255, 255, 255, 255, 255, 255, 255, 255, 255, 255,
    255, 255, 255, 255, 255, 255, 255, 255, 255, 255, 0, 1, 2, 3, 4, 5, 6, 7, 8, 9, 255, 255, 255,
    255, 255, 255, 255, 255, 255, 255, 255, 255, 255, 255, 255, 255, 255, 255, 255, 255, 255, 255,
    255, 255, 255, 255, 255, 255, 255, 255, 255, 255, 255, 255, 255, 255, 255, 255, 255, 10, 11,
    12, 13, 14, 15, 255, 255, 255, 255, 255, 255, 255, 255, 255, 255, 255, 255, 255, 255, 255, 255,
    255, 255, 255, 255, 255, 255, 255, 255, 255, 255, 255, 255, 255, 255, 255, 255, 255, 255, 255,
    255, 255, 255, 255, 255, 255, 255, 255, 255, 255, 255, 255, 255, 255, 255, 255, 255, 255, 255,
    255, 255, 255, 255, 255, 255, 255, 255, 255, 255, 255, 255, 255, 255, 255, 255, 255, 255, 255,
    255, 255, 255, 255, 255, 255, 255, 255, 255, 255, 255, 255, 255, 255, 255, 255, 255, 255, 255,
    255, 255, 255, 255, 255, 255, 255, 255, 255, 255, 255, 255, 255, 255, 255, 255, 255, 255, 255,
    255, 255, 255, 255, 255, 255, 255, 255, 255, 255, 255, 255, 255, 255, 255, 255, 255, 255, 255,
    255, 255, 255, 255, 255, 255, 255, 255, 255, 255, 255, 255, 255, 255, 255, 255, 255, 255, 255,
    255, 255, 255, 255,
];

/// The value of a digit in lower case, or 255 of another byte.
fn digit_of(byte: u8) -> u8
    ensures { result ≡ lower_value byte }
{
    DIGITS[byte as usize]
}

/// Where the byte stands first, or the length of the bytes where it doesn't stand in them.
pub fn place_of(bytes: &[u8], byte: u8) -> usize
    ensures within { result ≤ length bytes.now }
    ensures before { (k : ℕ) → k < result → slice_index bytes.now k ≢ byte }
    ensures found { result < length bytes.now → slice_index bytes.now result ≡ byte }
{
    match memchr::memchr(byte, bytes) {
        Some(place) => place,
        None => bytes.len(),
    }
}

/// The number whose digits in the base the field is, where it has at most so many.
fn number_of(base: u64, most: usize, field: &[u8]) -> Option<u64>
    requires base { (2 ≤ base) × (base ≤ 16) }
    requires most { (0 < most) × (most ≤ 64) × (base ^ most ≤ 2 ^ 64) }
    ensures { result ≡ number_in base (base ^ most) field.now }
{
    if field.is_empty() || field.len() > most {
        return None;
    }
    if field.len() > 1 && field[0] == b'0' {
        return None;
    }
    let mut number = 0;
    for byte in field {
        let digit = digit_of(*byte) as u64;
        if digit >= base {
            return None;
        }
        number = number * base + digit;
    }
    Some(number)
}

/// A decimal number below 2^32.
pub fn decimal_in(field: &[u8]) -> Option<u32>
    ensures { result ≡ decimal_in field.now }
{
    let number = number_of(10, 10, field)?;
    if number <= u32::MAX as u64 {
        Some(number as u32)
    } else {
        None
    }
}

/// A hexadecimal number below 2^64.
pub fn hex_in(field: &[u8]) -> Option<u64>
    ensures { result ≡ hex_in field.now }
{
    number_of(16, 16, field)
}
