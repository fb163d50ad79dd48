//! Bytes in fields.

ghost use Rattle.std.specs.Prelude.{◌≡◌, ◌*◌, IfOk, length};
ghost use Rattle.std.specs.List.{list_all};
ghost use Rattle.script_text.specs.Fields.{hex_bytes_in, section_bytes};
ghost use Rattle.std.specs.Option.{option_map};
ghost use Rattle.script_text.specs.Lower.{is_lower, lower_value, pair_bytes};

use reg_model::NoMemory;
use std::alloc::Global;

/// The value of a digit in lower case, or 255 of another byte, without a table: a loop over many
/// bytes then has them sixteen at a time.
#[inline(always)]
fn computed_digit(byte: u8) -> u8
    ensures { result ≡ lower_value byte }
{
    if b'0' <= byte && byte <= b'9' {
        byte - b'0'
    } else if b'a' <= byte && byte <= b'f' {
        byte - b'a' + 10
    } else {
        255
    }
}

#[tactic(auto, using(std::proofs::lemmas::List::take_more_set))]
/// Writes the bytes whose digits in lower case the field is, and says whether all are such digits.
/// No byte ends the loop: that is asked at its end, once.
fn decode_pairs(field: &[u8], bytes: &mut [u8]) -> bool
    requires { length field.now ≡ length bytes.old * 2 }
    ensures lower { result ≡ list_all is_lower field.now }
    ensures bytes { bytes.new ≡ pair_bytes field.now }
{
    let mut lower = true;
    let mut index = 0;
    let mut left = field;
    while let [high, low, rest @ ..] = left {
        let high = computed_digit(*high);
        let low = computed_digit(*low);
        lower = lower & (high < 16) & (low < 16);
        bytes[index] = high.wrapping_mul(16).wrapping_add(low);
        index += 1;
        left = rest;
    }
    lower
}

/// The bytes, one at least, whose digits in lower case the field is.
pub fn hex_bytes_in(alloc: Global, field: &[u8]) -> Result<Option<Vec<u8>>, NoMemory>
    ensures { IfOk result
        (λ found. option_map (λ bytes. bytes.items) found ≡ hex_bytes_in field.now) }
{
    if field.is_empty() || field.len() % 2 != 0 {
        return Ok(None);
    }
    let mut bytes = Vec::new(alloc);
    bytes.resize(field.len() / 2, 0)?;
    let lower = decode_pairs(field, &mut bytes);
    if lower { Ok(Some(bytes)) } else { Ok(None) }
}

#[tactic(auto, unfolding(script_text::specs::Fields::section_bytes))]
/// The bytes of a section: none for a dash, else those whose digits in lower case the field is.
pub fn section_bytes(alloc: Global, field: &[u8]) -> Result<Option<Vec<u8>>, NoMemory>
    ensures { IfOk result
        (λ found. option_map (λ bytes. bytes.items) found ≡ section_bytes field.now) }
{
    if field == b"-".as_slice() {
        return Ok(Some(Vec::new(alloc)));
    }
    hex_bytes_in(alloc, field)
}
