//! Numbers that a space or the end of a line follows.

ghost use Rattle.std.specs.Prelude.{◌≡◌, None, Some, MatchOption};
ghost use Rattle.journal_reader.specs.FirstNumbers.{before_space, from_space, decimal_first};
ghost use Rattle.journal_reader.specs.FirstNumbers.{hex_first, past_word};

use script_text::{decimal_in, hex_in, place_of};

/// The bytes before the first space, and those from it on.
fn split_at_space(bytes: &[u8]) -> (&[u8], &[u8])
    ensures before { result.0.now ≡ before_space bytes.now }
    ensures from { result.1.now ≡ from_space bytes.now }
{
    bytes.split_at(place_of(bytes, b' '))
}

/// A decimal number below 2^32, and what follows it.
pub fn decimal_first(bytes: &[u8]) -> Option<(u32, &[u8])>
    ensures { MatchOption result (decimal_first bytes.now ≡ None)
        (λ found. decimal_first bytes.now ≡ Some (found.0, found.1.now)) }
{
    let (field, rest) = split_at_space(bytes);
    Some((decimal_in(field)?, rest))
}

/// A hexadecimal number below 2^64, and what follows it.
pub fn hex_first(bytes: &[u8]) -> Option<(u64, &[u8])>
    ensures { MatchOption result (hex_first bytes.now ≡ None)
        (λ found. hex_first bytes.now ≡ Some (found.0, found.1.now)) }
{
    let (field, rest) = split_at_space(bytes);
    Some((hex_in(field)?, rest))
}

/// What follows a word with which the text begins.
pub fn past_word<'a>(text: &'a [u8], word: &str) -> Option<&'a [u8]>
    ensures { MatchOption result (past_word word.now text.now ≡ None)
        (λ rest. past_word word.now text.now ≡ Some rest.now) }
{
    text.strip_prefix(word.as_bytes())
}
