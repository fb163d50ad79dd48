//! Lines and fields, as parts of the bytes.

ghost use Rattle.std.specs.Prelude.{◌≡◌, ◌==◌, [], ◌∷◌, Some, None, length, MatchOption};
ghost use Rattle.script_text.specs.Fields.{pieces, fields_after, is_printable};
ghost use Rattle.event_script.specs.Reading.{has_any, only, two, five};

use script_text::place_of;

/// Whether no byte stands in the line but those from the space to the tilde. No byte ends the loop,
/// so that many are tested at a time.
pub fn is_printable(line: &[u8]) -> bool
    ensures { result ≡ is_printable line.now }
{
    let mut printable = true;
    for byte in line {
        printable = printable & (0x20 <= *byte) & (*byte <= 0x7e);
    }
    printable
}

/// The first field of a line, and what follows it.
pub fn first_field(line: &[u8]) -> (&[u8], &[u8])
    ensures { pieces 32 line.now ≡ result.0.now ∷ fields_after result.1.now }
{
    line.split_at(place_of(line, b' '))
}

/// The next field, and what follows it. None where there is no field any more.
pub fn next_field(rest: &[u8]) -> Option<(&[u8], &[u8])>
    ensures { MatchOption result (fields_after rest.now ≡ [])
        (λ found. fields_after rest.now ≡ found.0.now ∷ fields_after found.1.now) }
{
    match rest {
        [] => None,
        [_, fields @ ..] => Some(first_field(fields)),
    }
}

/// The next field, where it is the last one.
pub fn only_field(rest: &[u8]) -> Option<&[u8]>
    ensures { MatchOption result (only (fields_after rest.now) ≡ None)
        (λ field. only (fields_after rest.now) ≡ Some field.now) }
{
    let (field, rest) = next_field(rest)?;
    if rest.is_empty() { Some(field) } else { None }
}

/// Whether a field follows.
pub fn has_any(rest: &[u8]) -> bool
    ensures { result ≡ has_any (fields_after rest.now) }
{
    !rest.is_empty()
}

/// Whether so many fields follow.
pub fn has_count(rest: &[u8], count: usize) -> bool
    ensures { result ≡ (length (fields_after rest.now) == count) }
{
    let mut left = rest;
    let mut missing = count;
    while missing > 0 {
        let Some((_, others)) = next_field(left) else {
            return false;
        };
        left = others;
        missing -= 1;
    }
    !has_any(left)
}

/// The next two fields, where they are the last ones.
pub fn two_fields(rest: &[u8]) -> Option<(&[u8], &[u8])>
    ensures { MatchOption result (two (fields_after rest.now) ≡ None)
        (λ f. two (fields_after rest.now) ≡ Some (f.0.now, f.1.now)) }
{
    let (first, rest) = next_field(rest)?;
    let second = only_field(rest)?;
    Some((first, second))
}

/// The next five fields, where they are the last ones.
pub fn five_fields(rest: &[u8]) -> Option<(&[u8], &[u8], &[u8], &[u8], &[u8])>
    ensures { MatchOption result (five (fields_after rest.now) ≡ None)
        (λ f. five (fields_after rest.now) ≡ Some (f.0.now, f.1.now, f.2.now, f.3.now, f.4.now)) }
{
    let (first, rest) = next_field(rest)?;
    let (second, rest) = next_field(rest)?;
    let (third, rest) = next_field(rest)?;
    let (fourth, rest) = next_field(rest)?;
    let fifth = only_field(rest)?;
    Some((first, second, third, fourth, fifth))
}
