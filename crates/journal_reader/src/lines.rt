//! Lines, as parts of a text.

ghost use Rattle.std.specs.Prelude.{◌≡◌, ◌<◌, [], ◌∷◌, length, ◌==◌, MatchOption, IfSome, count_by};
ghost use Rattle.script_text.specs.Fields.{pieces};

use script_text::place_of;

/// The first line without its line feed, and what follows it. None where no line feed comes.
pub fn next_line(text: &[u8]) -> Option<(&[u8], &[u8])>
    ensures lines { MatchOption result (pieces 10 text.now ≡ text.now ∷ [])
        (λ found. pieces 10 text.now ≡ found.0.now ∷ pieces 10 found.1.now) }
    ensures shorter { IfSome result (λ found. length found.1.now < length text.now) }
{
    let place = place_of(text, b'\n');
    if place == text.len() {
        return None;
    }
    let (line, _) = text.split_at(place);
    let (_, rest) = text.split_at(place + 1);
    Some((line, rest))
}

/// How many line feeds there are.
pub fn count_feeds(text: &[u8]) -> usize
    ensures { result ≡ count_by (λ byte. byte == 10) text.now }
{
    text.iter().filter(|byte| **byte == b'\n').count()
}
