//! Lines of events, as nearly all are: read at once, where nothing is wrong with them.

ghost use Rattle.std.specs.Prelude.{◌≡◌, ◌^◌, ◌<◌, ◌++◌, true, IfSome, decimal};
ghost use Rattle.script_text.specs.Digits.{hex};
ghost use Rattle.event_script.specs.Draft.{may_come};
ghost use Rattle.script_text.specs.Statements.{HasEventForm, kind_of_event};
ghost use Rattle.event_script.specs.declared.reader.kinds.Stage.TheVariants as stage;
ghost use Rattle.script_text.specs.EventLines.{event_spelling};

use script_text::limits::REPLACE_VERSION;
use script_text::{Event, decimal_in, hex_in};

/// What follows the word, where the line begins with it.
#[inline(always)]
pub fn after_word<'a>(line: &'a [u8], word: &[u8]) -> Option<&'a [u8]>
    ensures { IfSome result (λ field. line.now ≡ word.now ++ field.now) }
{
    if line.len() < word.len() {
        return None;
    }
    let (first, field) = line.split_at(word.len());
    // A word is known where this is called: so few tests and no loop are left of it.
    for index in 0..word.len() {
        if first[index] != word[index] {
            return None;
        }
    }
    Some(field)
}

/// The decimal number that follows the word to the line's end.
#[inline(always)]
#[tactic(auto, using(script_text::proofs::Numbers::decimal_is))]
fn decimal_after(line: &[u8], word: &[u8]) -> Option<u32>
    ensures { IfSome result (λ number. line.now ≡ word.now ++ decimal number) }
{
    decimal_in(after_word(line, word)?)
}

/// The hexadecimal number that follows the word to the line's end.
#[inline(always)]
#[tactic(auto, using(script_text::proofs::Numbers::hex_is))]
fn hex_after(line: &[u8], word: &[u8]) -> Option<u64>
    ensures { IfSome result (λ number. line.now ≡ word.now ++ hex number) }
{
    hex_in(after_word(line, word)?)
}

/// The event of the version that the line spells. None where it spells none: then the line is read
/// field by field, which finds the reason.
pub fn event_of(version: u32, line: &[u8]) -> Option<Event>
    ensures { IfSome result (λ event. HasEventForm event × (line.now ≡ event_spelling event)
        × (may_come version stage.Thread (kind_of_event event) ≡ true)) }
{
    if let Some(pc) = hex_after(line, b"find ") {
        return Some(Event::Find { pc });
    }
    if let Some(image) = decimal_after(line, b"register ") {
        return Some(Event::Register { image });
    }
    if let Some(base) = hex_after(line, b"deregister ") {
        return Some(Event::Deregister { base });
    }
    if version >= REPLACE_VERSION
        && let Some(image) = decimal_after(line, b"replace ")
    {
        return Some(Event::Replace { image });
    }
    if let Some(image) = decimal_after(line, b"load ") {
        return Some(Event::Load { image });
    }
    if let Some(base) = hex_after(line, b"unload ") {
        return Some(Event::Unload { base });
    }
    let snapshot = decimal_after(line, b"unwind ")?;
    Some(Event::Unwind { snapshot })
}
