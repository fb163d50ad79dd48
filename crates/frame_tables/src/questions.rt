//! Who answers which question.

use crate::words::{LineWords, Refusal, WantedWord, refuse};
use crate::{bytes, headers, regions, rows, sections, sound};
use frame_parse::Section;

/// Writes the answer to the question that the words ask.
pub fn answer(words: LineWords<'_>, text: &mut String) -> Result<(), Refusal> {
    match words.get(0) {
        "read" => bytes::read(words, text),
        "regions" => regions::regions(words, text),
        "tail" => regions::tail(words, text),
        "sound" => sound::sound(words, text),
        "fdes"
        | "initial"
        | "program"
        | "placed-initial"
        | "placed-program"
        | "row"
        | "applied"
        | "header" => answer_of_section(words, text),
        _ => Err(refuse(0, WantedWord::Question)),
    }
}

/// The same for a question to a section.
fn answer_of_section(words: LineWords<'_>, text: &mut String) -> Result<(), Refusal> {
    let section = sections::section_of(words)?;
    ask(words, &section, text)
}

fn ask(words: LineWords<'_>, section: &Section, text: &mut String) -> Result<(), Refusal> {
    match words.get(0) {
        "fdes" => sections::fdes(words, section, text),
        "row" => rows::row(words, section, text),
        "applied" => rows::applied(words, section, text),
        "header" => headers::header(words, section, text),
        _ => sections::instructions(words, section, text),
    }
}
