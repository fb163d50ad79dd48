//! Sections, their FDEs and the instructions of these.

use crate::words::{LineWords, Refusal, WantedWord, refuse};
use frame_parse::{Fde, FrameFault, PlacedProgram, Program, Section};

/// The section that the words after the question tell, as `ADDRESS BYTES`.
pub fn section_of(words: LineWords<'_>) -> Result<Section, Refusal> {
    let address = words.hexadecimal(1)?;
    let bytes = words.bytes(2)?;
    match Section::read(words.alloc, address, &bytes) {
        Ok(section) => Ok(section),
        Err(FrameFault::NoMemory) => Err(Refusal::NO_MEMORY),
        Err(_) => Err(refuse(1, WantedWord::Section)),
    }
}

/// `fdes ADDRESS BYTES`: its address and its length, and of each FDE the place, the first address
/// and the range.
pub fn fdes(words: LineWords<'_>, section: &Section, text: &mut String) -> Result<(), Refusal> {
    words.end(3)?;
    let (address, length) = (section.address(), section.bytes().len());
    write!(text, "at {address:x} {length} bytes")?;
    for index in 0..section.count() {
        tell_fde(section.fde_place(index), &section.fde(index), text)?;
    }
    Ok(())
}

fn tell_fde(place: usize, fde: &Fde<'_>, text: &mut String) -> Result<(), Refusal> {
    let (first, range) = (fde.first(), fde.range());
    write!(text, ", {place} {first:x} {range:x}")?;
    Ok(())
}

/// `initial ADDRESS BYTES PC`: the initial instructions for the FDE of an address; `program ..`:
/// its own. `placed-initial` and `placed-program`: with the places of expressions.
pub fn instructions(
    words: LineWords<'_>,
    section: &Section,
    text: &mut String,
) -> Result<(), Refusal> {
    let pc = words.hexadecimal(3)?;
    words.end(4)?;
    match section.fde_at(pc) {
        Some(fde) => tell_instructions(words.get(0), &fde, text),
        None => Ok(text.push_str("none")?),
    }
}

fn tell_instructions(question: &str, fde: &Fde<'_>, text: &mut String) -> Result<(), Refusal> {
    let most = fde.bytes().len();
    match question {
        "initial" => steps(fde.initial(), most, text),
        "program" => steps(fde.program(), most, text),
        "placed-initial" => placed_steps(fde.placed_initial(), most, text),
        _ => placed_steps(fde.placed_program(), most, text),
    }
}

/// Writes the steps of a program, of which a byte begins one at most.
fn steps(mut program: Program<'_>, most: usize, text: &mut String) -> Result<(), Refusal> {
    for _ in 0..most {
        let Some(step) = program.next() else {
            return Ok(());
        };
        write!(text, "{:x}: {:?}; ", step.location, step.instruction)?;
    }
    Ok(())
}

fn placed_steps(
    mut program: PlacedProgram<'_>,
    most: usize,
    text: &mut String,
) -> Result<(), Refusal> {
    for _ in 0..most {
        let Some(step) = program.next() else {
            return Ok(());
        };
        write!(text, "{:x}: {:?}; ", step.location, step.instruction)?;
    }
    Ok(())
}
