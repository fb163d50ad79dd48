//! Sections whose bad records cost themselves alone.

use crate::words::{LineWords, Refusal};
use sound_records::{FdeAnswer, RefusedRecord, SoundSection};

/// `sound ADDRESS BYTES PC..`: how many FDEs the section has, each refused record with what it
/// claims, and the answer to each address.
pub fn sound(words: LineWords<'_>, text: &mut String) -> Result<(), Refusal> {
    let section = section_of(words)?;
    tell_all(words, &section, text)
}

fn section_of(words: LineWords<'_>) -> Result<SoundSection, Refusal> {
    let address = words.hexadecimal(1)?;
    let bytes = words.bytes(2)?;
    Ok(SoundSection::read(words.alloc, address, &bytes)?)
}

/// All that is asked of a section.
fn tell_all(
    words: LineWords<'_>,
    section: &SoundSection,
    text: &mut String,
) -> Result<(), Refusal> {
    write!(text, "{} FDEs", section.section().count())?;
    for record in section.refused() {
        refused(record, text)?;
    }
    for index in 3..words.len() {
        answer(section, words.hexadecimal(index)?, text)?;
    }
    Ok(())
}

/// Writes a refused record.
fn refused(record: &RefusedRecord, text: &mut String) -> Result<(), Refusal> {
    let (start, fault) = (record.start, record.fault);
    match record.claim {
        Some(claim) => {
            write!(
                text,
                ", at {start} {fault:?} claims {:x} {:x}",
                claim.first, claim.range
            )?
        }
        None => write!(text, ", at {start} {fault:?} claims none")?,
    }
    Ok(())
}

/// Writes the answer to an address.
fn answer(section: &SoundSection, pc: u64, text: &mut String) -> Result<(), Refusal> {
    match section.fde_at(pc) {
        FdeAnswer::NoFde => write!(text, ", {pc:x}: none")?,
        FdeAnswer::Found(fde) => write!(text, ", {pc:x}: FDE at {}", fde.place())?,
        FdeAnswer::Claimed(record) => write!(text, ", {pc:x}: refused at {}", record.start)?,
    }
    Ok(())
}
