//! Headers, beside their sections.

ghost use Rattle.eh_hdr.specs.Tables.{IsSortedTable};

use crate::words::{LineWords, Refusal, WantedWord, refuse};
use eh_hdr::{Header, HeaderFault, SearchTable};
use frame_parse::{Fde, Section};

/// `header ADDRESS BYTES HEADER-ADDRESS HEADER-BYTES PC..`: the location of each entry, and the
/// address of its FDE; for each address the entry, and the first address of the FDE that the header
/// finds; then what its table by itself finds.
pub fn header(words: LineWords<'_>, section: &Section, text: &mut String) -> Result<(), Refusal> {
    let address = words.hexadecimal(3)?;
    let bytes = words.bytes(4)?;
    of_bytes(words, section, address, &bytes, text)
}

/// The same of a header's bytes.
fn of_bytes(
    words: LineWords<'_>,
    section: &Section,
    address: u64,
    bytes: &[u8],
    text: &mut String,
) -> Result<(), Refusal> {
    let header = match Header::read(words.alloc, address, bytes, section) {
        Ok(header) => header,
        Err(HeaderFault::NoMemory) => return Err(Refusal::NO_MEMORY),
        Err(_) => return Err(refuse(3, WantedWord::Header)),
    };
    tell_header(words, &header, text)?;
    tell_table(words, &header.into_table(), section, text)
}

fn tell_header(
    words: LineWords<'_>,
    header: &Header<'_>,
    text: &mut String,
) -> Result<(), Refusal> {
    write!(text, "{}", header.count())?;
    for index in 0..header.count() {
        let (location, fde) = header.entry(index);
        write!(text, ", {location:x} {fde:x}")?;
    }
    for index in 5..words.len() {
        tell_found(header, words.hexadecimal(index)?, text)?;
    }
    Ok(())
}

fn tell_found(header: &Header<'_>, pc: u64, text: &mut String) -> Result<(), Refusal> {
    let entry = header.entry_at(pc);
    let first = first_of(header.fde_at(pc));
    write!(text, ", {pc:x} entry {entry:?} fde {first:?}")?;
    Ok(())
}

fn tell_table(
    words: LineWords<'_>,
    table: &SearchTable,
    section: &Section,
    text: &mut String,
) -> Result<(), Refusal>
    requires { IsSortedTable section.now.fdes table.now }
{
    text.push_str(", by table")?;
    for index in 5..words.len() {
        let pc = words.hexadecimal(index)?;
        let first = first_of(table.fde_at(section, pc));
        write!(text, ", {pc:x} fde {first:?}")?;
    }
    Ok(())
}

fn first_of(found: Option<Fde<'_>>) -> Option<u64> {
    match found {
        Some(fde) => Some(fde.first()),
        None => None,
    }
}
