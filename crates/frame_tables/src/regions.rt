//! Recorded memory.

use crate::bytes::hex_told;
use crate::words::{LineWords, Refusal};
use frame_expr::{Memory, RegionFault};

/// Records what the words from one on tell, as `ADDRESS BYTES`, region by region; what is refused
/// is left out.
fn record(words: LineWords<'_>, from: usize, memory: &mut Memory) -> Result<(), Refusal> {
    for index in (from..words.len()).step_by(2) {
        let bytes = words.bytes(index.saturating_add(1))?;
        let address = words.hexadecimal(index)?;
        if let Err(RegionFault::NoMemory) = memory.push_region(address, &bytes) {
            return Err(Refusal::NO_MEMORY);
        }
    }
    Ok(())
}

/// `regions ADDRESS BYTES..`: how many are recorded, and each.
pub fn regions(words: LineWords<'_>, text: &mut String) -> Result<(), Refusal> {
    let mut memory = Memory::new(words.alloc);
    record(words, 1, &mut memory)?;
    tell_regions(&memory, text)
}

fn tell_regions(memory: &Memory, text: &mut String) -> Result<(), Refusal> {
    write!(text, "{}", memory.count())?;
    for index in 0..memory.count() {
        write!(text, ", {:x} ", memory.address(index))?;
        hex_told(memory.region(index), text)?;
    }
    Ok(())
}

/// `tail FROM ADDRESS BYTES..`: the bytes from an address to the end of its region.
pub fn tail(words: LineWords<'_>, text: &mut String) -> Result<(), Refusal> {
    let mut memory = Memory::new(words.alloc);
    record(words, 2, &mut memory)?;
    tell_tail(words, &memory, text)
}

fn tell_tail(words: LineWords<'_>, memory: &Memory, text: &mut String) -> Result<(), Refusal> {
    match memory.tail(words.hexadecimal(1)?) {
        Some(bytes) => hex_told(bytes, text),
        None => Ok(text.push_str("none")?),
    }
}
