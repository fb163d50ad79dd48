//! The words of a line, and why one can't be read.

use std::alloc::{AllocError, AllocFailed, Global};
use std::fmt;

/// Why a line has no answer.
#[derive(Debug, Drop)]
pub enum Refusal {
    /// Something else is wanted in a word's place; the first word is 1.
    Unreadable { word: usize, wanted: WantedWord },
    /// Memory ran out.
    NoMemory(AllocError),
}

/// What is wanted in a word's place.
#[derive(Clone, Copy, Debug, PartialEq, Eq)]
pub enum WantedWord {
    Question,
    Hexadecimal,
    Decimal,
    /// Pairs of hexadecimal digits, or a dash where there are none.
    Bytes,
    /// A place that is in the bytes, and not before the one in the word before.
    Place,
    /// A read of a field, as `u16` or `pointer:1b:1000`.
    Field,
    /// The address of a section that is accepted.
    Section,
    /// The address of a header that is accepted.
    Header,
    End,
}

impl Refusal {
    pub const NO_MEMORY: Refusal = Refusal::NoMemory(AllocError);
}

impl fmt::Display for WantedWord {
    fn fmt<W: fmt::Write>(&self, f: &mut fmt::Formatter<W>) -> fmt::Result {
        let wanted = match self {
            WantedWord::Question => "a question",
            WantedWord::Hexadecimal => "a hexadecimal number",
            WantedWord::Decimal => "a decimal number",
            WantedWord::Bytes => "bytes",
            WantedWord::Place => "a place in the bytes",
            WantedWord::Field => "a field",
            WantedWord::Section => "an accepted section",
            WantedWord::Header => "an accepted header",
            WantedWord::End => "the end of the line",
        };
        write!(f, "{wanted} is wanted")
    }
}

impl From<AllocError> for Refusal {
    fn from(fault: AllocError) -> Refusal {
        Refusal::NoMemory(fault)
    }
}

impl<T: Drop> From<AllocFailed<T>> for Refusal {
    fn from(failed: AllocFailed<T>) -> Refusal {
        Refusal::NoMemory(failed.into())
    }
}

/// The words of a line, with a blank between each two.
#[derive(Clone, Copy)]
pub struct LineWords<'a> {
    pub alloc: Global,
    line: &'a str,
}

impl<'a> LineWords<'a> {
    pub fn of(alloc: Global, line: &'a str) -> LineWords<'a> {
        LineWords { alloc, line }
    }

    /// How many there are.
    pub fn len(self) -> usize {
        self.line.split(' ').count()
    }

    /// A word by its number from 0 on, or no letters where there is none.
    pub fn get(self, index: usize) -> &'a str {
        self.line.split(' ').nth(index).unwrap_or("")
    }

    /// Nothing stands after the first so many words.
    pub fn end(self, count: usize) -> Result<(), Refusal> {
        if self.len() <= count {
            Ok(())
        } else {
            Err(refuse(count, WantedWord::End))
        }
    }

    pub fn hexadecimal(self, index: usize) -> Result<u64, Refusal> {
        match hexadecimal(self.get(index)) {
            Some(number) => Ok(number),
            None => Err(refuse(index, WantedWord::Hexadecimal)),
        }
    }

    pub fn decimal(self, index: usize) -> Result<usize, Refusal> {
        match self.get(index).parse() {
            Ok(number) => Ok(number),
            Err(_) => Err(refuse(index, WantedWord::Decimal)),
        }
    }

    pub fn bytes(self, index: usize) -> Result<Vec<u8>, Refusal> {
        let word = self.get(index);
        if word == "-" {
            return Ok(Vec::new(self.alloc));
        }
        match hex::decode(self.alloc, word) {
            Ok(bytes) if !bytes.is_empty() => Ok(bytes),
            Err(hex::FromHexError::OutOfMemory) => Err(Refusal::NO_MEMORY),
            _ => Err(refuse(index, WantedWord::Bytes)),
        }
    }
}

/// The refusal of a word by its number from 0 on.
pub fn refuse(index: usize, wanted: WantedWord) -> Refusal {
    Refusal::Unreadable {
        word: index.saturating_add(1),
        wanted,
    }
}

/// A hexadecimal number below 2^64.
pub fn hexadecimal(word: &str) -> Option<u64> {
    u64::from_str_radix(word, 16).ok()
}
