//! Why a field could not be read.

/// What is wrong with the bytes of a field. `at` is the place of the field's first byte.
#[derive(Clone, Copy, Debug, PartialEq, Eq)]
pub enum ByteFault {
    /// The bytes end before the field does.
    Short { at: usize },
    /// The LEB128 number is whole, and does not fit 64 bits.
    TooWide { at: usize },
    /// The byte is no pointer encoding that is read here.
    Encoding { at: usize, byte: u8 },
}
