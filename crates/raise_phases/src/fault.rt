//! Why a table of call sites gives no verdict.

/// The first fault in the order in which the verdict needs the bytes. `at` is the place of the
/// field among the table's bytes, unless said otherwise.
#[derive(Clone, Copy, Debug, PartialEq, Eq)]
pub enum LsdaFault {
    /// A field isn't whole in the bytes or in the call sites, or the call sites aren't whole in the
    /// bytes: `at` is then their first byte.
    Short { at: usize },
    /// The LEB128 number is whole, and does not fit 64 bits.
    TooWide { at: usize },
    /// The byte is no encoding that is read in its place.
    Encoding { at: usize, byte: u8 },
    /// The filter is negative: a list of exceptions that may pass, which isn't read.
    Filter { at: usize },
    /// The chain of records goes on after the 255th, or leads out of the bytes. `at` is the place
    /// of the filter of the record before, or with the first record that of the call site's action.
    Chain { at: usize },
    /// The type of the filter at this place isn't whole in the bytes, or there are no types.
    TypeEntry { at: usize },
}
