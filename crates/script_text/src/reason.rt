//! Why bytes are no script.

use frame_parse::FrameFault;

/// Why a line is bad: the first of these reasons that holds.
#[derive(Clone, Copy, Debug, PartialEq, Eq)]
pub enum Reason {
    /// The input ends where a line must come.
    Missing,
    /// Bytes come after the `end` line.
    After,
    /// The line has no line feed.
    Unended,
    /// A byte that is no printable ASCII character stands in it.
    Byte,
    /// Its first field can't start a line here.
    Word,
    /// The number of fields is wrong.
    Fields,
    /// A field isn't spelled as its kind.
    Spelling,
    /// The image's or the snapshot's number isn't the next.
    Order,
    /// A number, or a count with this line, is outside its limit.
    Limit,
    /// The size is 0, or the span reaches past the greatest address.
    Span,
    /// The section's first refusal.
    Section { fault: FrameFault },
    /// It names an image or a snapshot that the script hasn't.
    Name,
    /// Its span isn't wholly above the fixed span before it.
    Fixed,
    /// The memory's bytes reach past the greatest address, or aren't above those before them.
    Region,
}
