//! What a text is to a script.

ghost use Rattle.std.specs.Prelude.{◌≡◌};
ghost use Rattle.journal_check.specs.TextFlaws.{text_flaw};

/// What is wrong with a text, in the order in which it counts.
#[derive(Clone, Copy, Debug, PartialEq, Eq)]
pub enum Flaw {
    /// The lines up to this one begin no journal of the script, or the text isn't whole.
    Form,
    /// An accepted update has no number of its own, from 1 to the number of updates.
    Number,
    /// Another number of updates was accepted than the last line says.
    Count,
    /// An update doesn't fit the state before it, or removes another member, or replaces another
    /// payload.
    History,
    /// An answer doesn't hold in the history.
    Answer,
    /// A stamp or number isn't above those before it on its thread.
    Order,
    /// A stamp or number isn't one of its round.
    Round,
    /// A backtrace leaves the rules of frames.
    Trace,
}

impl Flaw {
    /// A flaw of receipts, as one of texts.
    pub fn of_receipts(flaw: receipt_check::ReceiptFlaw) -> Self
        ensures { result ≡ text_flaw flaw }
    {
        match flaw {
            receipt_check::ReceiptFlaw::Number => Flaw::Number,
            receipt_check::ReceiptFlaw::Count => Flaw::Count,
            receipt_check::ReceiptFlaw::History => Flaw::History,
            receipt_check::ReceiptFlaw::Answer => Flaw::Answer,
            receipt_check::ReceiptFlaw::Order => Flaw::Order,
            receipt_check::ReceiptFlaw::Round => Flaw::Round,
        }
    }
}

/// Whether a text is that of a lawful journal, and else what counts of that which is wrong.
#[derive(Clone, Copy, Debug, PartialEq, Eq)]
pub enum Verdict {
    /// It is one, with so many updates.
    Lawful { updates: u32 },
    /// The first flaw, and its line, counted from 1.
    Line { line: u64, flaw: Flaw },
}
