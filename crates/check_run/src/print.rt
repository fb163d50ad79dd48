//! The line that tells of a verdict.

ghost use Rattle.std.specs.Prelude.{◌≡◌, IfOk};
ghost use Rattle.check_run.specs.CheckText.{flaw_word, verdict_line};

use journal_check::{Flaw, Verdict};
use std::alloc::{AllocError, Global};
use std::fmt::Write;

/// The word for a flaw.
fn flaw_word(flaw: Flaw) -> &'static str
    ensures { result.now ≡ flaw_word flaw }
{
    match flaw {
        Flaw::Form => "form",
        Flaw::Number => "number",
        Flaw::Count => "count",
        Flaw::History => "history",
        Flaw::Answer => "answer",
        Flaw::Order => "order",
        Flaw::Round => "round",
        Flaw::Trace => "trace",
    }
}

/// The line that tells of a verdict.
pub fn print_verdict(alloc: Global, verdict: Verdict) -> Result<Vec<u8>, AllocError>
    ensures { IfOk result (λ text. text.items ≡ verdict_line verdict) }
{
    let mut text = String::new(alloc);
    match verdict {
        Verdict::Lawful { updates } => write!(text, "lawful {updates}\n")?,
        Verdict::Line { line, flaw } => {
            let word = flaw_word(flaw);
            write!(text, "line {line}: {word}\n")?;
        }
    }
    Ok(text.into_bytes())
}
