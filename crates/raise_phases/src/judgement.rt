//! What the table of a frame's function says of an exception.

ghost use Rattle.std.specs.Prelude.{◌≡◌, ◌≤◌, IfNone, IfSome, length};
ghost use Rattle.unwind_step.specs.Backtrace.{IsBelow};
ghost use Rattle.raise_phases.specs.declared.judgement.Judgement.TheVariants as judgements;
ghost use Rattle.raise_phases.specs.Raising.{Passes, StopsWith, judged, judged_in, verdict_told};

use crate::fault::LsdaFault;
use crate::lsda::verdict;
use crate::outcome::Verdict;
use crate::raised::RaiseEnd;
use frame_expr::Memory;
use frame_parse::{Fde, Section};
use unwind_step::{FrameLine, fde_of};

/// What is known of a frame by the table of its function.
#[derive(Clone, Copy, Debug, PartialEq, Eq)]
pub(crate) enum Judgement {
    /// No image has the address, or no FDE covers it.
    Unknown,
    /// The table's verdict. Where the function has no table, everything goes on.
    Told { verdict: Verdict },
    /// The table was not recorded.
    NoTable,
    BadTable { fault: LsdaFault },
}

/// How a search ends.
#[derive(Clone, Copy, Debug, PartialEq, Eq)]
pub(crate) enum SearchEnd {
    /// With a frame that catches the exception.
    Handler { frame: u32, pad: u64, filter: u64 },
    /// With a frame that ends the raise.
    Failed { end: RaiseEnd },
}

impl Judgement {
    pub(crate) fn verdict(&self) -> Option<Verdict>
        ensures { result ≡ verdict_told self.now }
    {
        match self {
            Judgement::Told { verdict } => Some(*verdict),
            Judgement::Unknown | Judgement::NoTable | Judgement::BadTable { .. } => None,
        }
    }

    /// How a search ends with this frame. None where it goes on to the caller, if there is one.
    pub(crate) fn stop(&self, frame: u32) -> Option<SearchEnd>
        ensures stops { IfSome result (StopsWith self.now frame) }
        ensures passes { IfNone result (Passes self.now) }
    {
        match self {
            Judgement::Unknown => None,
            Judgement::Told { verdict } => stop_by(verdict, frame),
            Judgement::NoTable => Some(SearchEnd::Failed {
                end: RaiseEnd::NoTable { frame },
            }),
            Judgement::BadTable { fault } => Some(SearchEnd::Failed {
                end: RaiseEnd::BadTable {
                    frame,
                    fault: *fault,
                },
            }),
        }
    }
}

fn stop_by(verdict: &Verdict, frame: u32) -> Option<SearchEnd>
    ensures stops { IfSome result (StopsWith (judgements.Told verdict.now) frame) }
    ensures passes { IfNone result (Passes (judgements.Told verdict.now)) }
{
    match verdict {
        Verdict::Continue | Verdict::Cleanup { .. } => None,
        Verdict::Terminate => Some(SearchEnd::Failed {
            end: RaiseEnd::Terminate { frame },
        }),
        Verdict::Handler { pad, filter } => Some(SearchEnd::Handler {
            frame,
            pad: *pad,
            filter: *filter,
        }),
    }
}

/// What an exception's kind is judged by: the images' sections, and the recorded memory, in which
/// the tables stand.
#[derive(Clone, Copy)]
pub(crate) struct Tables<'t> {
    pub sections: &'t [Section],
    pub memory: &'t Memory,
    pub kind: u64,
}

impl Tables<'_> {
    /// By the table of an FDE that covers the address.
    fn judge_by(&self, fde: &Fde<'_>, look: u64) -> Judgement
        requires { fde.now.entry.first ≤ look }
        ensures { result ≡ judged_in self.now.memory.now self.now.kind look fde.now.entry.first
            fde.now.entry.lsda }
    {
        let first = fde.first();
        let Some(table) = fde.lsda() else {
            return Judgement::Told {
                verdict: Verdict::Continue,
            };
        };
        let memory = self.memory;
        let Some(bytes) = memory.tail(table) else {
            return Judgement::NoTable;
        };
        match verdict(first, table, bytes, look, self.kind) {
            Ok(verdict) => Judgement::Told { verdict },
            Err(fault) => Judgement::BadTable { fault },
        }
    }

    /// Of the frame that a line shows.
    #[tactic(auto, unfolding(crate::specs::Raising::judged))]
    pub(crate) fn judge(&self, line: &FrameLine) -> Judgement
        requires { IsBelow (length self.now.sections.now) line.now.place }
        ensures { result ≡ judged self.now.sections.now self.now.memory.now self.now.kind line.now }
    {
        let sections = self.sections;
        match fde_of(sections, line) {
            None => Judgement::Unknown,
            Some(fde) => self.judge_by(&fde, line.look),
        }
    }
}
