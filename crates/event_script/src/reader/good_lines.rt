//! The lines of a script whose bytes come in pieces.

ghost use Rattle.std.specs.Prelude.{◌≡◌, List, ℕ, [], ◌++◌, Result, Ok, OnOk, IfOk};
ghost use Rattle.script_text.specs.ScriptData.{IsRunnable};
ghost use Rattle.event_script.specs.Draft.{DraftData};
ghost use Rattle.event_script.specs.Fault.{GivesDraft, LeavesLine};
ghost use Rattle.event_script.specs.Reading.{LeavesDraft, after_line, at_line, outcome};
ghost use Rattle.event_script.specs.Taken.{AreLinesOf, HasTaken};
ghost use Rattle.script_text.specs.declared.reason.Reason.{Reason};

use crate::reader::draft::Draft;
use crate::reader::fault::{LineFault, ScriptFault};
use script_text::place_of;
use std::alloc::Global;
use std::marker::Model;

/// What good lines make known, and the line that goes on.
#[derive(Drop)]
pub struct GoodLines {
    alloc: Global,
    draft: Draft,
    /// The number of the line that goes on.
    number: u32,
    /// Its bytes so far.
    kept: Vec<u8>,
}

impl Model for GoodLines {
    ghost use Rattle.std.specs.Prelude.{List, ℕ};
    ghost use Rattle.event_script.specs.Taken.{LinesData, AreLinesOf};

    ghost Value = { LinesData };

    ghost view = { λ l. record { known = l.draft; number = l.number; kept = l.kept.items } };

    ghost invariant = { λ l. (bytes : List ℕ) × AreLinesOf bytes
        (record { known = l.draft; number = l.number; kept = l.kept.items }) };
}

/// What a line gave, under its number.
fn numbered(given: Result<(), LineFault>, line: u32) -> Result<(), ScriptFault>
    ensures line { (now : DraftData) (told : Result DraftData Reason) → LeavesDraft now given told
        → LeavesLine now result (at_line line told) }
    ensures ok { OnOk result (given ≡ Ok tt) }
{
    match given {
        Ok(()) => Ok(()),
        Err(LineFault::Bad { reason }) => Err(ScriptFault::Bad { line, reason }),
        Err(LineFault::NoMemory) => Err(ScriptFault::NoMemory),
    }
}

/// Reads a line, of which this text comes behind what is kept.
fn read_line(
    alloc: Global,
    draft: &mut Draft,
    kept: &mut Vec<u8>,
    text: &[u8],
) -> Result<(), LineFault>
    ensures known { LeavesDraft draft.new result
        (after_line draft.old (kept.old.items ++ text.now)) }
    ensures kept { OnOk result (kept.new.items ≡ []) }
{
    if kept.is_empty() {
        return draft.read_line(alloc, text);
    }
    if kept.extend_from_slice(text).is_err() {
        return Err(LineFault::NoMemory);
    }
    draft.read_line(alloc, kept)?;
    kept.clear();
    Ok(())
}

impl GoodLines {
    /// Before the first byte.
    pub fn new(alloc: Global) -> Self
        ensures { AreLinesOf [] result }
    {
        GoodLines {
            alloc,
            draft: Draft::new(alloc),
            number: 1,
            kept: Vec::new(alloc),
        }
    }

    /// Takes a piece behind the bytes before. Of it the last line alone is kept, which may go on.
    pub fn take(self, piece: &[u8]) -> Result<GoodLines, ScriptFault>
        ensures { (bytes : List ℕ) → AreLinesOf bytes self
            → HasTaken (bytes ++ piece.now) result }
    {
        let GoodLines {
            alloc,
            mut draft,
            mut number,
            mut kept,
        } = self;
        let mut rest = piece;
        let mut end = place_of(rest, b'\n');
        while end < rest.len() {
            let (text, _) = rest.split_at(end);
            let (_, next) = rest.split_at(end + 1);
            numbered(read_line(alloc, &mut draft, &mut kept, text), number)?;
            number += 1;
            rest = next;
            end = place_of(rest, b'\n');
        }
        if kept.extend_from_slice(rest).is_err() {
            return Err(ScriptFault::NoMemory);
        }
        Ok(GoodLines {
            alloc,
            draft,
            number,
            kept,
        })
    }

    /// What the lines make known, where no more bytes come.
    pub fn finish(self) -> Result<Draft, ScriptFault>
        ensures draft { (bytes : List ℕ) → AreLinesOf bytes self
            → GivesDraft result (outcome bytes) }
        ensures runnable { IfOk result (λ known. IsRunnable known.script) }
    {
        let GoodLines {
            draft,
            number,
            kept,
            ..
        } = self;
        numbered(draft.check_end(&kept), number)?;
        Ok(draft)
    }
}
