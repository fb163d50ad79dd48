//! Raises as plain data.

use crate::fault::LsdaFault;
use crate::outcome::Verdict;
use reg_model::Place;
use std::marker::Model;
use unwind_step::{End, FrameLine};

/// What is told of a frame in one of the phases.
#[derive(Clone, Copy, Debug, PartialEq, Eq)]
pub struct Phase {
    pub line: FrameLine,
    /// The verdict of the table of its function. None where there is no FDE, where the table was
    /// not recorded or has a fault, and in the cleanup where the answer for the frame changed.
    pub verdict: Option<Verdict>,
}

/// How a raise ended. Frames are counted from 0, the innermost one.
#[derive(Clone, Copy, Debug, PartialEq, Eq)]
pub enum RaiseEnd {
    /// No frame catches the exception, up to the one with which the stack ends.
    Uncaught {
        end: End,
    },
    /// Nothing may pass at the frame's address.
    Terminate {
        frame: u32,
    },
    /// The frame's table was not recorded.
    NoTable {
        frame: u32,
    },
    /// The frame's table has a fault.
    BadTable {
        frame: u32,
        fault: LsdaFault,
    },
    /// The second answer for the frame found another member than the first, or one of them found
    /// none.
    Changed {
        frame: u32,
        first: Place,
        second: Place,
    },
    /// The frame catches the exception: control goes to the pad, which is told the filter.
    Caught {
        frame: u32,
        pad: u64,
        filter: u64,
    },
}

/// A raise: the search for a handler, the cleanup up to the handler's frame, and how it ended.
/// Where the search finds no handler there is no cleanup.
#[derive(Debug, Drop)]
pub struct Raised {
    pub search: Vec<Phase>,
    pub cleanup: Vec<Phase>,
    pub end: RaiseEnd,
}

impl Model for Raised {
    ghost use Rattle.raise_phases.specs.Raising.{RaisedData};

    ghost Value = { RaisedData };

    ghost view = { λ r. record {
      search = r.search.items;
      cleanup = r.cleanup.items;
      end = r.end;
    } };
}
