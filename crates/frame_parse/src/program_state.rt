//! What instructions are tested against, between two of them.

ghost use Rattle.std.specs.Prelude.{◌≡◌, ◌<◌, ◌≤◌, List, [], ◌∷◌, ◌++◌, Bool, length, take};

use std::marker::Model;

/// For each remembered state, whether its CFA rule is a column plus an offset: at most eight.
#[derive(Drop)]
pub struct Remembered {
    flags: [bool; 8],
    depth: usize,
}

impl Model for Remembered {
    ghost use Rattle.std.specs.Prelude.{List, Bool, take, ◌≤◌};

    ghost Value = { List Bool };

    ghost view = { λ r. take r.depth r.flags };

    ghost invariant = { λ r. r.depth ≤ 8 };
}

impl Remembered {
    pub(crate) fn new() -> Self
        ensures { result ≡ [] }
    {
        Remembered {
            flags: [false; 8],
            depth: 0,
        }
    }

    pub(crate) fn len(&self) -> usize
        ensures count { result ≡ length self.now }
        ensures bound { result ≤ 8 }
    {
        self.depth
    }

    pub(crate) fn push(&mut self, flag: bool)
        requires { length self.old < 8 }
        ensures { self.new ≡ self.old ++ flag ∷ [] }
    {
        self.flags[self.depth] = flag;
        self.depth += 1;
    }

    pub(crate) fn pop(&mut self) -> bool
        requires { 0 < length self.old }
        ensures { self.old ≡ self.new ++ result ∷ [] }
    {
        self.depth -= 1;
        self.flags[self.depth]
    }
}

/// The location, whether the CFA rule is a column plus an offset, and what was remembered of that.
#[derive(Drop)]
pub struct ProgramState {
    pub location: u64,
    pub remembered: Remembered,
    pub offset: bool,
}
