//! How calls of a writer end.

ghost use Rattle.std.specs.Prelude.{◌≡◌, ◌+◌, ◌≤◌, ℕ};
ghost use Rattle.fde_writer.specs.Runs.{numbers_told};

/// The numbers of the first and of the last update of a call, both 0 where it made none.
#[derive(Clone, Copy, Debug, PartialEq, Eq)]
pub struct Numbers {
    pub first: u32,
    pub last: u32,
}

impl Numbers {
    /// Those of no update.
    pub fn none() -> Numbers
        ensures { (now : ℕ) → result ≡ numbers_told now now }
    {
        Numbers { first: 0, last: 0 }
    }

    /// These and the next one.
    pub fn and(self, number: u32) -> Numbers
        ensures { (old now : ℕ) → self ≡ numbers_told old now → old ≤ now → number ≡ now + 1
            → result ≡ numbers_told old number }
    {
        let first = if self.last == 0 { number } else { self.first };
        Numbers {
            first,
            last: number,
        }
    }
}

/// How the registration of a section ended.
#[derive(Clone, Copy, Debug, PartialEq, Eq)]
pub enum Registration {
    /// All its members stand, put by updates with these numbers.
    Done { numbers: Numbers },
    /// An FDE stands too far from its code: how far, counted from the writer's own number. Nothing
    /// was done.
    Far { distance: u64 },
    /// Fewer update calls are left than members stand and three times this section's. Nothing was
    /// done.
    Spent,
    /// Memory was wanted and not to be had. Nothing was done.
    NoMemory,
    /// A member overlaps a registered one, and the other half had no room for it either. What was
    /// put was taken back.
    Overlap,
    /// There was no room in the registered half. What was put was taken back.
    Full,
    /// A lock was found taken, now or before: the writer makes no more updates.
    Stuck,
}

/// How a deregistration ended.
#[derive(Clone, Copy, Debug, PartialEq, Eq)]
pub enum Deregistration {
    /// The latest section under the key is gone, taken away by updates with these numbers.
    Done { note: u64, numbers: Numbers },
    /// Nothing stands under the key. Nothing was done.
    Unknown,
    /// A lock was found taken, now or before: the writer makes no more updates.
    Stuck,
}

/// How a move to another writer ended.
#[derive(Clone, Copy, Debug, PartialEq, Eq)]
pub enum Moving {
    /// The section stands in the other writer's registry, put there by updates with these numbers,
    /// and was then taken away here.
    Done { note: u64, numbers: Numbers },
    /// It stands there, put by updates with these numbers; here a lock was found taken while it was
    /// taken away.
    Left { numbers: Numbers },
    /// Nothing stands under the key. Nothing was done.
    Unknown,
    /// It was refused there, as a registration is, and all is here as it was.
    Refused { why: Registration },
    /// This writer was stopped before. Nothing was done.
    Stuck,
}
