//! The states that a program remembers.

ghost use Rattle.std.specs.Prelude.{◌≡◌, ◌<◌, ◌≤◌, ◌∷◌, [], length, drop, get_or};

use std::marker::Model;

/// At most eight states by their numbers. They stand at the end of the array, the last one at
/// `top`.
#[derive(Drop)]
pub(crate) struct KeptStates {
    numbers: [u16; 8],
    top: usize,
}

impl Model for KeptStates {
    ghost use Rattle.std.specs.Prelude.{List, ℕ, drop, ◌≤◌};

    ghost Value = { List ℕ };

    ghost view = { λ s. drop s.top s.numbers };

    ghost invariant = { λ s. s.top ≤ 8 };
}

impl KeptStates {
    pub(crate) fn new() -> KeptStates
        ensures { result ≡ [] }
    {
        KeptStates {
            numbers: [0; 8],
            top: 8,
        }
    }

    /// Forgets all of them.
    pub(crate) fn clear(&mut self)
        ensures { self.new ≡ [] }
    {
        self.top = 8;
    }

    /// How many there are.
    pub(crate) fn len(&self) -> usize
        ensures is { result ≡ length self.now }
        ensures few { result ≤ 8 }
    {
        8 - self.top
    }

    /// The one before which so many were kept later.
    pub(crate) fn number(&self, later: usize) -> u16
        requires { later < length self.now }
        ensures { result ≡ get_or self.now later 0 }
    {
        self.numbers[self.top + later]
    }

    /// Keeps one more.
    #[inline(always)]
    pub(crate) fn keep(&mut self, number: u16)
        requires { length self.old < 8 }
        ensures { self.new ≡ number ∷ self.old }
    {
        self.top -= 1;
        self.numbers[self.top] = number;
    }

    /// The last one, which is kept no longer.
    #[inline(always)]
    pub(crate) fn take_back(&mut self) -> u16
        requires { 0 < length self.old }
        ensures { self.old ≡ result ∷ self.new }
    {
        let number = self.numbers[self.top];
        self.top += 1;
        number
    }
}
