//! The stack of numbers on which operations work.

ghost use Rattle.std.specs.Prelude.{◌≡◌, ◌<◌, ◌≤◌, ◌∷◌, [], length, drop};
ghost use Rattle.frame_expr.specs.Values.{entry};

use std::marker::Model;

/// At most 32 numbers. They stand at the end of the array, the top at `top`, so that the list of
/// them is what is left there.
#[derive(Drop)]
pub(crate) struct Stack {
    numbers: [u64; 32],
    top: usize,
}

impl Model for Stack {
    ghost use Rattle.std.specs.Prelude.{List, ℕ, drop, ◌≤◌};

    ghost Value = { List ℕ };

    ghost view = { λ s. drop s.top s.numbers };

    ghost invariant = { λ s. s.top ≤ 32 };
}

impl Stack {
    pub(crate) fn new() -> Stack
        ensures { result ≡ [] }
    {
        Stack {
            numbers: [0; 32],
            top: 32,
        }
    }

    pub(crate) fn len(&self) -> usize
        ensures { result ≡ length self.now }
    {
        32 - self.top
    }

    pub(crate) fn push(&mut self, number: u64)
        requires { length self.old < 32 }
        ensures { self.new ≡ number ∷ self.old }
    {
        self.top -= 1;
        self.numbers[self.top] = number;
    }

    pub(crate) fn pop(&mut self) -> u64
        requires { 0 < length self.old }
        ensures { self.old ≡ result ∷ self.new }
    {
        let number = self.numbers[self.top];
        self.top += 1;
        number
    }

    /// Puts another number in the place of the top.
    pub(crate) fn replace(&mut self, number: u64)
        requires { 0 < length self.old }
        ensures { self.new ≡ number ∷ drop 1 self.old }
    {
        self.numbers[self.top] = number;
    }

    /// Pushes the number that stands so far below the top.
    pub(crate) fn copy(&mut self, index: usize)
        requires entry { index < length self.old }
        requires room { length self.old < 32 }
        ensures { self.new ≡ entry index self.old ∷ self.old }
    {
        let number = self.entry(index);
        self.push(number);
    }

    /// Exchanges the top and the number below it.
    pub(crate) fn swap(&mut self)
        requires { 2 ≤ length self.old }
        ensures { self.new ≡ entry 1 self.old ∷ entry 0 self.old ∷ drop 2 self.old }
    {
        let _ = &self.top;
        let top = self.pop();
        let below = self.pop();
        self.push(top);
        self.push(below);
    }

    /// Turns the three upper numbers: the top goes below the two others.
    pub(crate) fn rot(&mut self)
        requires { 3 ≤ length self.old }
        ensures { self.new ≡
            entry 1 self.old ∷ entry 2 self.old ∷ entry 0 self.old ∷ drop 3 self.old }
    {
        let _ = &self.top;
        let top = self.pop();
        let second = self.pop();
        let third = self.pop();
        self.push(top);
        self.push(third);
        self.push(second);
    }

    /// The number that stands so far below the top.
    pub(crate) fn entry(&self, index: usize) -> u64
        requires { index < length self.now }
        ensures { result ≡ entry index self.now }
    {
        self.numbers[self.top + index]
    }
}
