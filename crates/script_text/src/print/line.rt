//! A line of a journal, written from its end to its front.

ghost use Rattle.std.specs.Prelude.{◌≡◌, ◌+◌, ◌≤◌, ◌++◌, [], decimal, length};
ghost use Rattle.script_text.specs.Digits.{hex};

use crate::print::numbers::write_hex;
use itoa::write_digits;
use std::marker::Model;
use std::str::from_utf8_unchecked;

/// The room for a line: that of a frame is the longest.
const ROOM: usize = 272;

/// The end of a line, as much of it as was written. A number's digits come from the last one to the
/// first, so that each part goes to its place at once, and the whole line is added as one piece.
#[derive(Drop)]
pub struct LineEnd {
    room: [u8; ROOM],
    start: usize,
}

impl Model for LineEnd {
    ghost use Rattle.std.specs.Prelude.{◌≡◌, ℕ, ◌≤◌, List, drop, length};
    ghost use Rattle.std.specs.Str.{IsUtf8};

    ghost Value = { List ℕ };

    ghost view = { λ l. drop l.start l.room };

    ghost invariant = { λ l. (length l.room ≡ 272) × (l.start ≤ 272)
        × IsUtf8 (drop l.start l.room) };
}

impl LineEnd {
    /// Nothing yet.
    pub fn new() -> Self
        ensures { result ≡ [] }
    {
        LineEnd {
            room: [0; ROOM],
            start: ROOM,
        }
    }

    /// Nothing again, in the same room.
    pub fn clear(&mut self)
        ensures { self.new ≡ [] }
    {
        self.start = ROOM;
    }

    /// The text.
    pub fn as_str(&self) -> &str
        ensures { result.now ≡ self.now }
    {
        unsafe { from_utf8_unchecked(&self.room[self.start..]) }
    }

    /// Puts a word before what was written.
    #[inline(always)]
    pub fn prepend(&mut self, word: &str)
        requires { length word.now + length self.old ≤ 272 }
        ensures { self.new ≡ word.now ++ self.old }
    {
        let start = self.start - word.len();
        self.room[start..self.start].copy_from_slice(word.as_bytes());
        self.start = start;
    }

    /// Puts a number before it, in decimal digits.
    #[inline(always)]
    pub fn prepend_decimal(&mut self, number: usize)
        requires { 20 + length self.old ≤ 272 }
        ensures text { self.new ≡ decimal number ++ self.old }
        ensures short { length self.new ≤ 20 + length self.old }
    {
        self.start = write_digits(number as u64, &mut self.room, self.start);
    }

    /// Puts a number before it, in hexadecimal digits.
    #[inline(always)]
    pub fn prepend_hex(&mut self, number: u64)
        requires { 16 + length self.old ≤ 272 }
        ensures text { self.new ≡ hex number ++ self.old }
        ensures short { length self.new ≤ 16 + length self.old }
    {
        self.start = write_hex(number, &mut self.room, self.start);
    }
}
