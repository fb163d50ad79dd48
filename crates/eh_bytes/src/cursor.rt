//! A place in the bytes of a section, which moves forward field by field.

ghost use Rattle.std.specs.Prelude.{◌≡◌, ◌≤◌, ◌<◌, length, slice_range, IfSome};
ghost use Rattle.eh_bytes.specs.CursorData.{CursorData, Reads, text_len, bytes_at, part_at};
ghost use Rattle.eh_bytes.specs.CursorData.{text_at, fixed_at};
ghost use Rattle.eh_bytes.specs.Fields.{signed_fixed};
ghost use Rattle.std.specs.Int.{w8, w16, w32};
ghost use Rattle.eh_bytes.specs.Leb.{uleb_at, sleb_at};
ghost use Rattle.eh_bytes.specs.Pointer.{by_format, encoded_number, encoded_pointer};

use crate::encoding::{
    DW_EH_PE_pcrel, DW_EH_PE_sdata2, DW_EH_PE_sdata4, DW_EH_PE_sleb128, DW_EH_PE_udata2,
    DW_EH_PE_udata4, DW_EH_PE_uleb128, application_of, is_format, is_pointer,
};
use crate::fault::ByteFault;
use crate::leb::{first_below, leb_length, signed_digit, sleb_number, uleb_number};
use byteorder::{ByteOrder, LittleEndian};
use std::marker::Model;

/// What is left of a section's bytes, or of a part of them, and the place where it begins. Kept is
/// the place where it ends, which no move changes.
#[derive(Debug, Drop)]
pub struct Cursor<'a> {
    rest: &'a [u8],
    end: usize,
}

impl<'a> Model for Cursor<'a> {
    ghost use Rattle.std.specs.Prelude.{◌-◌, ◌≤◌, length};
    ghost use Rattle.eh_bytes.specs.CursorData.{CursorData};

    ghost Value = { CursorData };

    ghost view = { λ c. record { bytes = c.rest.now; at = c.end - length c.rest.now } };

    ghost invariant = { λ c. length c.rest.now ≤ c.end };
}

impl<'a> Cursor<'a> {
    /// The bytes from place `at` up to place `end`.
    pub fn new(bytes: &'a [u8], at: usize, end: usize) -> Cursor<'a>
        requires ordered { at ≤ end }
        requires within { end ≤ length bytes.now }
        ensures bytes { result.bytes ≡ slice_range bytes.now at end }
        ensures place { result.at ≡ at }
    {
        Cursor {
            rest: &bytes[at..end],
            end,
        }
    }

    /// The place of the next byte.
    pub fn at(&self) -> usize
        ensures { result ≡ self.now.at }
    {
        self.end - self.rest.len()
    }

    /// How many bytes are left.
    pub fn left(&self) -> usize
        ensures { result ≡ length self.now.bytes }
    {
        self.rest.len()
    }

    /// The bytes that are left.
    pub fn rest(&self) -> &'a [u8]
        ensures { result.now ≡ self.now.bytes }
    {
        self.rest
    }

    /// The next bytes, as a part of the section's.
    pub fn take(&mut self, count: usize) -> Result<&'a [u8], ByteFault>
        ensures { Reads (λ part. part.now) (bytes_at count) self.old result self.new }
    {
        if self.rest.len() < count {
            return Err(ByteFault::Short { at: self.at() });
        }
        let (part, rest) = self.rest.split_at(count);
        self.rest = rest;
        Ok(part)
    }

    /// The next bytes as a cursor of their own, which keeps their places.
    pub fn part(&mut self, count: usize) -> Result<Cursor<'a>, ByteFault>
        ensures { Reads (λ part. part) (part_at count) self.old result self.new }
    {
        let rest = self.take(count)?;
        Ok(Cursor {
            rest,
            end: self.at(),
        })
    }

    /// The bytes of a text that a 0 ends, without the 0.
    #[tactic(auto, unfolding(crate::specs::CursorData::text_of))]
    pub fn text(&mut self) -> Result<&'a [u8], ByteFault>
        ensures { Reads (λ text. text.now) text_at self.old result self.new }
    {
        match text_length(self.rest) {
            None => Err(ByteFault::Short { at: self.at() }),
            Some(length) => {
                let text = &self.rest[..length];
                self.rest = &self.rest[length + 1..];
                Ok(text)
            }
        }
    }

    /// A byte.
    pub fn u8(&mut self) -> Result<u8, ByteFault>
        ensures { Reads (λ x. x) (fixed_at 1) self.old result self.new }
    {
        match self.rest {
            [byte, rest @ ..] => {
                let byte = *byte;
                self.rest = rest;
                Ok(byte)
            }
            [] => Err(ByteFault::Short { at: self.at() }),
        }
    }

    /// Two bytes, the lowest first.
    pub fn u16(&mut self) -> Result<u16, ByteFault>
        ensures { Reads (λ x. x) (fixed_at 2) self.old result self.new }
    {
        if self.rest.len() < 2 {
            return Err(ByteFault::Short { at: self.at() });
        }
        let number = LittleEndian::read_u16(self.rest);
        self.rest = &self.rest[2..];
        Ok(number)
    }

    /// Four bytes, the lowest first.
    pub fn u32(&mut self) -> Result<u32, ByteFault>
        ensures { Reads (λ x. x) (fixed_at 4) self.old result self.new }
    {
        if self.rest.len() < 4 {
            return Err(ByteFault::Short { at: self.at() });
        }
        let number = LittleEndian::read_u32(self.rest);
        self.rest = &self.rest[4..];
        Ok(number)
    }

    /// Eight bytes, the lowest first.
    pub fn u64(&mut self) -> Result<u64, ByteFault>
        ensures { Reads (λ x. x) (fixed_at 8) self.old result self.new }
    {
        if self.rest.len() < 8 {
            return Err(ByteFault::Short { at: self.at() });
        }
        let number = LittleEndian::read_u64(self.rest);
        self.rest = &self.rest[8..];
        Ok(number)
    }

    /// A byte with a sign.
    pub fn i8(&mut self) -> Result<i8, ByteFault>
        ensures { Reads (λ x. x) (signed_fixed w8).read self.old result self.new }
    {
        Ok(self.u8()?.cast_signed())
    }

    /// Two bytes with a sign, the lowest first.
    pub fn i16(&mut self) -> Result<i16, ByteFault>
        ensures { Reads (λ x. x) (signed_fixed w16).read self.old result self.new }
    {
        Ok(self.u16()?.cast_signed())
    }

    /// Four bytes with a sign, the lowest first.
    pub fn i32(&mut self) -> Result<i32, ByteFault>
        ensures { Reads (λ x. x) (signed_fixed w32).read self.old result self.new }
    {
        Ok(self.u32()?.cast_signed())
    }

    /// An unsigned LEB128 number of any length. One of a byte or two is read in place.
    #[inline(always)]
    pub fn uleb(&mut self) -> Result<u64, ByteFault>
        ensures { Reads (λ x. x) uleb_at self.old result self.new }
    {
        match self.rest {
            [byte, rest @ ..] if *byte < 128 => {
                let number = *byte as u64;
                self.rest = rest;
                Ok(number)
            }
            [low, high, rest @ ..] if *high < 128 => {
                let number = (*low % 128) as u64 + 128 * *high as u64;
                self.rest = rest;
                Ok(number)
            }
            _ => self.long_uleb(),
        }
    }

    /// The same by a call, whose answer has a place of its own: so that of `uleb` needn't be in
    /// memory.
    #[inline(always)]
    fn long_uleb(&mut self) -> Result<u64, ByteFault>
        ensures { Reads (λ x. x) uleb_at self.old result self.new }
    {
        let number = self.uleb_of_any_length()?;
        Ok(number)
    }

    /// The same, wherever the number ends.
    #[inline(never)]
    #[tactic(auto, unfolding(crate::specs::Leb::uleb_of))]
    fn uleb_of_any_length(&mut self) -> Result<u64, ByteFault>
        ensures { Reads (λ x. x) uleb_at self.old result self.new }
    {
        match leb_length(self.rest) {
            None => Err(ByteFault::Short { at: self.at() }),
            Some(length) => match uleb_number(&self.rest[..length]) {
                None => Err(ByteFault::TooWide { at: self.at() }),
                Some(number) => {
                    self.rest = &self.rest[length..];
                    Ok(number)
                }
            },
        }
    }

    /// A signed LEB128 number of any length.
    #[inline(always)]
    pub fn sleb(&mut self) -> Result<i64, ByteFault>
        ensures { Reads (λ x. x) sleb_at self.old result self.new }
    {
        match self.rest {
            [byte, rest @ ..] if *byte < 128 => {
                let byte = *byte;
                self.rest = rest;
                Ok(signed_digit(byte))
            }
            _ => self.long_sleb(),
        }
    }

    /// The same by a call, whose answer has a place of its own: so that of `sleb` needn't be in
    /// memory.
    #[inline(always)]
    fn long_sleb(&mut self) -> Result<i64, ByteFault>
        ensures { Reads (λ x. x) sleb_at self.old result self.new }
    {
        let number = self.sleb_of_any_length()?;
        Ok(number)
    }

    /// The same, wherever the number ends.
    #[inline(never)]
    #[tactic(auto, unfolding(crate::specs::Leb::sleb_of))]
    fn sleb_of_any_length(&mut self) -> Result<i64, ByteFault>
        ensures { Reads (λ x. x) sleb_at self.old result self.new }
    {
        match leb_length(self.rest) {
            None => Err(ByteFault::Short { at: self.at() }),
            Some(length) => match sleb_number(&self.rest[..length]) {
                None => Err(ByteFault::TooWide { at: self.at() }),
                Some(number) => {
                    self.rest = &self.rest[length..];
                    Ok(number)
                }
            },
        }
    }

    /// The number of a format, modulo 2^64.
    fn by_format(&mut self, format: u8) -> Result<u64, ByteFault>
        ensures { Reads (λ x. x) (by_format format).read self.old result self.new }
    {
        match format {
            DW_EH_PE_uleb128 => self.uleb(),
            DW_EH_PE_udata2 => Ok(u64::from(self.u16()?)),
            DW_EH_PE_udata4 => Ok(u64::from(self.u32()?)),
            DW_EH_PE_sleb128 => Ok(self.sleb()?.cast_unsigned()),
            DW_EH_PE_sdata2 => Ok(i64::from(self.i16()?).cast_unsigned()),
            DW_EH_PE_sdata4 => Ok(i64::from(self.i32()?).cast_unsigned()),
            _ => self.u64(),
        }
    }

    /// The number of an encoding, to which nothing is added.
    #[tactic(auto, unfolding(crate::specs::Pointer::encoded_number))]
    pub fn number(&mut self, encoding: u8) -> Result<u64, ByteFault>
        ensures { Reads (λ x. x) (encoded_number encoding).read self.old result self.new }
    {
        let format = encoding % 16;
        if !is_format(format) {
            return Err(ByteFault::Encoding {
                at: self.at(),
                byte: encoding,
            });
        }
        self.by_format(format)
    }

    /// A pointer in this encoding, in a section at this address. Nothing is read through it.
    #[tactic(auto, unfolding(crate::specs::Pointer::encoded_pointer))]
    pub fn pointer(&mut self, encoding: u8, section: u64) -> Result<u64, ByteFault>
        ensures { Reads (λ x. x) (encoded_pointer encoding section).read self.old result self.new }
    {
        let at = self.at();
        if !is_pointer(encoding) {
            return Err(ByteFault::Encoding { at, byte: encoding });
        }
        let number = self.by_format(encoding % 16)?;
        if application_of(encoding) == DW_EH_PE_pcrel {
            Ok(number.wrapping_add(section).wrapping_add(at as u64))
        } else {
            Ok(number)
        }
    }
}

/// How many bytes stand before the first 0, or `None` where there is none.
#[inline]
fn text_length(bytes: &[u8]) -> Option<usize>
    ensures length { result ≡ text_len bytes.now }
    ensures within { IfSome result (λ n. n < length bytes.now) }
{
    first_below(bytes, 1)
}
