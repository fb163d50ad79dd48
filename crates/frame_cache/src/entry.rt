//! A member as it is searched for.
ghost use Rattle.std.specs.Prelude.{◌≡◌};
ghost use Rattle.reg_model.specs.SpanData.{contains};
ghost use Rattle.frame_cache.specs.Recent.{no_entry};
ghost use Rattle.frame_cache.specs.Slots.{block_of, blocks_reached};

use crate::blocks::{BLOCK, NUMBERS};
use reg_model::{Member, Span};
use std::marker::Model;

/// A member by its first address, and how far behind that its last one is: then one subtraction and
/// one comparison tell whether it contains an address. Where it begins would be guessed wrong half
/// of the time.
#[derive(Clone, Copy)]
pub(crate) struct CachedEntry {
    first: u64,
    reach: u64,
    payload: u32,
}

impl Model for CachedEntry {
    ghost use Rattle.std.specs.Prelude.{◌+◌, ◌-◌};
    ghost use Rattle.reg_model.specs.SpanData.{IsSpan};
    ghost use Rattle.reg_model.specs.declared.span.Member.{Member};

    ghost Value = { Member };

    ghost view = { λ e. record {
      span = record { first = e.first; last = e.first + e.reach };
      payload = e.payload;
    } };

    ghost invariant = { λ e. IsSpan (record { first = e.first; last = e.first + e.reach }) };

    ghost inverse = { λ m. record {
      first = m.span.first;
      reach = m.span.last - m.span.first;
      payload = m.payload;
    } };
}

impl CachedEntry {
    pub(crate) fn of(member: &Member) -> CachedEntry
        ensures { result ≡ member.now }
    {
        let first = member.span.first();
        CachedEntry {
            first,
            reach: member.span.last() - first,
            payload: member.payload,
        }
    }

    /// What stands in a slot that was never used.
    pub(crate) fn unused() -> CachedEntry
        ensures { result ≡ no_entry }
    {
        CachedEntry {
            first: 0,
            reach: 0,
            payload: 0,
        }
    }

    pub(crate) fn member(&self) -> Member
        ensures { result ≡ self.now }
    {
        let Some(span) = Span::new(self.first, self.reach + 1) else {
            unreachable!()
        };
        Member {
            span,
            payload: self.payload,
        }
    }

    /// Whether it contains the address.
    #[inline(always)]
    pub(crate) fn holds(&self, pc: u64) -> bool
        ensures { result ≡ contains self.now.span pc }
    {
        pc.wrapping_sub(self.first) <= self.reach
    }

    /// The number of the block in which it begins.
    pub(crate) fn block(&self) -> u16
        ensures { result ≡ block_of self.now.span.first }
    {
        (self.first / BLOCK % NUMBERS) as u16
    }

    /// How many blocks later it ends, at most the greatest number.
    pub(crate) fn blocks_reached(&self) -> u16
        ensures { result ≡ blocks_reached self.now }
    {
        let last = self.first + self.reach;
        (last / BLOCK - self.first / BLOCK).min(NUMBERS - 1) as u16
    }
}
