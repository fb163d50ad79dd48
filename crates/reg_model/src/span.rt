//! Spans of addresses, and members: a span with the number of an image.

ghost use Rattle.std.specs.Prelude.{◌≡◌, ◌+◌, ◌-◌, ◌^◌, ◌<◌, ◌≤◌, ◌↔◌, IsTrue, IsSome, IfSome};
ghost use Rattle.reg_model.specs.SpanData.{SpanData, IsSpan, contains, Overlaps};

use std::marker::Model;

/// A range of addresses, from its first to its last, both in it. The greatest last address is 2^64
/// - 2.
#[derive(Clone, Copy, Debug, PartialEq, Eq)]
pub struct Span {
    first: u64,
    last: u64,
}

impl Model for Span {
    ghost use Rattle.reg_model.specs.SpanData.{SpanData, IsSpan};

    ghost Value = { SpanData };

    ghost view = { λ s. record { first = s.first; last = s.last } };

    ghost invariant = { λ s. IsSpan (record { first = s.first; last = s.last }) };

    ghost inverse = { λ i. record { first = i.first; last = i.last } };
}

impl Span {
    /// The span of `size` addresses from `base` on. None where there is none such below 2^64 - 1.
    pub fn new(base: u64, size: u64) -> Option<Self>
        ensures valid { IsSome result ↔ ((0 < size) × (base + size ≤ 2 ^ 64 - 1)) }
        ensures value { IfSome result (λ s. s ≡ record { first = base; last = base + size - 1 }) }
    {
        if size == 0 || size > u64::MAX - base {
            return None;
        }
        Some(Span {
            first: base,
            last: base + (size - 1),
        })
    }

    pub fn first(&self) -> u64
        ensures value { result ≡ self.now.first }
        ensures span { IsSpan self.now }
    {
        self.first
    }

    pub fn last(&self) -> u64
        ensures value { result ≡ self.now.last }
        ensures span { IsSpan self.now }
    {
        self.last
    }

    pub fn contains(&self, pc: u64) -> bool
        ensures { result ≡ contains self.now pc }
    {
        self.first <= pc && pc <= self.last
    }

    /// Whether some address is in both.
    pub fn overlaps(&self, other: &Span) -> bool
        ensures { IsTrue result ↔ Overlaps self.now other.now }
    {
        self.first <= other.last && other.first <= self.last
    }
}

/// A span with what is known of it: the number of an image.
#[derive(Clone, Copy, Debug, PartialEq, Eq)]
pub struct Member {
    pub span: Span,
    pub payload: u32,
}
