//! The kinds of answers, as C is told them.

pub(crate) const DONE: u32 = 0;

pub(crate) const OVERLAP: u32 = 1;

pub(crate) const ABSENT: u32 = 2;

pub(crate) const FULL: u32 = 3;

pub(crate) const SPENT: u32 = 4;

pub(crate) const BUSY: u32 = 5;

pub(crate) const NO_MEMBER: u32 = 6;

pub(crate) const NO_PAYLOAD: u32 = 7;

pub(crate) const MISS: u32 = 0;

pub(crate) const HIT: u32 = 1;

pub(crate) const AGAIN: u32 = 2;
