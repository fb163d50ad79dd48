//! The kinds of answers, as C is told them.

pub(crate) const SECTION_DONE: u32 = 0;

pub(crate) const SECTION_REFUSED: u32 = 1;

pub(crate) const SECTION_FAR: u32 = 2;

pub(crate) const SECTION_SPENT: u32 = 3;

pub(crate) const SECTION_NO_MEMORY: u32 = 4;

pub(crate) const SECTION_OVERLAP: u32 = 5;

pub(crate) const SECTION_FULL: u32 = 6;

pub(crate) const SECTION_STUCK: u32 = 7;

pub(crate) const SECTION_UNKNOWN: u32 = 8;

pub(crate) const SECTION_LEFT: u32 = 9;

pub(crate) const SECTION_INTO_STUCK: u32 = 10;
