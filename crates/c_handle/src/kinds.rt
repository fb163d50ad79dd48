//! The kinds of what a lookup of both halves answers, as C is told them.

pub const NOWHERE: u32 = 0;

pub const REGISTERED: u32 = 1;

pub const LOADED: u32 = 2;

pub const FIND_AGAIN: u32 = 3;
