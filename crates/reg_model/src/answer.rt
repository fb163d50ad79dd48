//! What is asked of a registry, and what it answers.

use crate::span::Member;
use std::alloc::{AllocError, AllocFailed};
use std::error::Error;
use std::fmt;

/// A change of the registry. An unload or a deregistration names its member by the first address, a
/// replacement by its whole span.
#[derive(Clone, Copy, Debug, PartialEq, Eq)]
pub enum Update {
    Register { member: Member },
    Deregister { base: u64 },
    Replace { member: Member },
    Load { member: Member },
    Unload { base: u64 },
}

/// The answer to a query, at a stamp: after so many updates.
#[derive(Clone, Copy, Debug, PartialEq, Eq)]
pub enum Found {
    Hit { member: Member, stamp: u32 },
    Miss { stamp: u32 },
}

/// Where an address was found. The loader's half is asked only where the registered half has a
/// miss.
#[derive(Clone, Copy, Debug, PartialEq, Eq)]
pub struct Place {
    pub registered: Found,
    pub loaded: Option<Found>,
}

/// The answer to a registration.
#[derive(Clone, Copy, Debug, PartialEq, Eq)]
pub enum Inserted {
    Done { number: u32 },
    Overlap { member: Member, stamp: u32 },
    Full { stamp: u32 },
    Spent,
}

/// The answer to a load.
#[derive(Clone, Copy, Debug, PartialEq, Eq)]
pub enum Loading {
    Done { number: u32 },
    Overlap { member: Member, stamp: u32 },
    LoadFull { stamp: u32 },
    Spent,
}

/// The answer to a deregistration or an unload.
#[derive(Clone, Copy, Debug, PartialEq, Eq)]
pub enum Removed {
    Done { number: u32, member: Member },
    NotFound { stamp: u32 },
    Spent,
}

/// The answer to a replacement. `payload` is the one that the member had before.
#[derive(Clone, Copy, Debug, PartialEq, Eq)]
pub enum Replaced {
    Done { number: u32, payload: u32 },
    NotFound { stamp: u32 },
    Spent,
}

/// Why a try of a lookup was not answered: a word changed between two loads, or was locked.
#[derive(Clone, Copy, Debug, PartialEq, Eq)]
pub enum Again {
    Changed { word: u32, first: u64, second: u64 },
    Locked { word: u32, seen: u64 },
}

/// One of the two halves of the registry.
#[derive(Clone, Copy, Debug, PartialEq, Eq)]
pub enum Half {
    Registered,
    Loaded,
}

/// An update or a query with its answer, as journals and callers' logs keep it.
#[derive(Clone, Copy, Debug, PartialEq, Eq)]
pub enum Receipt {
    Register { member: Member, answer: Inserted },
    Deregister { base: u64, answer: Removed },
    Replace { member: Member, answer: Replaced },
    Load { member: Member, answer: Loading },
    Unload { base: u64, answer: Removed },
    Query { half: Half, pc: u64, found: Found },
}

/// Memory was wanted and not to be had.
#[derive(Clone, Copy, Debug, PartialEq, Eq)]
pub struct NoMemory;

impl fmt::Display for NoMemory {
    fn fmt<W: fmt::Write>(&self, f: &mut fmt::Formatter<W>) -> fmt::Result {
        f.write_str("out of memory")
    }
}

impl Error for NoMemory {}

impl From<AllocError> for NoMemory {
    fn from(_: AllocError) -> Self {
        NoMemory
    }
}

impl<T: Drop> From<AllocFailed<T>> for NoMemory {
    fn from(_: AllocFailed<T>) -> Self {
        NoMemory
    }
}
