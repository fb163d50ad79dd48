//! What a line says, whatever stands before it.

use crate::script::Event;
use frame_expr::Regs;
use std::marker::Model;

/// What the line of an image says.
#[derive(Drop)]
pub struct ImageFields {
    pub number: u32,
    pub base: u64,
    pub size: u64,
    /// The address of the section.
    pub section: u64,
    pub bytes: Vec<u8>,
}

impl Model for ImageFields {
    ghost use Rattle.script_text.specs.ScriptData.{ImageData};

    ghost Value = { ImageData };

    ghost view = { λ i. record {
      number = i.number;
      base = i.base;
      size = i.size;
      section = i.section;
      bytes = i.bytes.items;
    } };
}

/// What the line of a snapshot says.
#[derive(Clone, Copy, Debug, PartialEq, Eq)]
pub struct SnapshotFields {
    pub number: u32,
    pub regs: Regs,
}

/// What a line of recorded memory says.
#[derive(Drop)]
pub struct MemoryFields {
    pub address: u64,
    pub bytes: Vec<u8>,
}

impl Model for MemoryFields {
    ghost use Rattle.frame_expr.specs.Regions.{RegionData};

    ghost Value = { RegionData };

    ghost view = { λ m. record { address = m.address; bytes = m.bytes.items } };
}

/// What a line says.
#[derive(Drop)]
pub enum Statement {
    Version(u32),
    Nodes(u32),
    Loads(u32),
    Image(ImageFields),
    /// An image is fixed.
    Fixed(u32),
    /// A snapshot begins.
    Snapshot(SnapshotFields),
    /// Memory of the snapshot that goes on.
    Memory(MemoryFields),
    /// A round begins.
    Round,
    /// A thread begins.
    Thread,
    Event(Event),
    End,
}
