//! What a script says: the images, the recorded stacks, and the events of each thread.

ghost use Rattle.std.specs.Prelude.{List};
ghost use Rattle.script_text.specs.declared.script.Event.{Event};

use frame_expr::{Memory, Regs};
use frame_parse::Section;
use reg_model::Span;
use std::marker::Model;

/// A stack as it was recorded: the registers of its innermost frame, and memory.
#[derive(Drop)]
pub struct Snapshot {
    pub regs: Regs,
    pub memory: Memory,
}

impl Model for Snapshot {
    ghost use Rattle.script_text.specs.ScriptData.{SnapshotData};

    ghost Value = { SnapshotData };

    ghost view = { λ s. record { regs = s.regs; memory = s.memory } };
}

/// What a thread asks of the registry, or does to it.
#[derive(Clone, Copy, Debug, PartialEq, Eq)]
pub enum Event {
    /// Registers an image, by its number.
    Register { image: u32 },
    /// Removes what is registered at a first address.
    Deregister { base: u64 },
    /// Gives what is registered at an image's span that image's number.
    Replace { image: u32 },
    /// Loads an image, by its number.
    Load { image: u32 },
    /// Removes what is loaded at a first address.
    Unload { base: u64 },
    /// Asks what contains an address.
    Find { pc: u64 },
    /// Unwinds a recorded stack, by its number.
    Unwind { snapshot: u32 },
}

/// The events of one thread, in order.
#[derive(Drop)]
pub struct Thread {
    pub events: Vec<Event>,
}

impl Model for Thread {
    ghost Value = { List Event };

    ghost view = { λ thread. thread.events.items };
}

/// The threads that run side by side, and end before the next round begins.
#[derive(Drop)]
pub struct Round {
    pub threads: Vec<Thread>,
}

impl Model for Round {
    ghost Value = { List (List Event) };

    ghost view = { λ round. round.threads.items };
}

/// A script, all of whose numbers are within their limits and all of whose events name an image
/// that there is.
#[derive(Drop)]
pub struct Script {
    /// The version of the format: the first one has no `Event::Replace`.
    pub version: u32,
    /// The number of nodes of the tree of registered ranges.
    pub nodes: u32,
    /// The greatest number of loaded images.
    pub loads: u32,
    /// The span of each image, by its number.
    pub images: Vec<Span>,
    /// The section of each image, by its number.
    pub sections: Vec<Section>,
    /// The images that are there from the start and can't be unloaded, in order of their spans.
    pub fixed: Vec<u32>,
    /// The recorded stacks, by their numbers.
    pub snapshots: Vec<Snapshot>,
    pub rounds: Vec<Round>,
}

impl Model for Script {
    ghost use Rattle.script_text.specs.ScriptData.{ScriptData, IsRunnable};

    ghost Value = { ScriptData };

    ghost view = { λ s. record {
      version = s.version;
      nodes = s.nodes;
      loads = s.loads;
      images = s.images.items;
      sections = s.sections.items;
      fixed = s.fixed.items;
      snapshots = s.snapshots.items;
      rounds = s.rounds.items;
    } };

    ghost invariant = { λ s. IsRunnable
        (record {
          version = s.version;
          nodes = s.nodes;
          loads = s.loads;
          images = s.images.items;
          sections = s.sections.items;
          fixed = s.fixed.items;
          snapshots = s.snapshots.items;
          rounds = s.rounds.items;
        }) };
}
