//! What instructions made of states. Most do as one did before: then the state that comes of it is
//! known without a look at its row.

ghost use Rattle.std.specs.Prelude.{◌≡◌, ◌<◌, List, All, IfOk, IfSome, [], length, true};
ghost use Rattle.frame_rows.specs.declared.placed_row.PlacedRow.{PlacedRow};
ghost use Rattle.row_table.specs.Transitions.{IsTransition};

use crate::instructions::{are_same, mark};
use frame_parse::PlacedInstruction;
use std::alloc::{AllocError, Global};
use std::marker::Model;

/// The places that `place_of` tells.
const PLACES: usize = 8192;

/// A state that came of another by an instruction, each state by its number. A restore of a column
/// gives back the rule of `base`, the state that the initial instructions leave.
#[derive(Clone, Copy)]
pub(crate) struct Transition {
    pub(crate) base: u16,
    pub(crate) from: u16,
    pub(crate) instruction: PlacedInstruction,
    pub(crate) to: u16,
}

/// Those that were met last, one for each place that `place_of` tells.
#[derive(Drop)]
pub(crate) struct Transitions {
    met: Vec<Transition>,
    /// Of each place one more than where its own stands, or 0.
    places: Vec<u16>,
}

/// One of so many places, which those share that begin alike.
#[inline(always)]
fn place_of(from: u16, instruction: &PlacedInstruction) -> usize {
    let key = mark(instruction).wrapping_add((from as u64) << 40);
    (key.wrapping_mul(0x9e37_79b9_7f4a_7c15) >> 51) as usize
}

impl Transition {
    /// Whether it begins so. All of the instruction counts, as it was decoded.
    #[inline(always)]
    fn begins(&self, base: u16, from: u16, instruction: &PlacedInstruction) -> bool
        ensures { result ≡ true → self.now ≡ record {
          base = base;
          from = from;
          instruction = instruction.now;
          to = self.now.to;
        } }
    {
        self.from == from && self.base == base && are_same(&self.instruction, instruction)
    }
}

impl Model for Transitions {
    ghost use Rattle.std.specs.Prelude.{List};
    ghost use Rattle.row_table.specs.declared.transitions.Transition.{Transition};

    ghost Value = { List Transition };

    ghost view = { λ t. t.met.items };
}

impl Transitions {
    pub(crate) fn new(alloc: Global) -> Result<Transitions, AllocError>
        ensures { IfOk result (λ t. t ≡ []) }
    {
        Ok(Transitions {
            met: Vec::new(alloc),
            places: vec![in alloc; 0u16; PLACES]?,
        })
    }

    /// Forgets all of them.
    pub(crate) fn clear(&mut self)
        ensures { self.new ≡ [] }
    {
        self.met.clear();
    }

    /// Where the one of a place stands.
    #[inline(always)]
    fn index_at(&self, place: usize) -> Option<usize>
        ensures { IfSome result (λ index. index < length self.now) }
    {
        let above = *self.places.get(place)? as usize;
        if 0 < above && above <= self.met.len() {
            Some(above - 1)
        } else {
            None
        }
    }

    /// The state that came of another by an instruction before, where that is known.
    #[inline(always)]
    pub(crate) fn after(&self, base: u16, from: u16, instruction: &PlacedInstruction) -> Option<u16>
        ensures { (rows : List PlacedRow) → All (IsTransition rows) self.now
            → IfSome result (λ to. IsTransition rows (record {
              base = base;
              from = from;
              instruction = instruction.now;
              to = to;
            })) }
    {
        let transition = &self.met[self.index_at(place_of(from, instruction))?];
        if transition.begins(base, from, instruction) {
            Some(transition.to)
        } else {
            None
        }
    }

    /// Keeps one, and lets go of the one at its place.
    pub(crate) fn keep(&mut self, transition: Transition) -> Result<(), AllocError>
        ensures { (rows : List PlacedRow) → All (IsTransition rows) self.old
            → IsTransition rows transition → All (IsTransition rows) self.new }
    {
        let place = place_of(transition.from, &transition.instruction);
        if let Some(index) = self.index_at(place) {
            self.met[index] = transition;
            return Ok(());
        }
        if self.met.len() < PLACES && place < self.places.len() {
            self.met.push(transition)?;
            self.places[place] = self.met.len() as u16;
        }
        Ok(())
    }
}
