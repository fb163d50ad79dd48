//! The places of a section's members.

ghost use Rattle.std.specs.Prelude.{◌≡◌, ◌∷◌, [], IfOk, IfErr, IsTrue, false, length};
ghost use Rattle.fde_writer.specs.PlaceForms.{places_of};
ghost use Rattle.fde_writer.specs.Places.{PlaceData, all_registered, placed_members};
ghost use Rattle.fde_writer.specs.Puttings.{HasCallsFor, HasPayloadsOf, IsFaultOfAll, PutsAll};

use crate::outcome::Numbers;
use crate::place::{MemberInHalf, registered_places};
use crate::putting::{PutFault, put_all};
use reg_model::{Half, Member, NoMemory};
use sole_writer::Writer;
use std::alloc::Global;
use std::marker::Model;
use std::slice;

/// Those of a section's members, in order of bytes.
#[derive(Drop)]
pub struct Places {
    places: PlacesForm,
}

/// Most sections of compilers have one member, whose place needs no vector.
#[derive(Drop)]
pub enum PlacesForm {
    One { place: MemberInHalf },
    Many { places: Vec<MemberInHalf> },
}

impl Model for Places {
    ghost use Rattle.std.specs.Prelude.{List};
    ghost use Rattle.fde_writer.specs.PlaceForms.{places_of};
    ghost use Rattle.fde_writer.specs.Places.{PlaceData};

    ghost Value = { List PlaceData };

    ghost view = { λ p. places_of p.places };
}

impl Places {
    /// A registered place for each member.
    pub fn registered(alloc: Global, members: &[Member]) -> Result<Places, NoMemory>
        ensures places { IfOk result (λ p. p ≡ all_registered members.now) }
        ensures members { IfOk result (λ p. placed_members p ≡ members.now) }
    {
        if let [member] = members {
            let place = MemberInHalf::new(member, Half::Registered);
            let places = PlacesForm::One { place };
            return Ok(Places { places });
        }
        let places = registered_places(alloc, members)?;
        let places = PlacesForm::Many { places };
        Ok(Places { places })
    }

    /// Whether it is one place, in the half of registered members.
    pub fn is_one_registered(&self) -> bool
        ensures { IsTrue result → self.now ≡ all_registered (placed_members self.now) }
    {
        match &self.places {
            PlacesForm::One { place } => match place.half() {
                Half::Registered => true,
                Half::Loaded => false,
            },
            PlacesForm::Many { .. } => false,
        }
    }

    /// How many they are.
    pub fn count(&self) -> usize
        ensures { result ≡ length self.now }
    {
        match &self.places {
            PlacesForm::One { .. } => 1,
            PlacesForm::Many { places } => places.len(),
        }
    }

    /// Puts their members, and tells in which halves they stand: all of them, or none.
    pub fn put(&mut self, writer: &mut Writer) -> Result<Numbers, PutFault>
        requires free { writer.old.stuck ≡ false }
        requires left { HasCallsFor self.old writer.old }
        requires payloads { HasPayloadsOf self.old writer.old }
        ensures put { IfOk result (PutsAll self.old self.new writer.old writer.new) }
        ensures fault { IfErr result (IsFaultOfAll self.old writer.old writer.new) }
    {
        match &mut self.places {
            PlacesForm::One { place } => put_all(writer, slice::from_mut(place)),
            PlacesForm::Many { places } => put_all(writer, places),
        }
    }

    /// The only one.
    pub fn only(&self) -> MemberInHalf
        requires { length self.now ≡ 1 }
        ensures { self.now ≡ result ∷ [] }
    {
        match &self.places {
            PlacesForm::One { place } => *place,
            PlacesForm::Many { places } => places[0],
        }
    }

    /// Takes them apart.
    pub fn into_parts(self) -> PlacesForm
        ensures { places_of result ≡ self }
    {
        self.places
    }
}
