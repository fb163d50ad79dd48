//! A section that stands.

ghost use Rattle.std.specs.Prelude.{◌≡◌, IfSome};
ghost use Rattle.fde_writer.specs.Standing.{StandingData, bare_standing};

use crate::place::MemberInHalf;
use crate::places::{Places, PlacesForm};
use crate::seen::SeenSection;
use std::marker::Model;
use std::slice;

/// A section that stands: a note of the program's, and where its members are. Of the section
/// itself nothing is kept but for clauses.
#[derive(Drop)]
pub struct Standing {
    form: Form,
}

/// What all forms have stands in each, so that it lies beside the word that tells them apart.
#[derive(Drop)]
enum Form {
    One {
        section: SeenSection,
        note: u64,
        place: MemberInHalf,
    },
    Many {
        section: SeenSection,
        note: u64,
        places: Vec<MemberInHalf>,
    },
}

impl Model for Standing {
    ghost use Rattle.fde_writer.specs.Forms.{formed};
    ghost use Rattle.fde_writer.specs.Standing.{StandingData};

    ghost Value = { StandingData };

    ghost view = { λ x. formed x.form };
}

impl Standing {
    pub fn new(note: u64, places: Places, section: SeenSection) -> Standing
        ensures { result ≡ record {
          note = note;
          section = section.section;
          places = places;
        } }
    {
        let form = match places.into_parts() {
            PlacesForm::One { place } => Form::One {
                section,
                note,
                place,
            },
            PlacesForm::Many { places } => Form::Many {
                section,
                note,
                places,
            },
        };
        Standing { form }
    }

    /// One with one member and no note.
    pub fn bare(section: SeenSection, place: MemberInHalf) -> Standing
        ensures { result ≡ bare_standing section.section place }
    {
        Standing {
            form: Form::One {
                section,
                note: 0,
                place,
            },
        }
    }

    /// The place of its only member, where it has no note.
    pub fn bare_place(&self) -> Option<MemberInHalf>
        ensures { IfSome result (λ place. self.now ≡ bare_standing self.now.section place) }
    {
        match &self.form {
            Form::One { note: 0, place, .. } => Some(*place),
            _ => None,
        }
    }

    pub fn note(&self) -> u64
        ensures { result ≡ self.now.note }
    {
        match &self.form {
            Form::One { note, .. } => *note,
            Form::Many { note, .. } => *note,
        }
    }

    pub fn places(&self) -> &[MemberInHalf]
        ensures { result.now ≡ self.now.places }
    {
        match &self.form {
            Form::One { place, .. } => slice::from_ref(place),
            Form::Many { places, .. } => places.as_slice(),
        }
    }

    pub fn section(&self) -> SeenSection
        ensures { result.section ≡ self.now.section }
    {
        match &self.form {
            Form::One { section, .. } => section.same(),
            Form::Many { section, .. } => section.same(),
        }
    }

    /// Tells the places of its members.
    pub fn settle(&mut self, places: Places)
        ensures { self.new ≡ record self.old { places = places } }
    {
        let section = self.section();
        *self = Standing::new(self.note(), places, section);
    }
}
