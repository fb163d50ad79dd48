//! The sections that stand under one key, in the order in which they came.

ghost use Rattle.std.specs.Prelude.{◌≡◌, ◌≢◌, ◌++◌, ◌∷◌, [], ◌<◌, ◌≤◌, length, IfErr, OnOk, OnErr};
ghost use Rattle.std.specs.Prelude.{IfOk, IfSome, IfNone, List, IsTrue, ◌↔◌};
ghost use Rattle.std.specs.Prelude.{vec_capacity, vec_len};
ghost use Rattle.std.specs.Cow.{cow_value};
ghost use Rattle.std.specs.Option.{option_to_list};
ghost use Rattle.fde_writer.specs.Places.{PlaceData};
ghost use Rattle.fde_writer.specs.Standing.{HasAsMany, StandingData, bare_standing};

use crate::place::MemberInHalf;
use crate::places::Places;
use crate::seen::SeenSection;
use crate::standing::Standing;
use reg_model::{Half, Member, NoMemory, Span};
use std::alloc::Global;
use std::borrow::Cow;
use std::marker::Model;

/// Sections that stand, of which the latest goes first.
#[derive(Drop)]
pub struct StandingStack {
    layers: Layers,
}

/// Under most keys stands one section, with one member and no note. What it is kept by lies beside
/// the word that tells it from the others.
#[derive(Drop)]
enum Layers {
    Bare {
        section: SeenSection,
        half: Half,
        payload: u32,
        span: Span,
    },
    More {
        all: Box<Vec<Standing>>,
    },
}

/// A map keeps so much for each key.
const _: () = prove!(size_of::<StandingStack>() == 24);

impl Model for StandingStack {
    ghost use Rattle.std.specs.Prelude.{List};
    ghost use Rattle.fde_writer.specs.Layers.{layered};
    ghost use Rattle.fde_writer.specs.Standing.{StandingData};

    ghost Value = { List StandingData };

    ghost view = { λ s. layered s.layers };
}

impl StandingStack {
    /// One section, which is given back where memory runs out.
    pub fn of(alloc: Global, only: Standing) -> Result<StandingStack, Standing>
        ensures ok { IfOk result (λ stack. stack ≡ only ∷ []) }
        ensures back { IfErr result (λ x. x ≡ only) }
    {
        match only.bare_place() {
            Some(place) => Ok(StandingStack::bare(only.section(), &place)),
            None => StandingStack::one(alloc, only),
        }
    }

    /// One section with one member and no note.
    fn bare(section: SeenSection, place: &MemberInHalf) -> StandingStack
        ensures { result ≡ bare_standing section.section place.now ∷ [] }
    {
        let Member { span, payload } = place.member();
        StandingStack {
            layers: Layers::Bare {
                section,
                half: place.half(),
                payload,
                span,
            },
        }
    }

    /// Any section, which is given back where memory runs out.
    fn one(alloc: Global, only: Standing) -> Result<StandingStack, Standing>
        ensures ok { IfOk result (λ stack. stack ≡ only ∷ []) }
        ensures back { IfErr result (λ x. x ≡ only) }
    {
        let Ok(all) = room(alloc, 1) else {
            return Err(only);
        };
        Ok(StandingStack {
            layers: Layers::More {
                all: with(all, only),
            },
        })
    }

    /// Two sections, of which the second is given back where memory runs out.
    fn two(alloc: Global, first: Standing, second: Standing) -> Result<StandingStack, Standing>
        ensures ok { IfOk result (λ stack. stack ≡ first ∷ second ∷ []) }
        ensures back { IfErr result (λ x. x ≡ second) }
    {
        let Ok(all) = room(alloc, 2) else {
            return Err(second);
        };
        Ok(StandingStack {
            layers: Layers::More {
                all: with(with(all, first), second),
            },
        })
    }

    /// Whether one section stands here, and no more.
    pub fn is_one(&self) -> bool
        ensures { IsTrue result ↔ (length self.now ≡ 1) }
    {
        match &self.layers {
            Layers::Bare { .. } => true,
            Layers::More { all } => all.len() == 1,
        }
    }

    /// Adds a section, or gives it back where memory runs out.
    pub fn push(&mut self, alloc: Global, standing: Standing) -> Result<(), Standing>
        ensures ok { OnOk result (self.new ≡ self.old ++ standing ∷ []) }
        ensures back { IfErr result (λ x. x ≡ standing) }
        ensures err { OnErr result (self.new ≡ self.old) }
    {
        let only = match &mut self.layers {
            Layers::Bare {
                section,
                half,
                payload,
                span,
            } => made(section, *half, *payload, *span),
            Layers::More { all } => return add(all, standing),
        };
        match StandingStack::two(alloc, only, standing) {
            Ok(stack) => *self = stack,
            Err(standing) => return Err(standing),
        }
        Ok(())
    }

    /// The latest one.
    pub fn latest(&self) -> Option<Cow<'_, Standing>>
        ensures some { IfSome result (λ x. (earlier : List StandingData)
            × (self.now ≡ earlier ++ cow_value x ∷ [])) }
        ensures none { IfNone result (self.now ≡ []) }
    {
        match &self.layers {
            Layers::Bare {
                section,
                half,
                payload,
                span,
            } => Some(Cow::Owned(made(section, *half, *payload, *span))),
            Layers::More { all } => match last(all) {
                Some(standing) => Some(Cow::Borrowed(standing)),
                None => None,
            },
        }
    }

    /// Tells the places of the latest one's members, as many as before.
    pub fn settle(&mut self, places: Places)
        requires { HasAsMany places self.old }
        ensures { (earlier : List StandingData) (x : StandingData)
            → self.old ≡ earlier ++ x ∷ []
            → self.new ≡ earlier ++ record x { places = places } ∷ [] }
    {
        let section = match &mut self.layers {
            Layers::Bare { section, .. } => section.same(),
            Layers::More { all } => return settle_last(all, places),
        };
        *self = StandingStack::bare(section, &places.only());
    }

    /// Takes the latest one out, where it isn't kept alone.
    pub fn pop(&mut self) -> Option<Standing>
        requires { length self.old ≢ 1 }
        ensures latest { self.old ≡ self.new ++ option_to_list result }
        ensures none { IfNone result (self.old ≡ []) }
    {
        match &mut self.layers {
            Layers::Bare { .. } => unreachable!(),
            Layers::More { all } => all.pop(),
        }
    }

    /// The only one.
    pub fn into_only(self) -> Standing
        requires { length self ≡ 1 }
        ensures { self ≡ result ∷ [] }
    {
        match self.layers {
            Layers::Bare {
                section,
                half,
                payload,
                span,
            } => made(&section, half, payload, span),
            Layers::More { all } => only_of(Box::into_inner(all)),
        }
    }
}

/// A section with one member and no note, of what it is kept by.
fn made(section: &SeenSection, half: Half, payload: u32, span: Span) -> Standing
    ensures { result ≡ bare_standing section.now.section
        (record { member = record { span = span; payload = payload }; half = half }) }
{
    Standing::bare(
        section.same(),
        MemberInHalf::new(&Member { span, payload }, half),
    )
}

/// Room for so many sections, and none yet.
fn room(alloc: Global, count: usize) -> Result<Box<Vec<Standing>>, NoMemory>
    ensures empty { IfOk result (λ all. all.value.items ≡ []) }
    ensures room { IfOk result (λ all. count ≤ vec_capacity all.value) }
{
    let Ok(all) = Vec::with_capacity(alloc, count) else {
        return Err(NoMemory);
    };
    match Box::new(alloc, all) {
        Ok(all) => Ok(all),
        Err(_) => Err(NoMemory),
    }
}

/// Some sections and one more, for which there is room.
fn with(all: Box<Vec<Standing>>, standing: Standing) -> Box<Vec<Standing>>
    requires { vec_len all.value < vec_capacity all.value }
    ensures items { result.value.items ≡ all.value.items ++ standing ∷ [] }
    ensures room { vec_capacity result.value ≡ vec_capacity all.value }
{
    let mut all = all;
    all.push_reserved(standing);
    all
}

fn add(all: &mut Vec<Standing>, standing: Standing) -> Result<(), Standing>
    ensures ok { OnOk result (all.new.items ≡ all.old.items ++ standing ∷ []) }
    ensures back { IfErr result (λ x. x ≡ standing) }
    ensures err { OnErr result (all.new.items ≡ all.old.items) }
{
    match all.push(standing) {
        Ok(()) => Ok(()),
        Err(failed) => Err(failed.value),
    }
}

fn last(all: &[Standing]) -> Option<&Standing>
    ensures some { IfSome result (λ x. (earlier : List StandingData)
        × (all.now ≡ earlier ++ x.now ∷ [])) }
    ensures none { IfNone result (all.now ≡ []) }
{
    if all.is_empty() {
        return None;
    }
    Some(&all[all.len() - 1])
}

fn settle_last(all: &mut Vec<Standing>, places: Places)
    ensures { (earlier : List StandingData) (x : StandingData)
        → all.old.items ≡ earlier ++ x ∷ []
        → all.new.items ≡ earlier ++ record x { places = places } ∷ [] }
{
    if all.is_empty() {
        return;
    }
    let latest = all.len() - 1;
    all[latest].settle(places);
}

fn only_of(all: Vec<Standing>) -> Standing
    requires { length all.items ≡ 1 }
    ensures { all.items ≡ result ∷ [] }
{
    let mut all = all;
    match all.pop() {
        Some(only) => only,
        None => unreachable!(),
    }
}
