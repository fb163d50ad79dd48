//! The sections that stand, by their keys.

ghost use Rattle.std.specs.Prelude.{◌≡◌, ◌++◌, ◌∷◌, [], length, IfErr, OnOk, OnErr};
ghost use Rattle.std.specs.Prelude.{IfSome, IfNone, List, IsTrue, None, eqb, ◌≢◌, ◌↔◌};
ghost use Rattle.std.specs.Prelude.{drop, take};
ghost use Rattle.std.specs.Cow.{cow_value};
ghost use Rattle.std.specs.Map.{keys_of, lookup};
ghost use Rattle.fde_writer.specs.Places.{PlaceData};
ghost use Rattle.fde_writer.specs.Standing.{HasAsMany, Rewrites, StandingData, standing_under};

use crate::places::Places;
use crate::stack::StandingStack;
use crate::standing::Standing;
use std::alloc::Global;
use std::borrow::Cow;
use std::collections::HashMap;
use std::marker::Model;

/// Under each key the sections that stand. No key stands for none. A section alone under its key,
/// with one member and no note, stands in the table itself, which wants some 15 bytes beside it and
/// its key: a tree would leave half of each leaf empty where keys ascend.
#[derive(Drop)]
pub struct Book {
    stands: HashMap<u64, StandingStack>,
    alloc: Global,
}

impl Model for Book {
    ghost use Rattle.fde_writer.specs.Standing.{Standings};

    ghost Value = { Standings };

    ghost view = { λ b. b.stands.entries };
}

impl Book {
    pub fn new(alloc: Global) -> Book
        ensures { result ≡ [] }
    {
        let stands = HashMap::new(alloc);
        Book { stands, alloc }
    }

    /// Adds a section as the latest under a key, or gives it back where memory runs out.
    pub fn push(&mut self, key: u64, standing: Standing) -> Result<(), Standing>
        ensures pushes { OnOk result (Rewrites key (standing_under key self.old)
            (standing_under key self.old ++ standing ∷ []) self.old self.new) }
        ensures back { IfErr result (λ x. x ≡ standing) }
        ensures err { OnErr result (self.new ≡ self.old) }
    {
        let alloc = self.alloc;
        match self.stands.get_mut(&key) {
            Some(stack) => stack.push(alloc, standing),
            None => self.begin(key, standing),
        }
    }

    /// Adds the first section under a key.
    fn begin(&mut self, key: u64, standing: Standing) -> Result<(), Standing>
        requires { lookup (eqb key) self.old ≡ None }
        ensures pushes { OnOk result (Rewrites key [] (standing ∷ []) self.old self.new) }
        ensures back { IfErr result (λ x. x ≡ standing) }
        ensures err { OnErr result (self.new ≡ self.old) }
    {
        let stack = match StandingStack::of(self.alloc, standing) {
            Ok(stack) => stack,
            Err(standing) => return Err(standing),
        };
        match self.stands.insert(key, stack) {
            Ok(_) => Ok(()),
            Err(failed) => Err(failed.value.1.into_only()),
        }
    }

    /// The latest section under a key.
    pub fn latest(&self, key: u64) -> Option<Cow<'_, Standing>>
        ensures some { IfSome result (λ x. (earlier : List StandingData)
            × (standing_under key self.now ≡ earlier ++ cow_value x ∷ [])) }
        ensures none { IfNone result (standing_under key self.now ≡ []) }
    {
        match self.stands.get(&key) {
            Some(stack) => stack.latest(),
            None => None,
        }
    }

    /// Takes the latest section under a key out.
    pub fn pop(&mut self, key: u64) -> Option<Standing>
        ensures pops { IfSome result (λ x. Rewrites key (standing_under key self.new ++ x ∷ [])
            (standing_under key self.new) self.old self.new) }
        ensures none { IfNone result ((standing_under key self.old ≡ []) × (self.new ≡ self.old)) }
    {
        if self.has_one(key) {
            return Some(self.pop_only(key));
        }
        self.pop_one_of_more(key)
    }

    /// Whether one section stands under a key, and no more.
    fn has_one(&self, key: u64) -> bool
        ensures { IsTrue result ↔ (length (standing_under key self.now) ≡ 1) }
    {
        match self.stands.get(&key) {
            Some(stack) => stack.is_one(),
            None => false,
        }
    }

    /// Takes the only section under a key out.
    fn pop_only(&mut self, key: u64) -> Standing
        requires { length (standing_under key self.old) ≡ 1 }
        ensures { Rewrites key (standing_under key self.new ++ result ∷ [])
            (standing_under key self.new) self.old self.new }
    {
        match self.stands.remove(&key) {
            Some(stack) => stack.into_only(),
            None => unreachable!(),
        }
    }

    /// Takes the latest section under a key out, of none or of several.
    fn pop_one_of_more(&mut self, key: u64) -> Option<Standing>
        requires { length (standing_under key self.old) ≢ 1 }
        ensures pops { IfSome result (λ x. Rewrites key (standing_under key self.new ++ x ∷ [])
            (standing_under key self.new) self.old self.new) }
        ensures none { IfNone result ((standing_under key self.old ≡ []) × (self.new ≡ self.old)) }
    {
        let stack = match self.stands.get_mut(&key) {
            Some(stack) => stack,
            None => return None,
        };
        stack.pop()
    }

    /// How many keys sections stand under. They are written, as far as there is room for them, in
    /// no order.
    pub fn keys(&self, room: &mut [u64]) -> usize
        ensures count { result ≡ length self.now }
        ensures written { room.new ≡ take (length room.old) (keys_of self.now)
            ++ drop (length self.now) room.old }
    {
        let mut count = 0;
        for key in self.stands.keys() {
            if count == room.len() {
                return self.stands.len();
            }
            room[count] = *key;
            count += 1;
        }
        self.stands.len()
    }

    /// Tells the places of the latest section's members, as many as before.
    pub fn settle(&mut self, key: u64, places: Places)
        requires { HasAsMany places (standing_under key self.old) }
        ensures { (earlier : List StandingData) (x : StandingData)
            → standing_under key self.old ≡ earlier ++ x ∷ []
            → Rewrites key (earlier ++ x ∷ [])
            (earlier ++ record x { places = places } ∷ []) self.old self.new }
    {
        let stack = match self.stands.get_mut(&key) {
            Some(stack) => stack,
            None => return,
        };
        stack.settle(places);
    }
}
