//! The writer of sections.

ghost use Rattle.std.specs.Prelude.{◌≡◌, ◌≢◌, ◌+◌, ◌-◌, ◌*◌, ◌^◌, ◌<◌, ◌≤◌, [], ◌∷◌, IfOk, false};
ghost use Rattle.std.specs.Prelude.{IsTrue, ◌↔◌, ◌++◌, length, vec_len, vec_capacity};
ghost use Rattle.std.specs.Arc.{arc_value};
ghost use Rattle.fde_members.specs.Members.{AreNear, section_members};
ghost use Rattle.sole_writer.specs.Writers.{plain_registry};
ghost use Rattle.word_rule.specs.Logs.{reader_of};
ghost use Rattle.word_rule.specs.Places.{ALLOWANCE};
ghost use Rattle.fde_writer.specs.Outcomes.{IsDeregistration, IsRegistration, not_put, refused};
ghost use Rattle.fde_writer.specs.Outcomes.{IsGivenAway, IsMoving};
ghost use Rattle.fde_writer.specs.Places.{all_registered, placed_members};
ghost use Rattle.fde_writer.specs.Sections.{IsFdeWriter, members_due};
ghost use Rattle.fde_writer.specs.Standing.{standing_under};

mod keys;

use crate::book::Book;
use crate::entering::{SectionFault, enter};
use crate::moving::{have_spans, moved_members};
use crate::outcome::{Deregistration, Moving, Numbers, Registration};
use crate::places::Places;
use crate::putting::{PutFault, take_back};
use crate::seen::SeenSection;
use crate::standing::Standing;
use fde_members::laws::payloads_lead;
use fde_members::{MembersFault, section_members};
use frame_parse::Section;
use reg_model::{Member, NoMemory};
use registry_core::Registry;
use sole_writer::Writer;
use std::alloc::Global;
use std::marker::Model;
use std::snapshot::Snapshot;
use std::sync::Arc;
use word_rule::Reader;

/// A registry, and the sections whose members stand in it.
#[derive(Drop)]
pub struct FdeWriter {
    client: Writer,
    low: u64,
    book: Book,
    /// The sections that were begun to be registered, which only clauses read: they have no bytes.
    given: Vec<Snapshot<Standing>>,
    /// How many members stand.
    due: u32,
    alloc: Global,
}

impl Model for FdeWriter {
    ghost use Rattle.std.specs.Prelude.{map};
    ghost use Rattle.fde_writer.specs.Sections.{FdeWriterData, IsFdeWriterWith, fde_writer};

    ghost Value = { FdeWriterData };

    ghost view = { λ w.
        fde_writer w.client w.low w.book (map (λ s. s.value.section) w.given.items) };

    ghost invariant = { λ w. IsFdeWriterWith w.due
        (fde_writer w.client w.low w.book (map (λ s. s.value.section) w.given.items)) };
}

impl FdeWriter {
    /// A writer of a new registry, in which distances are counted from `low`.
    pub fn new(alloc: Global, nodes: u32, loads: u32, low: u64) -> Result<FdeWriter, NoMemory>
        requires nodes { (4 ≤ nodes) × (nodes ≤ 16384) }
        requires loads { (1 ≤ loads) × (loads ≤ 1024) }
        ensures terms { IfOk result (λ w. w.client.words.terms ≡ record {
          nodes = nodes;
          loads = loads;
          payloads = 2 ^ 32 - 1;
          fixed = [];
        }) }
        ensures low { IfOk result (λ w. w.low ≡ low) }
        ensures none { IfOk result (λ w. (w.stands ≡ []) × (w.ever ≡ [])) }
        ensures updates { IfOk result (λ w. (plain_registry w.client).updates ≡ 0) }
        ensures left { IfOk result (λ w. w.client.me.left ≡ ALLOWANCE) }
        ensures free { IfOk result (λ w. w.client.stuck ≡ false) }
    {
        let client = Writer::new(alloc, nodes, loads, u32::MAX)?;
        let book = Book::new(alloc);
        let given = Vec::new(alloc);
        Ok(FdeWriter {
            client,
            low,
            book,
            given,
            due: 0,
            alloc,
        })
    }

    /// What holds of it between any two calls.
    pub fn known(&self)
        ensures { IsFdeWriter self.now }
    {
        let _ = &self.client;
    }

    /// Where distances are counted from.
    pub fn low(&self) -> u64
        ensures { result ≡ self.now.low }
    {
        self.low
    }

    /// Whether a lock was found taken.
    pub fn stuck(&self) -> bool
        ensures { result ≡ self.now.client.stuck }
    {
        self.client.stuck()
    }

    /// How many update calls are left.
    pub fn left(&self) -> u32
        ensures { result ≡ self.now.client.me.left }
    {
        self.client.left()
    }

    /// How many members stand: as many update calls are due to taking them away.
    pub fn due(&self) -> u32
        ensures { result ≡ members_due self.now }
    {
        self.due
    }

    /// The registry, of which readers are made.
    pub fn registry(&self) -> &Registry
        ensures { result.now ≡ self.now.client.words }
    {
        self.client.registry()
    }

    /// A share of it, for readers that may outlive the writer.
    pub fn share(&self) -> Result<Arc<Registry, Global>, NoMemory>
        ensures { IfOk result (λ registry. arc_value registry ≡ self.now.client.words) }
    {
        self.client.share()
    }

    /// A reader of it that has seen what the writer has.
    pub fn reader(&mut self) -> Reader
        ensures reader { result ≡ record {
          table = self.old.client.words.table;
          left = 0;
          log = reader_of self.old.client.me.log;
        } }
        ensures same { self.new ≡ self.old }
    {
        self.client.reader()
    }

    /// Registers a section whole, or not at all, as the latest under a key. A member goes into the
    /// half of registered members, or where it overlaps one there into the other half.
    pub fn register(&mut self, key: u64, note: u64, section: &Section) -> Registration
        ensures { IsRegistration key note section.now self.old self.new result }
    {
        if self.client.stuck() {
            return Registration::Stuck;
        }
        let members = match section_members(self.alloc, self.low, section) {
            Ok(members) => members,
            Err(fault) => return refused(fault),
        };
        self.stand_with(key, note, &members, SeenSection::of(section))
    }

    /// Registers the section that stands in another writer's registry, where distances are counted
    /// from `low`.
    fn take_in(&mut self, key: u64, low: u64, standing: &Standing) -> Registration
        requires { placed_members standing.now.places
            ≡ section_members low standing.now.section }
        ensures { IsRegistration key standing.now.note standing.now.section
            self.old self.new result }
    {
        if self.client.stuck() {
            return Registration::Stuck;
        }
        payloads_lead();
        have_spans(standing.places());
        let members = match moved_members(self.alloc, low, self.low, standing.places()) {
            Ok(members) => members,
            Err(fault) => return refused(fault),
        };
        self.stand_with(key, standing.note(), &members, standing.section())
    }

    /// Registers a section with these members.
    fn stand_with(
        &mut self,
        key: u64,
        note: u64,
        members: &[Member],
        section: SeenSection,
    ) -> Registration
        requires free { self.old.client.stuck ≡ false }
        requires near { AreNear members.now }
        requires whole { members.now ≡ section_members self.old.low section.section }
        ensures { IsRegistration key note section.section self.old self.new result }
    {
        if !self.has_calls(members.len()) {
            return Registration::Spent;
        }
        let Ok(places) = Places::registered(self.alloc, members) else {
            return Registration::NoMemory;
        };
        let Ok(entered) = Places::registered(self.alloc, members) else {
            return Registration::NoMemory;
        };
        self.stand(key, Standing::new(note, entered, section), places)
    }

    /// Whether update calls enough are left for a section of so many members.
    fn has_calls(&self, members: usize) -> bool
        ensures enough { IsTrue result
            ↔ (members_due self.now + 3 * members ≤ self.now.client.me.left) }
        ensures left { self.now.client.me.left < 2 ^ 32 }
    {
        let wanted = members.saturating_mul(3).saturating_add(self.due as usize);
        wanted <= self.client.left() as usize
    }

    /// Registers a section whose members are at hand.
    fn stand(&mut self, key: u64, standing: Standing, places: Places) -> Registration
        requires free { self.old.client.stuck ≡ false }
        requires left { self.old.client.me.left < 2 ^ 32 }
        requires near { AreNear (section_members self.old.low standing.section) }
        requires enough { members_due self.old + 3 * length standing.places
            ≤ self.old.client.me.left }
        requires places { places ≡ standing.places }
        requires registered { standing.places ≡ all_registered (placed_members standing.places) }
        requires whole { placed_members standing.places
            ≡ section_members self.old.low standing.section }
        ensures { IsRegistration key standing.note standing.section self.old self.new result }
    {
        if self.given.try_reserve(1).is_err() {
            return Registration::NoMemory;
        }
        let seen = Snapshot::of(&standing);
        let count = places.count() as u32;
        match enter(&mut self.client, &mut self.book, key, standing, places) {
            Ok(numbers) => {
                self.due += count;
                note_given(&mut self.given, seen);
                Registration::Done { numbers }
            }
            Err(SectionFault::NoMemory) => Registration::NoMemory,
            Err(SectionFault::NotPut { fault }) => {
                note_given(&mut self.given, seen);
                not_put(fault)
            }
        }
    }

    /// Moves the latest section under a key to another writer: it is put there before it is taken
    /// away here. Where it is refused there, all is here as it was.
    pub fn move_to(&mut self, into: &mut FdeWriter, key: u64) -> Moving
        ensures { IsMoving key self.old self.new into.old into.new result }
    {
        if self.client.stuck() {
            return Moving::Stuck;
        }
        let told = match self.book.latest(key) {
            Some(standing) => into.take_in(key, self.low, &standing),
            None => return Moving::Unknown,
        };
        match told {
            Registration::Done { numbers } => self.give_away(key, numbers),
            why => Moving::Refused { why },
        }
    }

    /// Takes the latest section under a key away, which was moved by updates with these numbers.
    fn give_away(&mut self, key: u64, numbers: Numbers) -> Moving
        requires free { self.old.client.stuck ≡ false }
        requires stands { standing_under key self.old.stands ≢ [] }
        ensures { IsGivenAway key numbers self.old self.new result }
    {
        match self.deregister(key) {
            Deregistration::Done { note, .. } => Moving::Done { note, numbers },
            Deregistration::Unknown => unreachable!(),
            Deregistration::Stuck => Moving::Left { numbers },
        }
    }

    /// Gives the latest section under a key up.
    pub fn deregister(&mut self, key: u64) -> Deregistration
        ensures { IsDeregistration key self.old self.new result }
    {
        if self.client.stuck() {
            return Deregistration::Stuck;
        }
        let standing = match self.book.pop(key) {
            Some(standing) => standing,
            None => return Deregistration::Unknown,
        };
        self.due -= standing.places().len() as u32;
        match take_back(&mut self.client, standing.places()) {
            Ok(numbers) => Deregistration::Done {
                note: standing.note(),
                numbers,
            },
            Err(_) => Deregistration::Stuck,
        }
    }
}

/// How a registration ends where a section has no members to put.
fn refused(fault: MembersFault) -> Registration
    ensures { result ≡ refused fault }
{
    match fault {
        MembersFault::NoMemory => Registration::NoMemory,
        MembersFault::Far { distance } => Registration::Far { distance },
    }
}

/// How it ends where they couldn't be put.
fn not_put(fault: PutFault) -> Registration
    ensures { result ≡ not_put fault }
{
    match fault {
        PutFault::Overlap => Registration::Overlap,
        PutFault::Full => Registration::Full,
        PutFault::Stuck => Registration::Stuck,
    }
}

/// Notes a section that was begun to be registered; there is room for it.
fn note_given(given: &mut Vec<Snapshot<Standing>>, seen: Snapshot<Standing>)
    requires { vec_len given.old < vec_capacity given.old }
    ensures { given.new.items ≡ given.old.items ++ seen ∷ [] }
{
    match given.push(seen) {
        Ok(()) => {}
        Err(_) => unreachable!(),
    }
}
