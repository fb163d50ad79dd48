//! What the lines so far make known, and what one more line adds.

ghost use Rattle.std.specs.Prelude.{◌≡◌, ◌≤◌, ◌+◌, ◌-◌, Ok, Err, [], length, if◌then◌else◌};
ghost use Rattle.std.specs.Prelude.{IfOk, IfErr};
ghost use Rattle.event_script.specs.Reading.{◌>=>◌, IsOfBytes};
ghost use Rattle.event_script.specs.Draft.{with_image};
ghost use Rattle.frame_parse.specs.Reading.{section_of};
ghost use Rattle.script_text.specs.ScriptData.{counts_of};
ghost use Rattle.script_text.specs.Fields.{fields_after, is_printable, pieces};
ghost use Rattle.script_text.specs.declared.limits.TheConstants.{MOST_SECTION_BYTES};
ghost use Rattle.event_script.specs.declared.reader.kinds.Stage.TheVariants as stage;
ghost use Rattle.script_text.specs.declared.statement.Statement.TheVariants as statement;
ghost use Rattle.event_script.specs.Draft.{no_snapshot, nothing_known, threads_so_far};
ghost use Rattle.event_script.specs.Draft.{after_snapshot, after_round};
ghost use Rattle.event_script.specs.Reading.{GivesLine, LeavesDraft, spoken_added, section_or};
ghost use Rattle.event_script.specs.Reading.{image_added, last_fixed, is_above, fixed_added};
ghost use Rattle.event_script.specs.Reading.{snapshot_added, memory_added, is_named, added};
ghost use Rattle.event_script.specs.Reading.{after_line, at_end, by_word};
ghost use Rattle.script_text.specs.declared.reason.Reason.TheVariants as reason;

use crate::reader::events::event_of;
use crate::reader::fault::LineFault;
use crate::reader::fields::{first_field, is_printable};
use crate::reader::images::image_of;
use crate::reader::kinds::{Stage, kind_of, may_come};
use crate::reader::snapshot_draft::SnapshotDraft;
use crate::reader::statement::statement_of;
use crate::reader::totals::Totals;
use frame_expr::Regs;
use frame_parse::{FrameFault, Section};
use reg_model::Span;
use script_text::limits::{
    FIRST_VERSION, LAST_VERSION, LEAST_LOADS, LEAST_NODES, MOST_EVENTS, MOST_IMAGES, MOST_LOADS,
    MOST_NODES, MOST_ROUNDS, MOST_SECTION_BYTES, MOST_SNAPSHOTS, MOST_THREADS,
};
use script_text::{
    Event, ImageFields, Kind, MemoryFields, Reason, Round, Snapshot, SnapshotFields, Statement,
    Thread,
};
use std::alloc::Global;
use std::marker::Model;
use std::mem::replace;

/// A script as far as its lines have come.
#[derive(Drop)]
pub struct Draft {
    pub stage: Stage,
    pub version: u32,
    pub nodes: u32,
    pub loads: u32,
    pub images: Vec<Span>,
    pub sections: Vec<Section>,
    pub fixed: Vec<u32>,
    /// The snapshots that are over.
    pub snapshots: Vec<Snapshot>,
    /// The snapshot whose memory goes on.
    pub snapshot: SnapshotDraft,
    /// The rounds that are over.
    pub rounds: Vec<Round>,
    /// The threads that are over, of the round that goes on.
    pub threads: Vec<Thread>,
    /// The events of the thread that goes on.
    pub events: Vec<Event>,
    /// What all events so far come to.
    pub totals: Totals,
}

impl Model for Draft {
    ghost use Rattle.event_script.specs.Draft.{DraftData};

    ghost Value = { DraftData };

    ghost view = { λ d. record {
      stage = d.stage;
      script = record {
        version = d.version;
        nodes = d.nodes;
        loads = d.loads;
        images = d.images.items;
        sections = d.sections.items;
        fixed = d.fixed.items;
        snapshots = d.snapshots.items;
        rounds = d.rounds.items;
      };
      snapshot = d.snapshot;
      threads = d.threads.items;
      events = d.events.items;
      totals = d.totals;
    } };
}

/// The section at an address.
fn section_of(alloc: Global, address: u64, bytes: Vec<u8>) -> Result<Section, LineFault>
    requires { length bytes.items ≤ MOST_SECTION_BYTES }
    ensures { GivesLine result (section_or (section_of address bytes.items)) }
{
    match Section::keep(alloc, address, bytes) {
        Ok(section) => Ok(section),
        Err(fault) => match fault {
            FrameFault::NoMemory => Err(LineFault::NoMemory),
            _ => Err(Reason::Section { fault }.into()),
        },
    }
}

/// Whether the span is wholly above that of the image that was fixed last.
fn is_above_last(images: &[Span], fixed: &[u32], span: &Span) -> bool
    ensures { result ≡ is_above (last_fixed images.now fixed.now) span.now }
{
    let Some(image) = fixed.last() else {
        return true;
    };
    match images.get(*image as usize) {
        None => true,
        Some(before) => before.last() < span.first(),
    }
}

/// Where no snapshot goes on.
fn no_snapshot(alloc: Global) -> SnapshotDraft
    ensures { result ≡ no_snapshot }
{
    SnapshotDraft::new(alloc, Regs { columns: [0; 17] })
}

impl Draft {
    /// Before the first line.
    pub fn new(alloc: Global) -> Self
        ensures { result ≡ nothing_known }
    {
        Draft {
            stage: Stage::Version,
            version: 0,
            nodes: 0,
            loads: 0,
            images: Vec::new(alloc),
            sections: Vec::new(alloc),
            fixed: Vec::new(alloc),
            snapshots: Vec::new(alloc),
            snapshot: no_snapshot(alloc),
            rounds: Vec::new(alloc),
            threads: Vec::new(alloc),
            events: Vec::new(alloc),
            totals: Totals::new(),
        }
    }

    /// Ends the snapshot that goes on, if one does.
    fn end_snapshot(&mut self, alloc: Global) -> Result<(), LineFault>
        ensures { LeavesDraft self.new result (Ok (after_snapshot self.old)) }
    {
        let snapshot = replace(&mut self.snapshot, no_snapshot(alloc));
        match self.stage {
            Stage::Snapshots => self.snapshots.push(snapshot.into_snapshot())?,
            _ => {}
        }
        Ok(())
    }

    /// Ends the thread that goes on, if one does.
    fn end_thread(&mut self, alloc: Global) -> Result<(), LineFault>
        ensures { LeavesDraft self.new result
            (Ok (record self.old { threads = threads_so_far self.old; events = [] })) }
    {
        let events = replace(&mut self.events, Vec::new(alloc));
        match self.stage {
            Stage::Thread => self.threads.push(Thread { events })?,
            _ => {}
        }
        Ok(())
    }

    /// Ends the snapshot or the round that goes on, if one does.
    fn end_round(&mut self, alloc: Global) -> Result<(), LineFault>
        ensures { LeavesDraft self.new result (Ok (after_round self.old self.old.stage)) }
    {
        self.end_snapshot(alloc)?;
        self.end_thread(alloc)?;
        let threads = replace(&mut self.threads, Vec::new(alloc));
        match self.stage {
            Stage::Round | Stage::Thread => self.rounds.push(Round { threads })?,
            _ => {}
        }
        Ok(())
    }

    #[tactic(auto, unfolding(crate::specs::Reading::added))]
    fn version(&mut self, version: u32) -> Result<(), LineFault>
        ensures { LeavesDraft self.new result (added self.old (statement.Version version)) }
    {
        if version < FIRST_VERSION || LAST_VERSION < version {
            return Err(Reason::Limit.into());
        }
        self.stage = Stage::Nodes;
        self.version = version;
        Ok(())
    }

    #[tactic(auto, unfolding(crate::specs::Reading::added))]
    fn nodes(&mut self, nodes: u32) -> Result<(), LineFault>
        ensures { LeavesDraft self.new result (added self.old (statement.Nodes nodes)) }
    {
        if nodes < LEAST_NODES || MOST_NODES < nodes {
            return Err(Reason::Limit.into());
        }
        self.stage = Stage::Loads;
        self.nodes = nodes;
        Ok(())
    }

    #[tactic(auto, unfolding(crate::specs::Reading::added))]
    fn loads(&mut self, loads: u32) -> Result<(), LineFault>
        ensures { LeavesDraft self.new result (added self.old (statement.Loads loads)) }
    {
        if loads < LEAST_LOADS || MOST_LOADS < loads {
            return Err(Reason::Limit.into());
        }
        self.stage = Stage::Images;
        self.loads = loads;
        Ok(())
    }

    /// The span of an image that may come next.
    fn next_span(&self, image: &ImageFields) -> Result<Span, Reason>
        ensures span { IfOk result (λ span. span
            ≡ record { first = image.now.base; last = image.now.base + image.now.size - 1 }) }
        ensures short { IfOk result (λ _. length image.now.bytes ≤ MOST_SECTION_BYTES) }
        ensures may { IfOk result (λ _. image_added self.now image.now
            ≡ (section_or (section_of image.now.section image.now.bytes) >=>
            (λ section. Ok (with_image self.now image.now section)))) }
        ensures why { IfErr result (λ reason. (image_added self.now image.now ≡ Err reason)
            × IsOfBytes reason) }
    {
        if image.number as usize != self.images.len() {
            return Err(Reason::Order);
        }
        if self.images.len() >= MOST_IMAGES || image.bytes.len() > MOST_SECTION_BYTES {
            return Err(Reason::Limit);
        }
        Span::new(image.base, image.size).ok_or(Reason::Span)
    }

    fn image(&mut self, alloc: Global, image: ImageFields) -> Result<(), LineFault>
        ensures { LeavesDraft self.new result (image_added self.old image) }
    {
        let span = self.next_span(&image)?;
        let section = section_of(alloc, image.section, image.bytes)?;
        self.sections.push(section)?;
        self.images.push(span)?;
        Ok(())
    }

    fn fixed(&mut self, image: u32) -> Result<(), LineFault>
        ensures { LeavesDraft self.new result (fixed_added self.old image) }
    {
        let span = self.images.get(image as usize).ok_or(Reason::Name)?;
        if !is_above_last(&self.images, &self.fixed, span) {
            return Err(Reason::Fixed.into());
        }
        self.stage = Stage::Fixed;
        self.fixed.push(image)?;
        Ok(())
    }

    fn snapshot(&mut self, alloc: Global, snapshot: SnapshotFields) -> Result<(), LineFault>
        ensures { LeavesDraft self.new result (snapshot_added self.old snapshot) }
    {
        self.end_snapshot(alloc)?;
        if snapshot.number as usize != self.snapshots.len() {
            return Err(Reason::Order.into());
        }
        if self.snapshots.len() >= MOST_SNAPSHOTS {
            return Err(Reason::Limit.into());
        }
        self.stage = Stage::Snapshots;
        self.snapshot = SnapshotDraft::new(alloc, snapshot.regs);
        Ok(())
    }

    fn memory(&mut self, region: MemoryFields) -> Result<(), LineFault>
        ensures { LeavesDraft self.new result (memory_added self.old region) }
    {
        self.snapshot.push(region)
    }

    #[tactic(auto, unfolding(crate::specs::Reading::added))]
    fn round(&mut self, alloc: Global) -> Result<(), LineFault>
        ensures { LeavesDraft self.new result (added self.old statement.Round) }
    {
        self.end_round(alloc)?;
        if self.rounds.len() >= MOST_ROUNDS {
            return Err(Reason::Limit.into());
        }
        self.stage = Stage::Round;
        Ok(())
    }

    #[tactic(auto, unfolding(crate::specs::Reading::added))]
    fn thread(&mut self, alloc: Global) -> Result<(), LineFault>
        ensures { LeavesDraft self.new result (added self.old statement.Thread) }
    {
        self.end_thread(alloc)?;
        if self.threads.len() >= MOST_THREADS {
            return Err(Reason::Limit.into());
        }
        self.stage = Stage::Thread;
        Ok(())
    }

    /// Whether the event names nothing that there isn't.
    fn is_named(&self, event: Event) -> bool
        ensures { result ≡ is_named (counts_of self.now.script) event }
    {
        match event {
            Event::Register { image } | Event::Replace { image } | Event::Load { image } => {
                (image as usize) < self.images.len()
            }
            Event::Unwind { snapshot } => (snapshot as usize) < self.snapshots.len(),
            _ => true,
        }
    }

    #[tactic(auto, unfolding(crate::specs::Reading::added))]
    fn event(&mut self, event: Event) -> Result<(), LineFault>
        ensures { LeavesDraft self.new result (added self.old (statement.Event event)) }
    {
        if self.events.len() >= MOST_EVENTS || !self.totals.has_room(event) {
            return Err(Reason::Limit.into());
        }
        if !self.is_named(event) {
            return Err(Reason::Name.into());
        }
        self.totals.add(event);
        self.events.push(event)?;
        Ok(())
    }

    #[tactic(auto, unfolding(crate::specs::Reading::added))]
    fn end(&mut self, alloc: Global) -> Result<(), LineFault>
        ensures { LeavesDraft self.new result (added self.old statement.End) }
    {
        self.end_round(alloc)?;
        self.stage = Stage::Ended;
        Ok(())
    }

    /// Adds what a line says.
    #[tactic(auto, unfolding(crate::specs::Reading::added))]
    fn add(&mut self, alloc: Global, statement: Statement) -> Result<(), LineFault>
        ensures { LeavesDraft self.new result (added self.old statement) }
    {
        match statement {
            Statement::Version(version) => self.version(version),
            Statement::Nodes(nodes) => self.nodes(nodes),
            Statement::Loads(loads) => self.loads(loads),
            Statement::Image(image) => self.image(alloc, image),
            Statement::Fixed(image) => self.fixed(image),
            Statement::Snapshot(snapshot) => self.snapshot(alloc, snapshot),
            Statement::Memory(region) => self.memory(region),
            Statement::Round => self.round(alloc),
            Statement::Thread => self.thread(alloc),
            Statement::Event(event) => self.event(event),
            Statement::End => self.end(alloc),
        }
    }

    /// Adds what a line of the kind says with the fields that follow its word.
    fn read_fields(&mut self, alloc: Global, kind: Kind, rest: &[u8]) -> Result<(), LineFault>
        ensures { LeavesDraft self.new result (spoken_added self.old kind (fields_after rest.now)) }
    {
        let statement = statement_of(alloc, kind, rest)?;
        self.add(alloc, statement)
    }

    /// Reads a line field by field.
    #[tactic(auto, unfolding(crate::specs::Reading::by_word))]
    fn read_by_fields(&mut self, alloc: Global, line: &[u8]) -> Result<(), LineFault>
        ensures { LeavesDraft self.new result (if is_printable line.now
            then by_word self.old (pieces 32 line.now) else Err reason.Byte) }
    {
        if !is_printable(line) {
            return Err(Reason::Byte.into());
        }
        let (word, rest) = first_field(line);
        let kind = kind_of(word).ok_or(Reason::Word)?;
        if !may_come(self.version, self.stage, kind) {
            return Err(Reason::Word.into());
        }
        self.read_fields(alloc, kind, rest)
    }

    /// Reads a line of a thread.
    fn read_event(&mut self, alloc: Global, line: &[u8]) -> Result<(), LineFault>
        requires { self.old.stage ≡ stage.Thread }
        ensures { LeavesDraft self.new result (after_line self.old line.now) }
    {
        match event_of(self.version, line) {
            // What came of it isn't handed on whole: a copy would wait for the parts just stored.
            Some(event) => {
                self.event(event)?;
                Ok(())
            }
            None => self.read_by_fields(alloc, line),
        }
    }

    /// Reads a line where images come.
    fn read_image(&mut self, alloc: Global, line: &[u8]) -> Result<(), LineFault>
        requires { self.old.stage ≡ stage.Images }
        ensures { LeavesDraft self.new result (after_line self.old line.now) }
    {
        let found = image_of(alloc, line)?;
        match found {
            Some(image) => self.image(alloc, image),
            None => self.read_by_fields(alloc, line),
        }
    }

    /// Reads a line, which comes here without its line feed.
    #[tactic(auto, unfolding(crate::specs::Reading::after_line))]
    pub fn read_line(&mut self, alloc: Global, line: &[u8]) -> Result<(), LineFault>
        ensures { LeavesDraft self.new result (after_line self.old line.now) }
    {
        match self.stage {
            Stage::Ended => Err(Reason::After.into()),
            Stage::Thread => self.read_event(alloc, line),
            Stage::Images => self.read_image(alloc, line),
            _ => self.read_by_fields(alloc, line),
        }
    }

    /// Looks at what is left where no line feed comes any more.
    #[tactic(auto, unfolding(crate::specs::Reading::at_end))]
    pub fn check_end(&self, rest: &[u8]) -> Result<(), LineFault>
        ensures { LeavesDraft self.now result (at_end self.now rest.now) }
    {
        match (self.stage, rest) {
            (Stage::Ended, []) => Ok(()),
            (Stage::Ended, _) => Err(Reason::After.into()),
            (_, []) => Err(Reason::Missing.into()),
            _ => Err(Reason::Unended.into()),
        }
    }
}
