//! Raises: the search for a handler, and the cleanup.

ghost use Rattle.std.specs.Prelude.{◌≡◌, ◌+◌, ◌<◌, ◌≤◌, [], ◌∷◌, ◌++◌, All, IfOk, OnErr, IfSome};
ghost use Rattle.std.specs.Prelude.{IfNone, length, vec_len, vec_capacity, MatchBool};
ghost use Rattle.std.specs.List.{AllZip};
ghost use Rattle.reg_model.specs.Receipt.{IsPlace};
ghost use Rattle.unwind_step.specs.Finders.{GoesThrough};
ghost use Rattle.unwind_step.specs.Walks.{IsUnasked};
ghost use Rattle.raise_phases.specs.Raising.{RaiseUnfolds, SearchUnfolds, EndsRaise, Repeats};
ghost use Rattle.raise_phases.specs.Raising.{IsChange, lines_of};
ghost use Rattle.raise_phases.specs.declared.raised.RaiseEnd.TheVariants as ends;

use crate::judgement::{SearchEnd, Tables};
use crate::raised::{Phase, RaiseEnd, Raised};
use frame_expr::{Memory, Regs};
use frame_parse::Section;
use reg_model::{Member, NoMemory, Place};
use std::alloc::Global;
use std::sync::Wait;
use unwind_step::{Finder, FrameLine, Walk, hit_of};

/// A stack has no more frames than these.
const MOST_FRAMES: usize = 256;

/// The search's frames, and how it ended.
#[derive(Drop)]
struct Searched {
    phases: Vec<Phase>,
    end: SearchEnd,
}

/// The cleanup's frames, and where the answers changed, if they did.
#[derive(Drop)]
struct Cleaned {
    phases: Vec<Phase>,
    change: Option<Change>,
}

/// A frame for which the answers differ.
#[derive(Clone, Copy)]
struct Change {
    frame: u32,
    first: Place,
    second: Place,
}

impl Change {
    fn end(&self) -> RaiseEnd
        ensures { result ≡ ends.Changed self.now.frame self.now.first self.now.second }
    {
        RaiseEnd::Changed {
            frame: self.frame,
            first: self.first,
            second: self.second,
        }
    }
}

/// Adds an item, where there is room.
fn add<T: Copy>(items: &mut Vec<T>, item: &T)
    requires { vec_len items.old < vec_capacity items.old }
    ensures items { items.new.items ≡ items.old.items ++ item.now ∷ [] }
    ensures len { vec_len items.new ≡ vec_len items.old + 1 }
    ensures capacity { vec_capacity items.old ≤ vec_capacity items.new }
{
    let _ = items.push(*item);
}

/// The search, with room for all its frames.
fn search<R: Wait, F: Finder>(
    rt: &R,
    finder: &mut F,
    mut walk: Walk<'_>,
    tables: &Tables<'_>,
    mut phases: Vec<Phase>,
) -> Searched
    requires unasked { IsUnasked walk }
    requires start { walk.lines ≡ [] }
    requires sections { walk.sections ≡ tables.now.sections.now }
    requires memory { walk.memory ≡ tables.now.memory.now }
    requires empty { phases.items ≡ [] }
    requires room { 256 ≤ vec_capacity phases }
    requires bound { F.bound finder.old ≤ length tables.now.sections.now }
    ensures unfolds { SearchUnfolds tables.now.sections.now tables.now.memory.now walk.entry.regs
        tables.now.kind result.phases.items result.end }
    ensures queries { GoesThrough F.answers finder.old (lines_of result.phases.items) finder.new }
    ensures halves { All (λ line. IsPlace line.place) (lines_of result.phases.items) }
    ensures bound { F.bound finder.new ≡ F.bound finder.old }
{
    'frames: loop {
        let frame = phases.len() as u32;
        let line = walk.ask(rt, finder);
        let judgement = tables.judge(&line);
        let verdict = judgement.verdict();
        add(&mut phases, &Phase { line, verdict });
        if let Some(end) = judgement.stop(frame) {
            return Searched { phases, end };
        }
        if let Some(end) = walk.up() {
            let end = RaiseEnd::Uncaught { end };
            return Searched {
                phases,
                end: SearchEnd::Failed { end },
            };
        }
    }
}

fn is_same(one: &Member, other: &Member) -> bool
    ensures { MatchBool result (one.now ≡ other.now) (¬ (one.now ≡ other.now)) }
{
    if one.span.first() != other.span.first() {
        return false;
    }
    if one.span.last() != other.span.last() {
        return false;
    }
    one.payload == other.payload
}

/// Whether both are the same span with the same payload, or none.
fn is_same_hit(one: &Option<Member>, other: &Option<Member>) -> bool
    ensures { MatchBool result (one.now ≡ other.now) (¬ (one.now ≡ other.now)) }
{
    match one {
        None => match other {
            None => true,
            Some(_) => false,
        },
        Some(one) => match other {
            None => false,
            Some(other) => is_same(one, other),
        },
    }
}

/// Asks again for each frame of the search, at the same address, until an answer is another member.
fn clean_up<R: Wait, F: Finder>(
    rt: &R,
    finder: &mut F,
    search: &[Phase],
    mut phases: Vec<Phase>,
) -> Cleaned
    requires count { length search.now ≤ 256 }
    requires empty { phases.items ≡ [] }
    requires room { 256 ≤ vec_capacity phases }
    ensures same { IfNone result.change (AllZip Repeats search.now result.phases.items) }
    ensures change { IfSome result.change
        (λ c. IsChange c.frame search.now result.phases.items c.first c.second) }
    ensures queries { GoesThrough F.answers finder.old (lines_of result.phases.items) finder.new }
    ensures halves { All (λ line. IsPlace line.place) (lines_of result.phases.items) }
    ensures bound { F.bound finder.new ≡ F.bound finder.old }
{
    'frames: while phases.len() < search.len() {
        let index = phases.len();
        let searched = &search[index];
        let look = searched.line.look;
        let first = searched.line.place;
        let second = finder.find(rt, look);
        let line = FrameLine {
            pc: searched.line.pc,
            sp: searched.line.sp,
            look,
            place: second,
        };
        let same = is_same_hit(&hit_of(&first), &hit_of(&second));
        if !same {
            let verdict = None;
            add(&mut phases, &Phase { line, verdict });
            let frame = index as u32;
            let change = Some(Change {
                frame,
                first,
                second,
            });
            return Cleaned { phases, change };
        }
        let verdict = searched.verdict;
        add(&mut phases, &Phase { line, verdict });
    }
    Cleaned {
        phases,
        change: None,
    }
}

/// The second phase of a raise, where the search found a handler.
fn conclude<R: Wait, F: Finder>(
    rt: &R,
    finder: &mut F,
    search: Searched,
    cleanup: Vec<Phase>,
) -> Raised
    requires count { length search.phases.items ≤ 256 }
    requires empty { cleanup.items ≡ [] }
    requires room { 256 ≤ vec_capacity cleanup }
    ensures search { result.search ≡ search.phases.items }
    ensures ends { EndsRaise result search.end }
    ensures queries { GoesThrough F.answers finder.old (lines_of result.cleanup) finder.new }
    ensures halves { All (λ line. IsPlace line.place) (lines_of result.cleanup) }
    ensures bound { F.bound finder.new ≡ F.bound finder.old }
{
    let Searched { phases, end } = search;
    match end {
        SearchEnd::Failed { end } => Raised {
            search: phases,
            cleanup,
            end,
        },
        SearchEnd::Handler { frame, pad, filter } => {
            let cleaned = clean_up(rt, finder, &phases, cleanup);
            let Cleaned {
                phases: cleanup,
                change,
            } = cleaned;
            match change {
                None => Raised {
                    search: phases,
                    cleanup,
                    end: RaiseEnd::Caught { frame, pad, filter },
                },
                Some(change) => Raised {
                    search: phases,
                    cleanup,
                    end: change.end(),
                },
            }
        }
    }
}

/// Raises an exception of a kind, from recorded registers and recorded memory: searches for its
/// handler, and then asks again for each frame up to the handler's. Payloads are the numbers of the
/// images, by which their sections are listed. All memory is taken before the finder is asked, so
/// that want of memory never leaves a raise half done.
pub fn raise<R: Wait, F: Finder>(
    rt: &R,
    alloc: Global,
    finder: &mut F,
    sections: &[Section],
    regs: &Regs,
    memory: &Memory,
    kind: u64,
) -> Result<Raised, NoMemory>
    requires { F.bound finder.old ≤ length sections.now }
    ensures unfolds { IfOk result (RaiseUnfolds sections.now memory.now regs.now kind) }
    // The finder was asked for the frames of the search, and then for those of the cleanup.
    ensures queries { IfOk result (λ r. GoesThrough F.answers finder.old
        (lines_of r.search ++ lines_of r.cleanup) finder.new) }
    ensures halves { IfOk result (λ r. All (λ line. IsPlace line.place)
        (lines_of r.search ++ lines_of r.cleanup)) }
    ensures bound { F.bound finder.new ≡ F.bound finder.old }
    ensures unasked { OnErr result (finder.new ≡ finder.old) }
{
    let phases = Vec::with_capacity(alloc, MOST_FRAMES)?;
    let cleanup = Vec::with_capacity(alloc, MOST_FRAMES)?;
    let walk = Walk::new(alloc, sections, memory, regs)?;
    let tables = Tables {
        sections,
        memory,
        kind,
    };
    let searched = search(rt, finder, walk, &tables, phases);
    Ok(conclude(rt, finder, searched, cleanup))
}
