//! What is kept of answers until they are written.
//!
//! An event and the images tell most of its answer, so that little is kept of it. An answer is told
//! again when it is written, one at a time.

ghost use Rattle.std.specs.Prelude.{◌≡◌, ℕ, List, Some, IfOk, IfSome};
ghost use Rattle.reg_model.specs.SpanData.{SpanData};
ghost use Rattle.reg_model.specs.declared.answer.Found.TheVariants.{Hit, Miss};
ghost use Rattle.script_text.specs.Lawful.{image_member};
ghost use Rattle.script_text.specs.declared.script.Event.TheVariants as event;
ghost use Rattle.script_text.specs.declared.journal.Answer.TheVariants as given;
ghost use Rattle.run_engine.specs.Kept.{event_of, told, short_told, inserted_kept, loading_kept};
ghost use Rattle.run_engine.specs.Kept.{removed_kept, replaced_kept, place_kept};

use event_script::{Answer, Event};
use reg_model::{Found, Inserted, Loading, Member, NoMemory, Place, Removed, Replaced, Span};
use std::alloc::Global;
use std::marker::Model;

/// What is kept of an answer: the rest is told by its event and by the images.
#[derive(Drop)]
pub enum KeptAnswer {
    /// An update was made that tells no more than its number.
    Done { number: u32 },
    /// An update was made, and the image is the one that was there before.
    DoneWith { number: u32, image: u32 },
    /// The image that overlaps.
    Overlap { image: u32, stamp: u32 },
    /// There was no room, or nothing to remove or replace.
    Refused { stamp: u32 },
    /// An address is in a registered image.
    Registered { image: u32, stamp: u32 },
    /// An address is in no registered image at a stamp, and in a loaded one at another.
    Loaded { stamp: u32, image: u32, loaded: u32 },
    /// An address is in no image: the stamps of both halves.
    Nowhere { stamp: u32, loaded: u32 },
    /// A backtrace, or what event and images don't tell.
    Whole { answer: Box<Answer> },
}

/// So much is kept for each event.
const _: () = prove!(size_of::<KeptAnswer>() == 16);

/// What is kept of the answers to the events of a thread, in order.
#[derive(Drop)]
pub struct KeptThread {
    pub answers: Vec<KeptAnswer>,
}

impl Model for KeptThread {
    ghost use Rattle.std.specs.Prelude.{List};
    ghost use Rattle.run_engine.specs.declared.kept.KeptAnswer.{KeptAnswer};

    ghost Value = { List KeptAnswer };

    ghost view = { λ thread. thread.answers.items };
}

/// What is kept of the answers of a round, by thread.
#[derive(Drop)]
pub struct KeptRound {
    pub threads: Vec<KeptThread>,
}

impl Model for KeptRound {
    ghost use Rattle.std.specs.Prelude.{List};
    ghost use Rattle.run_engine.specs.declared.kept.KeptAnswer.{KeptAnswer};

    ghost Value = { List (List KeptAnswer) };

    ghost view = { λ round. round.threads.items };
}

/// What is kept of a journal: by round, and the number of updates that were accepted.
#[derive(Drop)]
pub struct KeptJournal {
    pub rounds: Vec<KeptRound>,
    pub updates: u32,
}

impl Model for KeptJournal {
    ghost use Rattle.run_engine.specs.Kept.{KeptJournalData};

    ghost Value = { KeptJournalData };

    ghost view = { λ journal. record { rounds = journal.rounds.items; updates = journal.updates } };
}

/// The image that a member is. None where the number that it has is that of no image, or of one
/// with another span.
fn image_of(images: &[Span], member: &Member) -> Option<u32>
    ensures { IfSome result (λ image. member.now ≡ image_member images.now image) }
{
    let span = images.get(member.payload as usize)?;
    if span.first() != member.span.first() || span.last() != member.span.last() {
        return None;
    }
    Some(member.payload)
}

/// The short form of the answer to a registration. None where there is none.
fn short_of_inserted(images: &[Span], answer: &Inserted) -> Option<KeptAnswer>
    ensures { IfSome result (λ kept. (image : ℕ)
        → told images.now (event.Register image) kept ≡ given.Register image answer.now) }
{
    match answer {
        Inserted::Done { number } => Some(KeptAnswer::Done { number: *number }),
        Inserted::Overlap { member, stamp } => Some(KeptAnswer::Overlap {
            image: image_of(images, member)?,
            stamp: *stamp,
        }),
        Inserted::Full { stamp } => Some(KeptAnswer::Refused { stamp: *stamp }),
        Inserted::Spent => None,
    }
}

/// The short form of the answer to a load. None where there is none.
fn short_of_loading(images: &[Span], answer: &Loading) -> Option<KeptAnswer>
    ensures { IfSome result (λ kept. (image : ℕ)
        → told images.now (event.Load image) kept ≡ given.Load image answer.now) }
{
    match answer {
        Loading::Done { number } => Some(KeptAnswer::Done { number: *number }),
        Loading::Overlap { member, stamp } => Some(KeptAnswer::Overlap {
            image: image_of(images, member)?,
            stamp: *stamp,
        }),
        Loading::LoadFull { stamp } => Some(KeptAnswer::Refused { stamp: *stamp }),
        Loading::Spent => None,
    }
}

/// The short form of the answer to a removal from either half. None where there is none.
fn short_of_removed(images: &[Span], answer: &Removed) -> Option<KeptAnswer>
    ensures registered { IfSome result (λ kept. (base : ℕ)
        → told images.now (event.Deregister base) kept ≡ given.Deregister base answer.now) }
    ensures loaded { IfSome result (λ kept. (base : ℕ)
        → told images.now (event.Unload base) kept ≡ given.Unload base answer.now) }
{
    match answer {
        Removed::Done { number, member } => Some(KeptAnswer::DoneWith {
            number: *number,
            image: image_of(images, member)?,
        }),
        Removed::NotFound { stamp } => Some(KeptAnswer::Refused { stamp: *stamp }),
        Removed::Spent => None,
    }
}

/// The short form of the answer to a replacement. None where there is none.
fn short_of_replaced(answer: &Replaced) -> Option<KeptAnswer>
    ensures { IfSome result (λ kept. (images : List SpanData) (image : ℕ)
        → told images (event.Replace image) kept ≡ given.Replace image answer.now) }
{
    match answer {
        Replaced::Done { number, payload } => Some(KeptAnswer::DoneWith {
            number: *number,
            image: *payload,
        }),
        Replaced::NotFound { stamp } => Some(KeptAnswer::Refused { stamp: *stamp }),
        Replaced::Spent => None,
    }
}

/// The short form of a place where an address was found. None where there is none.
#[inline(always)]
fn short_of_place(images: &[Span], place: &Place) -> Option<KeptAnswer>
    ensures { IfSome result (λ kept. (pc : ℕ)
        → told images.now (event.Find pc) kept ≡ given.Find pc place.now) }
{
    match &place.registered {
        Found::Hit { member, stamp } => match place.loaded {
            None => Some(KeptAnswer::Registered {
                image: image_of(images, member)?,
                stamp: *stamp,
            }),
            Some(_) => None,
        },
        Found::Miss { stamp } => match &place.loaded {
            None => None,
            Some(found) => short_of_loaded(images, *stamp, found),
        },
    }
}

/// The short form of a place that no registered image has at a stamp. None where there is none.
fn short_of_loaded(images: &[Span], stamp: u32, found: &Found) -> Option<KeptAnswer>
    ensures { IfSome result (λ kept. (pc : ℕ) → told images.now (event.Find pc) kept
        ≡ given.Find pc (record { registered = Miss stamp; loaded = Some found.now })) }
{
    match found {
        Found::Hit {
            member,
            stamp: loaded,
        } => Some(KeptAnswer::Loaded {
            stamp,
            image: image_of(images, member)?,
            loaded: *loaded,
        }),
        Found::Miss { stamp: loaded } => Some(KeptAnswer::Nowhere {
            stamp,
            loaded: *loaded,
        }),
    }
}

/// The short form of an answer. None where there is none.
#[inline(always)]
fn short_of(images: &[Span], answer: &Answer) -> Option<KeptAnswer>
    ensures { IfSome result
        (λ kept. told images.now (event_of answer.now) kept ≡ answer.now) }
{
    match answer {
        Answer::Register { answer, .. } => short_of_inserted(images, answer),
        Answer::Deregister { answer, .. } => short_of_removed(images, answer),
        Answer::Replace { answer, .. } => short_of_replaced(answer),
        Answer::Load { answer, .. } => short_of_loading(images, answer),
        Answer::Unload { answer, .. } => short_of_removed(images, answer),
        Answer::Find { place, .. } => short_of_place(images, place),
        Answer::Unwind { .. } => None,
    }
}

/// Keeps of an answer what its event and the images don't tell.
#[inline(always)]
pub fn keep(alloc: Global, images: &[Span], answer: Answer) -> Result<KeptAnswer, NoMemory>
    ensures { IfOk result (λ kept. told images.now (event_of answer) kept ≡ answer) }
{
    match short_of(images, &answer) {
        Some(kept) => Ok(kept),
        None => Ok(KeptAnswer::Whole {
            answer: Box::new(alloc, answer)?,
        }),
    }
}

/// Keeps of a place what a lookup of the address and the images don't tell.
#[inline(always)]
pub fn keep_place(
    alloc: Global,
    images: &[Span],
    pc: u64,
    place: &Place,
) -> Result<KeptAnswer, NoMemory>
    ensures { IfOk result (λ kept. told images.now (event.Find pc) kept ≡ given.Find pc place.now) }
{
    match short_of_place(images, place) {
        Some(kept) => Ok(kept),
        None => Ok(KeptAnswer::Whole {
            answer: Box::new(alloc, Answer::Find { pc, place: *place })?,
        }),
    }
}

/// The member that is meant by a number, also where no image has it.
fn member_at(images: &[Span], image: u32) -> Member
    ensures { result ≡ image_member images.now image }
{
    let span = match images.get(image as usize) {
        Some(span) => *span,
        None => match Span::new(0, 1) {
            Some(span) => span,
            None => unreachable!(),
        },
    };
    Member {
        span,
        payload: image,
    }
}

/// The answer to a registration that a short form tells.
fn tell_inserted(images: &[Span], kept: &KeptAnswer) -> Inserted
    ensures { result ≡ inserted_kept images.now kept.now }
{
    match kept {
        KeptAnswer::Done { number } => Inserted::Done { number: *number },
        KeptAnswer::Overlap { image, stamp } => Inserted::Overlap {
            member: member_at(images, *image),
            stamp: *stamp,
        },
        KeptAnswer::Refused { stamp } => Inserted::Full { stamp: *stamp },
        _ => Inserted::Spent,
    }
}

/// The answer to a load that a short form tells.
fn tell_loading(images: &[Span], kept: &KeptAnswer) -> Loading
    ensures { result ≡ loading_kept images.now kept.now }
{
    match kept {
        KeptAnswer::Done { number } => Loading::Done { number: *number },
        KeptAnswer::Overlap { image, stamp } => Loading::Overlap {
            member: member_at(images, *image),
            stamp: *stamp,
        },
        KeptAnswer::Refused { stamp } => Loading::LoadFull { stamp: *stamp },
        _ => Loading::Spent,
    }
}

/// The answer to a removal that a short form tells.
fn tell_removed(images: &[Span], kept: &KeptAnswer) -> Removed
    ensures { result ≡ removed_kept images.now kept.now }
{
    match kept {
        KeptAnswer::DoneWith { number, image } => Removed::Done {
            number: *number,
            member: member_at(images, *image),
        },
        KeptAnswer::Refused { stamp } => Removed::NotFound { stamp: *stamp },
        _ => Removed::Spent,
    }
}

/// The answer to a replacement that a short form tells.
fn tell_replaced(kept: &KeptAnswer) -> Replaced
    ensures { result ≡ replaced_kept kept.now }
{
    match kept {
        KeptAnswer::DoneWith { number, image } => Replaced::Done {
            number: *number,
            payload: *image,
        },
        KeptAnswer::Refused { stamp } => Replaced::NotFound { stamp: *stamp },
        _ => Replaced::Spent,
    }
}

/// The hit of an image, at a stamp.
fn hit_at(images: &[Span], image: u32, stamp: u32) -> Found
    ensures { result ≡ Hit (image_member images.now image) stamp }
{
    let member = member_at(images, image);
    Found::Hit { member, stamp }
}

/// The place that a short form tells.
fn tell_place(images: &[Span], kept: &KeptAnswer) -> Place
    ensures { result ≡ place_kept images.now kept.now }
{
    let (registered, loaded) = match kept {
        KeptAnswer::Registered { image, stamp } => (hit_at(images, *image, *stamp), None),
        KeptAnswer::Loaded {
            stamp,
            image,
            loaded,
        } => {
            let hit = hit_at(images, *image, *loaded);
            (Found::Miss { stamp: *stamp }, Some(hit))
        }
        KeptAnswer::Nowhere { stamp, loaded } => {
            let miss = Found::Miss { stamp: *loaded };
            (Found::Miss { stamp: *stamp }, Some(miss))
        }
        _ => (Found::Miss { stamp: 0 }, None),
    };
    Place { registered, loaded }
}

/// The answer to an event that a short form tells.
pub fn tell_short(images: &[Span], event: Event, kept: &KeptAnswer) -> Answer
    ensures { result ≡ short_told images.now event kept.now }
{
    match event {
        Event::Register { image } => Answer::Register {
            image,
            answer: tell_inserted(images, kept),
        },
        Event::Deregister { base } => Answer::Deregister {
            base,
            answer: tell_removed(images, kept),
        },
        Event::Replace { image } => Answer::Replace {
            image,
            answer: tell_replaced(kept),
        },
        Event::Load { image } => Answer::Load {
            image,
            answer: tell_loading(images, kept),
        },
        Event::Unload { base } => Answer::Unload {
            base,
            answer: tell_removed(images, kept),
        },
        Event::Find { pc } => Answer::Find {
            pc,
            place: tell_place(images, kept),
        },
        Event::Unwind { .. } => Answer::Register {
            image: 0,
            answer: Inserted::Spent,
        },
    }
}
