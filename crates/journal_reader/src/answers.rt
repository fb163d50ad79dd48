//! What is left of a line after its head.

ghost use Rattle.std.specs.Prelude.{◌≡◌, None, Some, MatchOption};
ghost use Rattle.journal_reader.specs.Reading.{image_in, overlapping_in, overlap_in, inserted_in};
ghost use Rattle.journal_reader.specs.Reading.{loading_in, removed_in, replaced_in, found_first};
ghost use Rattle.journal_reader.specs.Reading.{if_last, loaded_in, place_from, told_place};
ghost use Rattle.journal_reader.specs.Reading.{frame_in, end_in, told_answer, answer_in};
ghost use Rattle.journal_reader.specs.Reading.{first_line, told_frame, told_end, told_updates};

use crate::words::{decimal_first, hex_first, past_word};
use reg_model::{Found, Inserted, Loading, Member, Place, Removed, Replaced, Span};
use script_text::{Answer, Event, decimal_in, hex_in};
use unwind_step::{End, FrameLine};

#[tactic(auto, unfolding(crate::specs::Reading::image_in))]
/// The member that the number of an image means. None where there is no such image.
fn image_in(images: &[Span], image: u32) -> Option<Member>
    ensures { result ≡ image_in images.now image }
{
    let span = images.get(image as usize)?;
    Some(Member {
        span: *span,
        payload: image,
    })
}

#[tactic(auto, unfolding(crate::specs::Reading::overlapping_in))]
/// The member that an overlap tells. None where there is no such image, or no span at such a base.
fn overlapping_in(images: &[Span], base: u64, image: u32) -> Option<Member>
    ensures { result ≡ overlapping_in images.now base image }
{
    let span = images.get(image as usize)?;
    if span.first() == base {
        return Some(Member {
            span: *span,
            payload: image,
        });
    }
    let span = Span::new(base, 1)?;
    Some(Member {
        span,
        payload: image,
    })
}

#[tactic(auto, unfolding(crate::specs::Reading::overlap_in))]
/// Which member overlaps, and the stamp.
fn overlap_in(images: &[Span], text: &[u8]) -> Option<(Member, u32)>
    ensures { result ≡ overlap_in images.now text.now }
{
    let (base, rest) = hex_first(text)?;
    let rest = past_word(rest, " ")?;
    let (image, rest) = decimal_first(rest)?;
    let member = overlapping_in(images, base, image)?;
    let rest = past_word(rest, " at ")?;
    let stamp = decimal_in(rest)?;
    Some((member, stamp))
}

#[tactic(auto, unfolding(crate::specs::Reading::inserted_in))]
/// The answer to a registration.
fn inserted_in(images: &[Span], text: &[u8]) -> Option<Inserted>
    ensures { result ≡ inserted_in images.now text.now }
{
    if let Some(rest) = past_word(text, "done ") {
        let number = decimal_in(rest)?;
        return Some(Inserted::Done { number });
    }
    if let Some(rest) = past_word(text, "full at ") {
        let stamp = decimal_in(rest)?;
        return Some(Inserted::Full { stamp });
    }
    let rest = past_word(text, "overlap ")?;
    let (member, stamp) = overlap_in(images, rest)?;
    Some(Inserted::Overlap { member, stamp })
}

#[tactic(auto, unfolding(crate::specs::Reading::loading_in))]
/// The answer to a load, which is told as one to a registration is.
fn loading_in(images: &[Span], text: &[u8]) -> Option<Loading>
    ensures { result ≡ loading_in images.now text.now }
{
    match inserted_in(images, text)? {
        Inserted::Done { number } => Some(Loading::Done { number }),
        Inserted::Overlap { member, stamp } => Some(Loading::Overlap { member, stamp }),
        Inserted::Full { stamp } => Some(Loading::LoadFull { stamp }),
        Inserted::Spent => None,
    }
}

#[tactic(auto, unfolding(crate::specs::Reading::removed_in))]
/// The answer to a removal.
fn removed_in(images: &[Span], text: &[u8]) -> Option<Removed>
    ensures { result ≡ removed_in images.now text.now }
{
    if let Some(rest) = past_word(text, "done ") {
        let (number, rest) = decimal_first(rest)?;
        let rest = past_word(rest, " image ")?;
        let image = decimal_in(rest)?;
        let member = image_in(images, image)?;
        return Some(Removed::Done { number, member });
    }
    let rest = past_word(text, "absent at ")?;
    let stamp = decimal_in(rest)?;
    Some(Removed::NotFound { stamp })
}

#[tactic(auto, unfolding(crate::specs::Reading::replaced_in))]
/// The answer to a replacement, which is told as one to a removal is.
fn replaced_in(images: &[Span], text: &[u8]) -> Option<Replaced>
    ensures { result ≡ replaced_in images.now text.now }
{
    match removed_in(images, text)? {
        Removed::Done { number, member } => Some(Replaced::Done {
            number,
            payload: member.payload,
        }),
        Removed::NotFound { stamp } => Some(Replaced::NotFound { stamp }),
        Removed::Spent => None,
    }
}

#[tactic(auto, unfolding(crate::specs::Reading::found_first))]
/// An image, or none, and the stamp, and what follows them.
fn found_first<'a>(images: &[Span], text: &'a [u8]) -> Option<(Found, &'a [u8])>
    ensures { MatchOption result (found_first images.now text.now ≡ None)
        (λ found. found_first images.now text.now ≡ Some (found.0, found.1.now)) }
{
    if let Some((image, rest)) = decimal_first(text) {
        let member = image_in(images, image)?;
        let rest = past_word(rest, " at ")?;
        let (stamp, rest) = decimal_first(rest)?;
        return Some((Found::Hit { member, stamp }, rest));
    }
    let rest = past_word(text, "none at ")?;
    let (stamp, rest) = decimal_first(rest)?;
    Some((Found::Miss { stamp }, rest))
}

/// What was found, where nothing follows it.
fn if_last(found: Found, rest: &[u8]) -> Option<Found>
    ensures { result ≡ if_last found rest.now }
{
    match rest {
        [] => Some(found),
        _ => None,
    }
}

#[tactic(auto, unfolding(crate::specs::Reading::loaded_in))]
/// The loader's half of a place.
fn loaded_in(images: &[Span], text: &[u8]) -> Option<Found>
    ensures { result ≡ loaded_in images.now text.now }
{
    let rest = past_word(text, " loaded ")?;
    match found_first(images, rest) {
        Some((found, rest)) => if_last(found, rest),
        None => None,
    }
}

/// Where an address was found, from what the registered half has.
fn place_from(images: &[Span], registered: Found, rest: &[u8]) -> Option<Place>
    ensures { result ≡ place_from images.now registered rest.now }
{
    match registered {
        Found::Hit { .. } => {
            let registered = if_last(registered, rest)?;
            Some(Place {
                registered,
                loaded: None,
            })
        }
        Found::Miss { .. } => {
            let found = loaded_in(images, rest)?;
            Some(Place {
                registered,
                loaded: Some(found),
            })
        }
    }
}

#[tactic(auto, unfolding(crate::specs::Reading::told_place))]
/// Where an address was found.
fn told_place(images: &[Span], text: &[u8]) -> Option<Place>
    ensures { result ≡ told_place images.now text.now }
{
    let rest = past_word(text, "registered ")?;
    match found_first(images, rest) {
        Some((registered, rest)) => place_from(images, registered, rest),
        None => None,
    }
}

#[tactic(auto, unfolding(crate::specs::Reading::told_answer))]
/// The answer to an event that isn't a backtrace.
fn told_answer(images: &[Span], event: &Event, text: &[u8]) -> Option<Answer>
    ensures { result ≡ told_answer images.now event.now text.now }
{
    match *event {
        Event::Register { image } => {
            inserted_in(images, text).map(|answer| Answer::Register { image, answer })
        }
        Event::Deregister { base } => {
            removed_in(images, text).map(|answer| Answer::Deregister { base, answer })
        }
        Event::Replace { image } => {
            replaced_in(images, text).map(|answer| Answer::Replace { image, answer })
        }
        Event::Load { image } => {
            loading_in(images, text).map(|answer| Answer::Load { image, answer })
        }
        Event::Unload { base } => {
            removed_in(images, text).map(|answer| Answer::Unload { base, answer })
        }
        Event::Find { pc } => told_place(images, text).map(|place| Answer::Find { pc, place }),
        Event::Unwind { .. } => None,
    }
}

#[tactic(auto, unfolding(crate::specs::Reading::answer_in))]
/// What the first line of an event says after the event.
fn answer_in(images: &[Span], event: &Event, text: &[u8]) -> Option<Answer>
    ensures { result ≡ answer_in images.now event.now text.now }
{
    let rest = past_word(text, " ")?;
    told_answer(images, event, rest)
}

#[tactic(auto, unfolding(crate::specs::Reading::first_line))]
/// The answer that an event's first line tells, of an event that isn't a backtrace.
pub fn first_line(images: &[Span], head: &str, event: &Event, line: &[u8]) -> Option<Answer>
    ensures { result ≡ first_line images.now head.now event.now line.now }
{
    let rest = past_word(line, head)?;
    answer_in(images, event, rest)
}

#[tactic(auto, unfolding(crate::specs::Reading::frame_in))]
/// What the line of a frame says after its head.
fn frame_in(images: &[Span], text: &[u8]) -> Option<FrameLine>
    ensures { result ≡ frame_in images.now text.now }
{
    let (pc, rest) = hex_first(text)?;
    let rest = past_word(rest, " sp ")?;
    let (sp, rest) = hex_first(rest)?;
    let rest = past_word(rest, " look ")?;
    let (look, rest) = hex_first(rest)?;
    let rest = past_word(rest, " ")?;
    let place = told_place(images, rest)?;
    Some(FrameLine {
        pc,
        sp,
        look,
        place,
    })
}

#[tactic(auto, unfolding(crate::specs::Reading::end_in))]
/// Why there are no more frames.
fn end_in(text: &[u8]) -> Option<End>
    ensures { result ≡ end_in text.now }
{
    if let Some(rest) = past_word(text, "nobytes ") {
        let address = hex_in(rest)?;
        return Some(End::NoBytes { address });
    }
    if text == b"noobject".as_slice() {
        return Some(End::NoObject);
    }
    if text == b"nofde".as_slice() {
        return Some(End::NoFde);
    }
    if text == b"norow".as_slice() {
        return Some(End::NoRow);
    }
    if text == b"undefined".as_slice() {
        return Some(End::Undefined);
    }
    if text == b"long".as_slice() {
        return Some(End::Long);
    }
    None
}

#[tactic(auto, unfolding(crate::specs::Reading::told_frame))]
/// The line of a frame, or None where it is none that begins so.
pub fn told_frame(images: &[Span], head: &str, line: &[u8]) -> Option<FrameLine>
    ensures { result ≡ told_frame images.now head.now line.now }
{
    let rest = past_word(line, head)?;
    frame_in(images, rest)
}

#[tactic(auto, unfolding(crate::specs::Reading::told_end))]
/// The last line of a backtrace, or None where it is none.
pub fn told_end(head: &str, line: &[u8]) -> Option<End>
    ensures { result ≡ told_end head.now line.now }
{
    let rest = past_word(line, head)?;
    end_in(rest)
}

#[tactic(auto, unfolding(crate::specs::Reading::told_updates))]
/// The number of updates that the last line tells.
pub fn told_updates(line: &[u8]) -> Option<u32>
    ensures { result ≡ told_updates line.now }
{
    let rest = past_word(line, "updates ")?;
    decimal_in(rest)
}
