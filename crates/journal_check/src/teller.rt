//! A journal's receipts, one after another, with their lines.

ghost use Rattle.std.specs.Prelude.{◌≡◌, [], ◌∷◌, ◌++◌, map, OnOk};
ghost use Rattle.reg_model.specs.Receipt.{receipts_of_place};
ghost use Rattle.script_text.specs.Lawful.{image_member};
ghost use Rattle.journal_check.specs.Telling.{tell_receipt, next_line, tell_line, tell_answer};
ghost use Rattle.journal_check.specs.Telling.{tell_thread, told_after, receipt_lines};

use receipt_check::{Told, moment_of};
use reg_model::{Half, Member, NoMemory, Place, Receipt, Span};
use script_text::Answer;
use std::alloc::Global;
use std::marker::Model;
use unwind_step::Trace;

/// What is known of a round: the updates before it and with it, and how many callers there were.
#[derive(Clone, Copy, Debug, PartialEq, Eq)]
pub struct Bounds {
    pub before: u64,
    pub after: u64,
    pub callers: u64,
}

/// What was told so far, the line that comes next, and the greatest stamp or number so far on its
/// thread.
#[derive(Drop)]
pub struct Teller {
    pub told: Vec<Told>,
    pub line: u64,
    seen: u64,
}

impl Model for Teller {
    ghost use Rattle.journal_check.specs.Telling.{TellingData};

    ghost Value = { TellingData };

    ghost view = { λ t. record { told = t.told.items; line = t.line; seen = t.seen } };
}

impl Teller {
    /// Nothing was told yet.
    pub fn new(alloc: Global) -> Self
        ensures { result ≡ record { told = []; line = 1; seen = 0 } }
    {
        Teller {
            told: Vec::new(alloc),
            line: 1,
            seen: 0,
        }
    }

    /// Tells a receipt, on the line that comes next.
    fn tell(&mut self, bounds: &Bounds, receipt: Receipt) -> Result<(), NoMemory>
        ensures { OnOk result (self.new ≡ tell_receipt bounds.now self.old receipt) }
    {
        self.told.push(Told {
            line: self.line,
            before: bounds.before,
            after: bounds.after,
            callers: bounds.callers,
            seen: self.seen,
            receipt,
        })?;
        self.seen = self.seen.max(moment_of(&receipt) as u64);
        Ok(())
    }

    /// Ends a line. There isn't the memory for a journal of 2^64 lines.
    fn end_line(&mut self) -> Result<(), NoMemory>
        ensures { OnOk result (self.new ≡ next_line self.old) }
    {
        match self.line.checked_add(1) {
            Some(line) => {
                self.line = line;
                Ok(())
            }
            None => Err(NoMemory),
        }
    }

    /// Tells a line with one receipt.
    fn tell_one(&mut self, bounds: &Bounds, receipt: Receipt) -> Result<(), NoMemory>
        ensures { OnOk result (self.new ≡ tell_line bounds.now self.old (receipt ∷ [])) }
    {
        self.tell(bounds, receipt)?;
        self.end_line()
    }

    /// Tells a line with a place.
    fn tell_place(&mut self, bounds: &Bounds, pc: u64, place: &Place) -> Result<(), NoMemory>
        ensures { OnOk result
            (self.new ≡ tell_line bounds.now self.old (receipts_of_place pc place.now)) }
    {
        self.tell(
            bounds,
            Receipt::Query {
                half: Half::Registered,
                pc,
                found: place.registered,
            },
        )?;
        if let Some(found) = place.loaded {
            self.tell(
                bounds,
                Receipt::Query {
                    half: Half::Loaded,
                    pc,
                    found,
                },
            )?;
        }
        self.end_line()
    }

    /// Tells the lines of a backtrace.
    fn tell_trace(&mut self, bounds: &Bounds, trace: &Trace) -> Result<(), NoMemory>
        ensures { OnOk result (self.new ≡ told_after (tell_line bounds.now) self.old
            ([] ∷ (map (λ line. receipts_of_place line.look line.place) trace.now.frames
            ++ [] ∷ []))) }
    {
        self.end_line()?;
        for line in &trace.frames {
            self.tell_place(bounds, line.look, &line.place)?;
        }
        self.end_line()
    }

    /// Tells the lines of an event.
    fn tell_answer(
        &mut self,
        images: &[Span],
        bounds: &Bounds,
        answer: &Answer,
    ) -> Result<(), NoMemory>
        ensures { OnOk result (self.new ≡ tell_answer images.now bounds.now self.old answer.now) }
    {
        match answer {
            &Answer::Register { image, answer } => {
                let member = member_in(images, image);
                self.tell_one(bounds, Receipt::Register { member, answer })
            }
            &Answer::Deregister { base, answer } => {
                self.tell_one(bounds, Receipt::Deregister { base, answer })
            }
            &Answer::Replace { image, answer } => {
                let member = member_in(images, image);
                self.tell_one(bounds, Receipt::Replace { member, answer })
            }
            &Answer::Load { image, answer } => {
                let member = member_in(images, image);
                self.tell_one(bounds, Receipt::Load { member, answer })
            }
            &Answer::Unload { base, answer } => {
                self.tell_one(bounds, Receipt::Unload { base, answer })
            }
            Answer::Find { pc, place } => self.tell_place(bounds, *pc, place),
            Answer::Unwind { trace, .. } => self.tell_trace(bounds, trace),
        }
    }

    /// Tells the lines of a thread.
    fn tell_thread(
        &mut self,
        images: &[Span],
        bounds: &Bounds,
        answers: &[Answer],
    ) -> Result<(), NoMemory>
        ensures { OnOk result (self.new ≡ tell_thread images.now bounds.now self.old answers.now) }
    {
        self.seen = 0;
        for answer in answers {
            self.tell_answer(images, bounds, answer)?;
        }
        Ok(())
    }

    /// Tells the lines of a round.
    pub fn tell_round(
        &mut self,
        images: &[Span],
        bounds: &Bounds,
        round: &[Vec<Answer>],
    ) -> Result<(), NoMemory>
        ensures { OnOk result (self.new ≡ told_after (tell_thread images.now bounds.now) self.old
            (map (λ thread. thread.items) round.now)) }
    {
        for thread in round {
            self.tell_thread(images, bounds, thread)?;
        }
        Ok(())
    }
}

/// The member that is meant by the number of an image. Where there is no such image, it is that of
/// one address that the definition has.
fn member_in(images: &[Span], image: u32) -> Member
    ensures { result ≡ image_member images.now image }
{
    let span = match images.get(image as usize) {
        Some(span) => *span,
        None => first_address(),
    };
    Member {
        span,
        payload: image,
    }
}

/// The span of the address 0 alone.
fn first_address() -> Span
    ensures { result ≡ record { first = 0; last = 0 } }
{
    match Span::new(0, 1) {
        Some(span) => span,
        None => unreachable!(),
    }
}
