//! The lines that most events have: a lookup that found an image, an update that was made. Each is
//! spelled from what it says alone, where the whole answer needn't be told.

ghost use Rattle.std.specs.Prelude.{◌≡◌, None};
ghost use Rattle.script_text.specs.Text.{answer_line, event_line};
ghost use Rattle.script_text.specs.declared.journal.Answer.TheVariants as answer;
ghost use Rattle.reg_model.specs.SpanData.{SpanData};
ghost use Rattle.reg_model.specs.declared.answer.Found.TheVariants.{Hit};
ghost use Rattle.reg_model.specs.declared.answer.Inserted.TheVariants as inserted;
ghost use Rattle.reg_model.specs.declared.answer.Removed.TheVariants as removed;

use crate::print::journal::{EventNumber, prepend_address, prepend_number, prepend_number_after};
use crate::print::line::LineEnd;

/// Spells the line of a lookup that finds an address in a registered image, as nearly all do.
pub fn spell_registered(end: &mut LineEnd, number: EventNumber, pc: u64, image: u32, stamp: u32)
    ensures text { (span : SpanData) → end.new
        ≡ event_line number.round number.thread number.event (answer_line
        (answer.Find pc (record {
          registered = Hit (record { span = span; payload = image }) stamp;
          loaded = None;
        }))) }
{
    end.clear();
    end.prepend("\n");
    prepend_number_after(end, " at ", stamp);
    prepend_number_after(end, " registered ", image);
    prepend_address(end, "find ", pc);
    prepend_number(end, number);
}

/// Spells the line of a registration that was made.
pub fn spell_registration(end: &mut LineEnd, number: EventNumber, image: u32, done: u32)
    ensures text { end.new ≡ event_line number.round number.thread number.event
        (answer_line (answer.Register image (inserted.Done done))) }
{
    end.clear();
    end.prepend("\n");
    prepend_number_after(end, " done ", done);
    prepend_number_after(end, "register ", image);
    prepend_number(end, number);
}

/// Spells the line of a removal that was made, with the image that was there.
pub fn spell_removal(end: &mut LineEnd, number: EventNumber, base: u64, image: u32, done: u32)
    ensures text { (span : SpanData) → end.new
        ≡ event_line number.round number.thread number.event (answer_line
        (answer.Deregister base (removed.Done done (record { span = span; payload = image })))) }
{
    end.clear();
    end.prepend("\n");
    prepend_number_after(end, " image ", image);
    prepend_number_after(end, " done ", done);
    prepend_address(end, "deregister ", base);
    prepend_number(end, number);
}
