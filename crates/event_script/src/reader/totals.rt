//! What the events so far come to.

ghost use Rattle.std.specs.Prelude.{◌≡◌, true};
ghost use Rattle.event_script.specs.Draft.{no_totals, with_event};
ghost use Rattle.event_script.specs.Reading.{has_room};

use script_text::Event;
use script_text::limits::MOST_UNWINDS;

/// What the limits want to know of all events so far.
#[derive(Clone, Copy)]
pub struct Totals {
    /// How many of them unwind.
    pub unwinds: usize,
}

impl Totals {
    /// Before the first event.
    pub fn new() -> Self
        ensures { result ≡ no_totals }
    {
        Totals { unwinds: 0 }
    }

    /// Whether a script may have one more such event.
    pub fn has_room(&self, event: Event) -> bool
        ensures { result ≡ has_room self.now event }
    {
        match event {
            Event::Unwind { .. } => self.unwinds < MOST_UNWINDS,
            _ => true,
        }
    }

    /// With one more event.
    pub fn add(&mut self, event: Event)
        requires { has_room self.old event ≡ true }
        ensures { self.new ≡ with_event self.old event }
    {
        match event {
            Event::Unwind { .. } => self.unwinds += 1,
            _ => {}
        }
    }
}
