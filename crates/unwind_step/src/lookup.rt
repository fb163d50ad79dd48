//! What the place of a frame leads to: a member, and an FDE.

ghost use Rattle.std.specs.Prelude.{◌≡◌, ◌≤◌, IfSome, length};
ghost use Rattle.unwind_step.specs.Backtrace.{IsBelow, fde_of, hit_of};

use crate::backtrace::FrameLine;
use frame_parse::{Fde, Section};
use reg_model::{Found, Member, Place};

/// The member that a place found, registered or loaded.
pub fn hit_of(place: &Place) -> Option<Member>
    ensures { result ≡ hit_of place.now }
{
    match (&place.registered, &place.loaded) {
        (Found::Hit { member, .. }, _) => Some(*member),
        (Found::Miss { .. }, Some(Found::Hit { member, .. })) => Some(*member),
        (Found::Miss { .. }, _) => None,
    }
}

/// The FDE of the frame that a line shows, in the section of its image. None where no image has the
/// address, or no FDE of the section covers it.
pub fn fde_of<'s>(sections: &'s [Section], line: &FrameLine) -> Option<Fde<'s>>
    requires { IsBelow (length sections.now) line.now.place }
    ensures fde { result ≡ fde_of sections.now line.now }
    ensures covers { IfSome result (λ f. f.entry.first ≤ line.now.look) }
{
    let member = hit_of(&line.place)?;
    let section = &sections[member.payload as usize];
    section.fde_at(line.look)
}
