//! The members that are meant by the numbers of images.

ghost use Rattle.std.specs.Prelude.{◌≡◌, ◌<◌, length, map, IfOk, All};
ghost use Rattle.script_text.specs.Lawful.{image_member};

use reg_model::{Member, NoMemory, Span};
use std::alloc::Global;

/// The member that is meant by the number of an image.
pub fn member_of(images: &[Span], image: u32) -> Member
    requires { image < length images.now }
    ensures { result ≡ image_member images.now image }
{
    Member {
        span: images[image as usize],
        payload: image,
    }
}

/// The members of images, by their numbers.
pub fn members_of(alloc: Global, images: &[Span], numbers: &[u32]) -> Result<Vec<Member>, NoMemory>
    requires { All (λ number. number < length images.now) numbers.now }
    ensures { IfOk result (λ members. members.items ≡ map (image_member images.now) numbers.now) }
{
    let mut members = Vec::new(alloc);
    for number in numbers {
        members.push(member_of(images, *number))?;
    }
    Ok(members)
}
