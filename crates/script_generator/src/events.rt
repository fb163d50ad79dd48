//! The events of a generated script.

ghost use Rattle.std.specs.Prelude.{◌≡◌, ◌*◌, ◌+◌, ◌<◌, ◌≤◌, ◌++◌, length, IfOk, All, nat_lt};
ghost use Rattle.std.specs.Prelude.{if◌then◌else◌};
ghost use Rattle.std.specs.List.{flat_map};
ghost use Rattle.script_generator.specs.Generator.{IsImageCount, images_up, image_order};
ghost use Rattle.script_generator.specs.Generator.{activity_events, generated_events, adding};
ghost use Rattle.script_generator.specs.Generator.{removing};
ghost use Rattle.script_generator.specs.declared.images.TheConstants.{MOST_COUNT, THREADS};

use crate::images::base_of;
use reg_model::{Half, NoMemory};
use script_text::{Event, Thread};
use std::alloc::Global;

/// What a thread does with each of its images in turn, before it goes on to the next such thing.
#[derive(Clone, Copy, Debug, PartialEq, Eq)]
pub enum Activity {
    /// The image is added: registered, or loaded.
    Adding,
    /// Its last address is looked up, and the one after it.
    FindingEnds,
    /// It is removed where its number in the thread is even.
    RemovingEven,
    /// Its first address is looked up.
    FindingBases,
}

/// The images of a thread by their numbers in it, from 0.
pub fn upwards(alloc: Global, count: u32) -> Result<Vec<u32>, NoMemory>
    ensures { IfOk result (λ order. order.items ≡ images_up count) }
{
    let mut order = Vec::with_capacity(alloc, count as usize)?;
    for image in 0..count {
        order.push(image)?;
    }
    Ok(order)
}

/// The same in the order in which a thread goes through them.
fn order_of(alloc: Global, thread: u32, count: u32) -> Result<Vec<u32>, NoMemory>
    ensures { IfOk result (λ order. order.items ≡ image_order count thread) }
{
    let mut order = upwards(alloc, count)?;
    if thread % 2 != 0 {
        order.reverse();
    }
    Ok(order)
}

/// The events of a thread.
pub fn thread_of(alloc: Global, thread: u32, count: u32) -> Result<Thread, NoMemory>
    requires thread { thread < THREADS }
    requires count { IsImageCount count }
    ensures { IfOk result (λ r. r ≡ generated_events count thread) }
{
    let order = order_of(alloc, thread, count)?;
    let mut events = Vec::with_capacity(alloc, 5 * count as usize + 1)?;
    events = with_activity(events, Activity::Adding, thread, &order)?;
    events = with_activity(events, Activity::FindingEnds, thread, &order)?;
    events.push(Event::Unwind { snapshot: thread })?;
    events = with_activity(events, Activity::RemovingEven, thread, &order)?;
    events = with_activity(events, Activity::FindingBases, thread, &order)?;
    Ok(Thread { events })
}

/// With what a thread does in an activity, for its images in this order.
fn with_activity(
    events: Vec<Event>,
    activity: Activity,
    thread: u32,
    order: &[u32],
) -> Result<Vec<Event>, NoMemory>
    requires thread { thread < THREADS }
    requires images { (length order.now ≤ MOST_COUNT)
        × All (λ image. image < length order.now) order.now }
    ensures { IfOk result (λ r. r.items
        ≡ events.items ++ flat_map (activity_events (length order.now) thread activity) order.now) }
{
    let mut events = events;
    for image in order {
        events = with_image(events, activity, thread, order.len() as u32, *image)?;
    }
    Ok(events)
}

/// With what a thread does with one of its images in an activity.
fn with_image(
    events: Vec<Event>,
    activity: Activity,
    thread: u32,
    count: u32,
    image: u32,
) -> Result<Vec<Event>, NoMemory>
    requires thread { thread < THREADS }
    requires image { (count ≤ MOST_COUNT) × (image < count) }
    ensures { IfOk result (λ r. r.items
        ≡ events.items ++ activity_events count thread activity image) }
{
    let base = base_of(thread, image);
    let mut events = events;
    match activity {
        Activity::Adding => events.push(added(thread, count, image))?,
        Activity::FindingEnds => {
            events.push(Event::Find { pc: base + 47 })?;
            events.push(Event::Find { pc: base + 48 })?;
        }
        Activity::RemovingEven => {
            if image % 2 == 0 {
                events.push(removed(thread, image))?;
            }
        }
        Activity::FindingBases => events.push(Event::Find { pc: base })?,
    }
    Ok(events)
}

/// The half of the registry that a thread's images go to.
fn half_of(thread: u32) -> Half
    ensures { result ≡ (if nat_lt thread 2 then Half.Registered else Half.Loaded) }
{
    if thread < 2 {
        Half::Registered
    } else {
        Half::Loaded
    }
}

/// The event that adds an image of a thread.
fn added(thread: u32, count: u32, image: u32) -> Event
    requires { (thread < THREADS) × (count ≤ MOST_COUNT) × (image < count) }
    ensures { result ≡ adding count thread image }
{
    let image = thread * count + image;
    match half_of(thread) {
        Half::Registered => Event::Register { image },
        Half::Loaded => Event::Load { image },
    }
}

/// The event that removes it.
fn removed(thread: u32, image: u32) -> Event
    requires { (thread < THREADS) × (image < MOST_COUNT) }
    ensures { result ≡ removing thread image }
{
    let base = base_of(thread, image);
    match half_of(thread) {
        Half::Registered => Event::Deregister { base },
        Half::Loaded => Event::Unload { base },
    }
}
