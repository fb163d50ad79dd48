//! Raises over recorded stacks, and with a finder that answers otherwise the second time.

ghost use Rattle.reg_model.specs.Receipt.{IsPlace};
ghost use Rattle.unwind_step.specs.Backtrace.{IsBelow};

use event_script::read;
use raise_phases::{RaiseEnd, Raised, raise};
use reg_model::{Found, Member, Place, Span};
use std::alloc::Global;
use std::process::Abort;
use std::sync::Wait;
use std::test::Fail;
use unwind_step::Finder;

/// A stack of two frames: the second one's function has a handler for everything.
const CAUGHT: &str = "\
frames 1
nodes 16
loads 8
image 0 1000 30 2000 -
image 1 8000 40 9000 1c00000000000000017a504c5200017810079b001000001b1b0c0708900100001c0000002\
4000000d8efffff400000000400200000410e108602430d0600000000000000
image 2 50000 10 51000 1400000000000000017a5200017810011b0c070890010000140000001c000000e0effff\
f10000000000000000000000000000000
snapshot 0 0 0 0 0 0 0 7010 7000 0 0 0 0 0 0 0 0 50008
memory 7000 10800000000000000000000000000000307000000000000010100000000000000000000000000000000\
000000000000000000000000000000000000000000000
memory b031 ff9b0c01040a063001010000000000
end
";

/// Finds image 2 or 1 by the address, and after so many queries nothing.
#[derive(Drop)]
struct Forgetful {
    left: u32,
}

impl Finder for Forgetful {
    ghost answers = { λ before pc place after. Unit {0} };

    ghost bound = { λ f. 3 };

    fn find<R: Wait>(&mut self, _rt: &R, pc: u64) -> Place {
        if self.left == 0 {
            return nothing();
        }
        self.left -= 1;
        image_at(pc)
    }
}

/// Both halves miss.
fn nothing() -> Place
    ensures halves { IsPlace result }
    ensures below { IsBelow 3 result }
{
    Place {
        registered: Found::Miss { stamp: 0 },
        loaded: Some(Found::Miss { stamp: 0 }),
    }
}

/// The registered half misses, and the loader's half finds image 2 or 1.
fn image_at(pc: u64) -> Place
    ensures halves { IsPlace result }
    ensures below { IsBelow 3 result }
{
    let (base, size, payload) = if pc < 0x50000 {
        (0x8000, 0x40, 1)
    } else {
        (0x50000, 0x10, 2)
    };
    match Span::new(base, size) {
        Some(span) => {
            let member = Member { span, payload };
            let hit = Found::Hit { member, stamp: 0 };
            Place {
                registered: Found::Miss { stamp: 0 },
                loaded: Some(hit),
            }
        }
        None => nothing(),
    }
}

/// What becomes of a raise over the stack where so many queries find an image, and how many of them
/// are left then.
fn raised_after(rt: &(impl Abort + Wait), alloc: Global, left: u32) -> Result<(Raised, u32), Fail> {
    let script = read(alloc, CAUGHT.as_bytes())?;
    let sections = script.sections.as_slice();
    assert!(rt; sections.len() >= 3);
    let snapshot = script.snapshots.first().ok_or("a snapshot")?;
    let (regs, memory) = (&snapshot.regs, &snapshot.memory);
    let mut finder = Forgetful { left };
    let raised = raise(rt, alloc, &mut finder, sections, regs, memory, 0x1234)?;
    Ok((raised, finder.left))
}

#[test]
fn a_handler_is_found_and_its_frames_are_asked_for_again(rt: HostRuntime) -> Result<(), Fail> {
    let (raised, left) = raised_after(&rt, rt.alloc(), 4)?;
    let end = RaiseEnd::Caught {
        frame: 1,
        pad: 0x8030,
        filter: 1,
    };
    assert!(rt; raised.end == end);
    assert_eq!(rt; (raised.search.len(), raised.cleanup.len()), (2, 2));
    assert_eq!(rt; left, 0);
    Ok(())
}

#[test]
fn a_raise_ends_where_the_second_answer_is_another(rt: HostRuntime) -> Result<(), Fail> {
    let (raised, _) = raised_after(&rt, rt.alloc(), 2)?;
    let end = RaiseEnd::Changed {
        frame: 0,
        first: image_at(0x50008),
        second: nothing(),
    };
    assert!(rt; raised.end == end);
    let asked = raised.cleanup.first().ok_or("a frame")?;
    assert!(rt; raised.cleanup.len() == 1 && asked.verdict.is_none());
    Ok(())
}
