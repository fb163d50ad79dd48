//! A registry that threads share is asked as one of its callers.

use reg_model::{Found, Inserted, Member, Place, Span};
use registry_core::Registry;
use run_engine::SharedFinder;
use std::test::Fail;
use unwind_step::Finder;

#[test]
fn a_finder_finds_what_its_caller_registered(rt: HostRuntime) -> Result<(), Fail> {
    let alloc = rt.alloc();
    let (registry, mut me) = Registry::new(alloc, 4, 1, 8, Vec::new(alloc))?;
    let span = Span::new(0x1000, 0x20).ok_or("a span")?;
    let member = Member { span, payload: 7 };
    let answer = registry.register(&rt, &mut me, member);
    assert!(rt; answer == Inserted::Done { number: 1 });
    let mut finder = SharedFinder::new(&registry, &mut me);
    let place = finder.find(&rt, 0x101f);
    assert!(rt; place == first_of(&member));
    Ok(())
}

/// The member is registered, after one update.
fn first_of(member: &Member) -> Place {
    Place {
        registered: Found::Hit {
            member: *member,
            stamp: 1,
        },
        loaded: None,
    }
}
