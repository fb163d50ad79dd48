//! Spans at their edges, and the registry on small histories whose answers were worked out by hand.

use reg_model::*;
use std::alloc::Global;

/// The first and the last address of a span.
fn ends(base: u64, size: u64) -> Option<(u64, u64)> {
    let span = Span::new(base, size)?;
    Some((span.first(), span.last()))
}

#[test]
fn spans_end_below_the_greatest_address(rt: HostRuntime) {
    let top = u64::MAX;
    for (base, size, wanted) in [
        (0x1000, 0x20, Some((0x1000, 0x101f))),
        (0x1000, 0, None),
        (0, 1, Some((0, 0))),
        (0, top, Some((0, top - 1))),
        (
            0xffff_ffff_ffff_fff0,
            0xf,
            Some((0xffff_ffff_ffff_fff0, 0xffff_ffff_ffff_fffe)),
        ),
        (0xffff_ffff_ffff_fff0, 0x10, None),
        (top - 1, 1, Some((top - 1, top - 1))),
        (top, 1, None),
        (top, top, None),
    ] {
        assert!(rt; ends(base, size) == wanted, "{size:x} from {base:x}");
    }
}

/// Whether an address is among 20 (hexadecimal) from 1000 on.
fn is_contained(pc: u64) -> Option<bool> {
    Some(Span::new(0x1000, 0x20)?.contains(pc))
}

#[test]
fn both_ends_are_contained(rt: HostRuntime) {
    for (pc, wanted) in [
        (0xfff, false),
        (0x1000, true),
        (0x1010, true),
        (0x101f, true),
        (0x1020, false),
    ] {
        assert!(rt; is_contained(pc) == Some(wanted), "{pc:x}");
    }
}

/// Whether these addresses overlap some others, and the others these.
fn overlap(base: u64, size: u64) -> Option<(bool, bool)> {
    let (span, other) = (Span::new(0x1000, 0x20)?, Span::new(base, size)?);
    Some((span.overlaps(&other), other.overlaps(&span)))
}

#[test]
fn one_common_address_overlaps(rt: HostRuntime) {
    for (base, size, wanted) in [
        (0xff0, 0x10, false),
        (0xff0, 0x11, true),
        (0x1000, 0x20, true),
        (0x1010, 1, true),
        (0x101f, 0x20, true),
        (0x1020, 0x20, false),
        (0, 0x2000, true),
    ] {
        assert!(rt;
            overlap(base, size) == Some((wanted, wanted)),
            "{size:x} from {base:x}"
        );
    }
}

/// An image of so many addresses.
fn image(payload: u32, base: u64, size: u64) -> Option<Member> {
    let span = Span::new(base, size)?;
    Some(Member { span, payload })
}

/// Whether a registration is answered so, where there is room for one more update.
fn registers(registry: &mut PlainRegistry, member: &Member, wanted: Inserted) -> bool {
    registry.updates() < 1000 && registry.register(*member).ok() == Some(wanted)
}

/// The same of a deregistration.
fn deregisters(registry: &mut PlainRegistry, base: u64, wanted: Removed) -> bool {
    registry.updates() < 1000 && registry.deregister(base) == wanted
}

/// The same of a replacement.
fn replaces(registry: &mut PlainRegistry, member: &Member, wanted: Replaced) -> bool {
    registry.updates() < 1000 && registry.replace(*member) == wanted
}

/// The same of a load.
fn loads(registry: &mut PlainRegistry, member: &Member, wanted: Loading) -> bool {
    registry.updates() < 1000 && registry.load(*member).ok() == Some(wanted)
}

/// The same of an unload.
fn unloads(registry: &mut PlainRegistry, base: u64, wanted: Removed) -> bool {
    registry.updates() < 1000 && registry.unload(base) == wanted
}

/// Whether an address is in neither half.
fn is_nowhere(registry: &PlainRegistry, pc: u64, stamp: u32) -> bool {
    let nowhere = Place {
        registered: Found::Miss { stamp },
        loaded: Some(Found::Miss { stamp }),
    };
    registry.find(pc) == nowhere
}

/// Whether it is in a registered member.
fn is_registered(registry: &PlainRegistry, pc: u64, member: &Member, stamp: u32) -> bool {
    let registered = Place {
        registered: Found::Hit {
            member: *member,
            stamp,
        },
        loaded: None,
    };
    registry.find(pc) == registered
}

/// Whether it is in a member of the loader's alone.
fn is_loaded(registry: &PlainRegistry, pc: u64, member: &Member, stamp: u32) -> bool {
    let loaded = Place {
        registered: Found::Miss { stamp },
        loaded: Some(Found::Hit {
            member: *member,
            stamp,
        }),
    };
    registry.find(pc) == loaded
}

/// The registration names what it overlaps.
fn overlaps(member: &Member, stamp: u32) -> Inserted {
    Inserted::Overlap {
        member: *member,
        stamp,
    }
}

/// The load does.
fn load_overlaps(member: &Member, stamp: u32) -> Loading {
    Loading::Overlap {
        member: *member,
        stamp,
    }
}

/// The removal names what was there.
fn removed(number: u32, member: &Member) -> Removed {
    Removed::Done {
        number,
        member: *member,
    }
}

#[test]
fn one_range(rt: HostRuntime) {
    let mut registry = PlainRegistry::new(rt.alloc(), Vec::new(rt.alloc()), 8);
    let Some(member) = image(0, 0x1000, 0x20) else {
        panic!(rt; "a span")
    };
    assert!(rt;
        registry.updates() == 0
            && registers(&mut registry, &member, Inserted::Done { number: 1 })
            && is_registered(&registry, 0x1010, &member, 1)
            && is_nowhere(&registry, 0x1020, 1)
    );
    assert!(rt;
        deregisters(&mut registry, 0x1000, removed(2, &member))
            && is_nowhere(&registry, 0x1010, 2)
            && registry.updates() == 2
    );
}

/// A member of a span gets another payload, and one of a part of it is absent.
fn exchanges(registry: &mut PlainRegistry, old: &Member, new: &Member, part: &Member) -> bool {
    let (number, payload) = (2, old.payload);
    let done = Replaced::Done { number, payload };
    replaces(registry, old, Replaced::NotFound { stamp: 0 })
        && registers(registry, old, Inserted::Done { number: 1 })
        && replaces(registry, new, done)
        && is_registered(registry, 0x1010, new, 2)
        && replaces(registry, part, Replaced::NotFound { stamp: 2 })
        && deregisters(registry, 0x1000, removed(3, new))
}

#[test]
fn a_payload_is_exchanged_in_place(rt: HostRuntime) {
    let (Some(old), Some(new)) = (image(0, 0x1000, 0x30), image(1, 0x1000, 0x30)) else {
        panic!(rt; "spans")
    };
    let Some(part) = image(2, 0x1000, 0x20) else {
        panic!(rt; "a span")
    };
    let mut registry = PlainRegistry::new(rt.alloc(), Vec::new(rt.alloc()), 8);
    assert!(rt; exchanges(&mut registry, &old, &new, &part) && registry.updates() == 3);
}

/// Registers two members, and between them and behind them one that overlaps both.
fn names_the_lowest(registry: &mut PlainRegistry, first: &Member, second: &Member) -> bool {
    let (Some(low), Some(both)) = (image(11, 0x1400, 0x80), image(12, 0x1400, 0x200)) else {
        return false;
    };
    registers(registry, first, Inserted::Done { number: 1 })
        && registers(registry, &both, overlaps(first, 1))
        && registers(registry, second, Inserted::Done { number: 2 })
        && registers(registry, &both, overlaps(&low, 2))
}

#[test]
fn the_lowest_overlap_is_named(rt: HostRuntime) {
    let (Some(high), Some(low)) = (image(5, 0x1500, 0x10), image(11, 0x1400, 0x80)) else {
        panic!(rt; "spans")
    };
    let mut registry = PlainRegistry::new(rt.alloc(), Vec::new(rt.alloc()), 8);
    assert!(rt; names_the_lowest(&mut registry, &high, &low));
    let mut another = PlainRegistry::new(rt.alloc(), Vec::new(rt.alloc()), 8);
    assert!(rt; names_the_lowest(&mut another, &low, &high));
}

/// A fixed member of so many addresses, and a registry in which so many more may be loaded.
fn beside(alloc: Global, size: u64, loads: u32) -> Option<(Member, PlainRegistry)> {
    let (fixed, same) = (image(0, 0x1000, size)?, image(0, 0x1000, size)?);
    let members = Vec::from_array(alloc, [same]).ok()?;
    Some((fixed, PlainRegistry::new(alloc, members, loads)))
}

#[test]
fn fixed_members_are_found_after_the_registered_ones(rt: HostRuntime) {
    let Some((fixed, mut registry)) = beside(rt.alloc(), 0x100, 8) else {
        panic!(rt; "no memory")
    };
    let Some(own) = image(1, 0x1010, 0x10) else {
        panic!(rt; "a span")
    };
    assert!(rt;
        is_loaded(&registry, 0x1010, &fixed, 0)
            && registers(&mut registry, &own, Inserted::Done { number: 1 })
            && is_registered(&registry, 0x1010, &own, 1)
            && deregisters(&mut registry, 0x1000, Removed::NotFound { stamp: 1 })
    );
}

/// Two more members are loaded, and there is no room for a third. What overlaps is named also then,
/// the lowest of both lists.
fn loads_till_full(registry: &mut PlainRegistry, fixed: &Member) -> bool {
    let (Some(over), Some(third)) = (image(1, 0x1010, 0x20), image(2, 0x3000, 0x10)) else {
        return false;
    };
    let (Some(fifth), Some(wide)) = (image(4, 0x5000, 0x10), image(5, 0x1010, 0x3000)) else {
        return false;
    };
    let (Some(fourth), Some(above)) = (image(3, 0x4000, 0x10), image(6, 0x2000, 0x3000)) else {
        return false;
    };
    loads(registry, &over, load_overlaps(fixed, 0))
        && loads(registry, &third, Loading::Done { number: 1 })
        && loads(registry, &fourth, Loading::Done { number: 2 })
        && loads(registry, &fifth, Loading::LoadFull { stamp: 2 })
        && loads(registry, &wide, load_overlaps(fixed, 2))
        && loads(registry, &above, load_overlaps(&third, 2))
}

/// One of them is unloaded, which makes room, and the fixed one can't be.
fn unloads_one(registry: &mut PlainRegistry) -> bool {
    let (Some(third), Some(fifth)) = (image(2, 0x3000, 0x10), image(4, 0x5000, 0x10)) else {
        return false;
    };
    unloads(registry, 0x3000, removed(3, &third))
        && loads(registry, &fifth, Loading::Done { number: 4 })
        && unloads(registry, 0x1000, Removed::NotFound { stamp: 4 })
}

/// A registered member is found before a fixed one, and a loaded one by itself.
fn registers_over(registry: &mut PlainRegistry, fixed: &Member) -> bool {
    let (Some(over), Some(fourth)) = (image(1, 0x1010, 0x20), image(3, 0x4000, 0x10)) else {
        return false;
    };
    registers(registry, &over, Inserted::Done { number: 5 })
        && is_registered(registry, 0x1010, &over, 5)
        && is_loaded(registry, 0x1008, fixed, 5)
        && is_loaded(registry, 0x4008, &fourth, 5)
        && is_nowhere(registry, 0x3008, 5)
}

#[test]
fn loaded_members_beside_a_fixed_one(rt: HostRuntime) {
    let Some((fixed, mut registry)) = beside(rt.alloc(), 0x20, 2) else {
        panic!(rt; "no memory")
    };
    assert!(rt; loads_till_full(&mut registry, &fixed));
    assert!(rt; unloads_one(&mut registry));
    assert!(rt; registers_over(&mut registry, &fixed));
}
