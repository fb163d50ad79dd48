//! Updates of ranges at addresses that meet: more come than go, then more go than come.

ghost use Rattle.std.specs.Prelude.{◌<◌, ◌≤◌};

use crate::tree_changes::{TreeChange, kinds_of};
use reg_model::{Member, Span, Update};
use std::alloc::Global;
use std::test::Fail;

/// Places of which each has a short, a wide and a long range: the long one reaches into the next
/// place, and the wide one beyond the short one.
const PLACES: u64 = 256;

/// The sizes of the three.
const SIZES: [u64; 3] = [0x40, 0x90, 0x180];

const ROUNDS: u64 = 64;

/// How many draw up updates in a round.
const TURNS: u64 = 16;

fn base_of(place: u64) -> u64 {
    0x10_000 + place % PLACES * 0x100
}

/// A registration of one of the three ranges of a place, under a payload of its own.
fn registration(place: u64, which: usize) -> Option<Update> {
    let size = *SIZES.get(which)?;
    let span = Span::new(base_of(place), size)?;
    let payload = u32::try_from(place % PLACES * 3).ok()? + u32::try_from(which % 3).ok()?;
    Some(Update::Register {
        member: Member { span, payload },
    })
}

fn removal(place: u64) -> Update {
    Update::Deregister {
        base: base_of(place),
    }
}

/// Which of the three ranges of a place is registered in a turn: short ones most often.
fn size_at(turn: u64) -> usize {
    match turn % 5 {
        3 => 1,
        4 => 2,
        _ => 0,
    }
}

/// More comes than goes: ranges of all sizes at places that are scattered, and one that is put in
/// the place of another.
fn put_growth(updates: &mut Vec<Update>, round: u64, turn: u64) -> Result<(), Fail>
    requires { (round < 64) × (turn < 16) }
{
    for step in 0..6u64 {
        let place = (round * 37 + turn * 101 + step * 17) % PLACES;
        let registration = registration(place, size_at(round + turn + step));
        updates.push(registration.ok_or("a range")?)?;
    }
    let place = (round * 53 + turn * 29) % PLACES;
    updates.push(removal(place))?;
    updates.push(registration(place, 1).ok_or("a wide range")?)?;
    Ok(())
}

/// Ranges go: those of some places, and of those behind them.
fn put_decline(updates: &mut Vec<Update>, round: u64, turn: u64) -> Result<(), Fail>
    requires { (round < 64) × (turn < 16) }
{
    for step in 0..8u64 {
        let place = turn * 16 + round % 4 * 4 + step % 4 + step / 4 * 16;
        updates.push(removal(place))?;
    }
    Ok(())
}

/// Rounds of growth and of decline, four at a time.
fn updates_of_rounds(alloc: Global) -> Result<Vec<Update>, Fail> {
    let mut updates = Vec::new(alloc);
    for round in 1..ROUNDS {
        for turn in 0..TURNS {
            if round % 8 < 4 {
                put_growth(&mut updates, round, turn)?;
            } else {
                put_decline(&mut updates, round, turn)?;
            }
        }
    }
    Ok(updates)
}

/// Every way in which an update changes a tree's nodes.
const KINDS: [TreeChange; 6] = [
    TreeChange::Split,
    TreeChange::Joined,
    TreeChange::Shared,
    TreeChange::Fence,
    TreeChange::Lifted,
    TreeChange::Sunk,
];

#[test]
fn nodes_change_in_every_way(rt: HostRuntime) -> Result<(), Fail> {
    let alloc = rt.alloc();
    let updates = updates_of_rounds(alloc)?;
    let kinds = kinds_of(&rt, alloc, &updates)?;
    assert!(rt; KINDS.iter().all(|kind| kinds.contains(kind)));
    Ok(())
}
