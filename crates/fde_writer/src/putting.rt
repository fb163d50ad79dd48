//! Members are put into the registry, and taken away again.

ghost use Rattle.std.specs.Prelude.{◌≡◌, ◌<◌, ◌≤◌, [], ◌∷◌, IfOk, IfErr, OnErr, false, length};
ghost use Rattle.sole_writer.specs.Writers.{WriterAnswers, WriterStops};
ghost use Rattle.fde_writer.specs.Places.{HoldsAtLeast};
ghost use Rattle.fde_writer.specs.Puttings.{HasCallsFor, HasPayloadsOf, IsFaultOfAll, PutsAll};
ghost use Rattle.fde_writer.specs.Puttings.{IsLoadingFault, IsPutFault, IsUndone, MayUndo, Puts};
ghost use Rattle.fde_writer.specs.Puttings.{StopsTaking, TakesAway, UnlessStuck, writer_state};
ghost use Rattle.fde_writer.specs.Puttings.{removal_from};

use crate::outcome::Numbers;
use crate::place::MemberInHalf;
use node_store::Busy;
use reg_model::{Half, Inserted, Loading, Member, Removed};
use sole_writer::Writer;

/// Why members were not put.
#[derive(Clone, Copy, Debug, PartialEq, Eq)]
pub enum PutFault {
    Overlap,
    Full,
    Stuck,
}

/// Where a member was put, and the number of the update.
#[derive(Clone, Copy, Debug, PartialEq, Eq)]
struct PutMember {
    half: Half,
    number: u32,
}

/// A lock was found taken.
#[derive(Clone, Copy, Debug, PartialEq, Eq)]
pub struct LockTaken;

/// Puts a member into the half of registered members, or where it overlaps one there into the
/// other half.
fn put(writer: &mut Writer, member: &Member) -> Result<PutMember, PutFault>
    requires free { writer.old.stuck ≡ false }
    requires left { 2 ≤ writer.old.me.left }
    requires payload { member.now.payload < writer.old.words.terms.payloads }
    ensures put { IfOk result (λ p. Puts (member.now ∷ []) 2
        (record { member = member.now; half = p.half } ∷ [])
        (record { first = p.number; last = p.number }) writer.old writer.new) }
    ensures fault { IfErr result (IsPutFault (member.now ∷ []) 2 writer.old writer.new) }
{
    let inserted = match writer.register(*member) {
        Ok(inserted) => inserted,
        Err(_) => return Err(PutFault::Stuck),
    };
    match inserted {
        Inserted::Done { number } => {
            let half = Half::Registered;
            Ok(PutMember { half, number })
        }
        Inserted::Overlap { .. } => load(writer, member),
        Inserted::Full { .. } => Err(PutFault::Full),
        Inserted::Spent => unreachable!(),
    }
}

/// Puts a member into the other half.
fn load(writer: &mut Writer, member: &Member) -> Result<PutMember, PutFault>
    requires free { writer.old.stuck ≡ false }
    requires left { 0 < writer.old.me.left }
    requires payload { member.now.payload < writer.old.words.terms.payloads }
    ensures put { IfOk result (λ p. Puts (member.now ∷ []) 1
        (record { member = member.now; half = p.half } ∷ [])
        (record { first = p.number; last = p.number }) writer.old writer.new) }
    ensures fault { IfErr result (IsLoadingFault member.now writer.old writer.new) }
{
    let loading = match writer.load(*member) {
        Ok(loading) => loading,
        Err(_) => return Err(PutFault::Stuck),
    };
    match loading {
        Loading::Done { number } => {
            let half = Half::Loaded;
            Ok(PutMember { half, number })
        }
        Loading::Overlap { .. } => Err(PutFault::Overlap),
        Loading::LoadFull { .. } => Err(PutFault::Overlap),
        Loading::Spent => unreachable!(),
    }
}

/// Asks the half of a place to let its member go.
fn remove(writer: &mut Writer, place: &MemberInHalf) -> Result<Removed, Busy>
    requires free { writer.old.stuck ≡ false }
    requires left { 0 < writer.old.me.left }
    ensures answers { IfOk result (λ answer. WriterAnswers
        (removal_from place.now.half place.now.member.span.first answer) writer.old writer.new) }
    ensures stops { IfErr result (λ why. WriterStops why writer.old writer.new) }
{
    match place.half() {
        Half::Registered => writer.deregister(place.first()),
        Half::Loaded => writer.unload(place.first()),
    }
}

/// Takes away the member of a place.
fn take(writer: &mut Writer, place: &MemberInHalf) -> Result<u32, LockTaken>
    requires free { writer.old.stuck ≡ false }
    requires left { 0 < writer.old.me.left }
    requires there { HoldsAtLeast (writer_state writer.old) (place.now ∷ []) }
    ensures taken { IfOk result (λ n. TakesAway (place.now ∷ []) (record { first = n; last = n })
        writer.old writer.new) }
    ensures stops { OnErr result (StopsTaking (place.now ∷ []) writer.old writer.new) }
{
    writer.known();
    let removed = match remove(writer, place) {
        Ok(removed) => removed,
        Err(_) => return Err(LockTaken),
    };
    match removed {
        Removed::Done { number, .. } => Ok(number),
        Removed::NotFound { .. } => unreachable!(),
        Removed::Spent => unreachable!(),
    }
}

/// Takes away the members of places, in order.
pub fn take_back(writer: &mut Writer, places: &[MemberInHalf]) -> Result<Numbers, LockTaken>
    requires free { writer.old.stuck ≡ false }
    requires left { length places.now ≤ writer.old.me.left }
    requires there { HoldsAtLeast (writer_state writer.old) places.now }
    ensures taken { IfOk result (λ numbers. TakesAway places.now numbers writer.old writer.new) }
    ensures stops { OnErr result (StopsTaking places.now writer.old writer.new) }
{
    let mut numbers = Numbers::none();
    for place in places {
        let number = take(writer, place)?;
        numbers = numbers.and(number);
    }
    Ok(numbers)
}

/// Takes back what was put before a fault, and tells why all was in vain.
fn undo(writer: &mut Writer, places: &[MemberInHalf], fault: PutFault) -> PutFault
    requires { UnlessStuck fault (MayUndo places.now writer.old) }
    ensures { IsUndone places.now writer.old writer.new fault result }
{
    match fault {
        PutFault::Stuck => PutFault::Stuck,
        PutFault::Overlap => match take_back(writer, places) {
            Ok(_) => PutFault::Overlap,
            Err(_) => PutFault::Stuck,
        },
        PutFault::Full => match take_back(writer, places) {
            Ok(_) => PutFault::Full,
            Err(_) => PutFault::Stuck,
        },
    }
}

/// Puts the members of places, and tells in which halves they stand: all of them, or none.
pub fn put_all(writer: &mut Writer, places: &mut [MemberInHalf]) -> Result<Numbers, PutFault>
    requires free { writer.old.stuck ≡ false }
    requires left { HasCallsFor places.old writer.old }
    requires payloads { HasPayloadsOf places.old writer.old }
    ensures put { IfOk result (PutsAll places.old places.new writer.old writer.new) }
    ensures fault { IfErr result (IsFaultOfAll places.old writer.old writer.new) }
{
    let mut numbers = Numbers::none();
    for index in 0..places.len() {
        let member = places[index].member();
        let put = match put(writer, &member) {
            Ok(put) => put,
            Err(fault) => return Err(undo(writer, &places[..index], fault)),
        };
        places[index] = MemberInHalf::new(&member, put.half);
        numbers = numbers.and(put.number);
    }
    Ok(numbers)
}
