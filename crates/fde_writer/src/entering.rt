//! A section is entered under its key, and its members are put.

ghost use Rattle.std.specs.Prelude.{◌≡◌, IfOk, IfErr, false};
ghost use Rattle.fde_writer.specs.Places.{PlaceData, all_registered, placed_members};
ghost use Rattle.fde_writer.specs.Puttings.{Enters, HasCallsFor, HasPayloadsOf, IsSectionFault};

use crate::book::Book;
use crate::outcome::Numbers;
use crate::places::Places;
use crate::putting::PutFault;
use crate::standing::Standing;
use sole_writer::Writer;

/// Why a section was not entered.
#[derive(Clone, Copy, Debug, PartialEq, Eq)]
pub enum SectionFault {
    NoMemory,
    NotPut { fault: PutFault },
}

/// Enters a section under its key, and puts its members, whose places are given anew. All memory is
/// taken before the first update.
pub fn enter(
    client: &mut Writer,
    book: &mut Book,
    key: u64,
    standing: Standing,
    places: Places,
) -> Result<Numbers, SectionFault>
    requires free { client.old.stuck ≡ false }
    requires left { HasCallsFor standing.places client.old }
    requires payloads { HasPayloadsOf standing.places client.old }
    requires places { places ≡ standing.places }
    requires registered { standing.places ≡ all_registered (placed_members standing.places) }
    ensures enters { IfOk result
        (λ numbers. Enters key standing numbers client.old client.new book.old book.new) }
    ensures fault { IfErr result
        (IsSectionFault standing client.old client.new book.old book.new) }
{
    match book.push(key, standing) {
        Ok(()) => {}
        Err(_) => return Err(SectionFault::NoMemory),
    }
    let mut places = places;
    match places.put(client) {
        Ok(numbers) => {
            if places.is_one_registered() {
                return Ok(numbers);
            }
            book.settle(key, places);
            Ok(numbers)
        }
        Err(fault) => {
            book.pop(key);
            Err(SectionFault::NotPut { fault })
        }
    }
}
