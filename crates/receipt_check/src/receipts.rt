//! What a receipt says of itself.

ghost use Rattle.std.specs.Prelude.{◌≡◌, is_some};
ghost use Rattle.reg_model.specs.Receipt.{moment, accepted};

use reg_model::{Found, Inserted, Loading, Receipt, Removed, Replaced, Update};

/// The number of an accepted update, and the stamp of any other answer.
pub fn moment_of(receipt: &Receipt) -> u32
    ensures { result ≡ moment receipt.now }
{
    match receipt {
        Receipt::Register { answer, .. } => match answer {
            Inserted::Done { number } => *number,
            Inserted::Overlap { stamp, .. } | Inserted::Full { stamp } => *stamp,
            Inserted::Spent => 0,
        },
        Receipt::Replace { answer, .. } => match answer {
            Replaced::Done { number, .. } => *number,
            Replaced::NotFound { stamp } => *stamp,
            Replaced::Spent => 0,
        },
        Receipt::Load { answer, .. } => match answer {
            Loading::Done { number } => *number,
            Loading::Overlap { stamp, .. } | Loading::LoadFull { stamp } => *stamp,
            Loading::Spent => 0,
        },
        Receipt::Deregister { answer, .. } | Receipt::Unload { answer, .. } => match answer {
            Removed::Done { number, .. } => *number,
            Removed::NotFound { stamp } => *stamp,
            Removed::Spent => 0,
        },
        Receipt::Query { found, .. } => match found {
            Found::Hit { stamp, .. } | Found::Miss { stamp } => *stamp,
        },
    }
}

/// Whether an update was accepted.
fn is_accepted(receipt: &Receipt) -> bool
    ensures { result ≡ is_some (accepted receipt.now) }
{
    match receipt {
        Receipt::Register { answer, .. } => matches!(answer, Inserted::Done { .. }),
        Receipt::Replace { answer, .. } => matches!(answer, Replaced::Done { .. }),
        Receipt::Load { answer, .. } => matches!(answer, Loading::Done { .. }),
        Receipt::Deregister { answer, .. } | Receipt::Unload { answer, .. } => {
            matches!(answer, Removed::Done { .. })
        }
        Receipt::Query { .. } => false,
    }
}

/// The update that was accepted.
pub fn update_in(receipt: &Receipt) -> Option<Update>
    ensures { result ≡ accepted receipt.now }
{
    if !is_accepted(receipt) {
        return None;
    }
    match receipt {
        Receipt::Register { member, .. } => Some(Update::Register { member: *member }),
        Receipt::Deregister { base, .. } => Some(Update::Deregister { base: *base }),
        Receipt::Replace { member, .. } => Some(Update::Replace { member: *member }),
        Receipt::Load { member, .. } => Some(Update::Load { member: *member }),
        Receipt::Unload { base, .. } => Some(Update::Unload { base: *base }),
        Receipt::Query { .. } => None,
    }
}
