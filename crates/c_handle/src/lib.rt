//! What the libraries for C share: handles, that is a box with its fields in sight, what a handle
//! owns, the proof that a handle is made of a box and gives it back (`proofs/HandleSteps`), and the
//! shares of a value that handles lead to; how large a registry may be; and the kinds of lookups.
#![tactic(auto)]

mod kinds;
mod limits;
mod parts;
mod shared;

pub use kinds::{FIND_AGAIN, LOADED, NOWHERE, REGISTERED};
pub use limits::{SizeFault, check_size};
pub use parts::Parts;
pub use shared::Shared;
