//! What becomes of a section's bytes.

use crate::reach::AddressReach;
use fde_writer::Registration;

/// What became of a section, and which addresses its ranges have.
#[derive(Clone, Copy)]
pub struct SectionOutcome {
    pub answer: Registration,
    pub reach: AddressReach,
}
