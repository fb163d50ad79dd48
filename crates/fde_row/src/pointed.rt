//! Addresses in records that may be those of pointers.

ghost use Rattle.std.specs.Prelude.{◌≡◌};
ghost use Rattle.fde_row.specs.Pointers.{is_indirect, pointed_by};

use eh_bytes::DW_EH_PE_indirect;

/// An address that a record says. The place of its field is added where the encoding says so.
#[derive(Clone, Copy, Debug, PartialEq, Eq)]
pub struct Pointed {
    pub address: u64,
    /// At the address stands a pointer to what is meant.
    pub indirect: bool,
}

/// Whether an encoding is that of a pointer's address.
fn is_indirect(encoding: u8) -> bool
    ensures { result ≡ is_indirect encoding }
{
    DW_EH_PE_indirect <= encoding
}

/// An address in an encoding.
pub(crate) fn pointed_by(encoding: u8, address: Option<u64>) -> Option<Pointed>
    ensures { result ≡ pointed_by encoding address }
{
    match address {
        None => None,
        Some(address) => Some(Pointed {
            address,
            indirect: is_indirect(encoding),
        }),
    }
}
