//! Lookups of the FDE of an address, by a reader of a registry whose members are FDEs'.
//!
//! One try asks the registered half, and the loader's where that misses, and tells the FDE's
//! address from the member that was found, with nothing looked up besides. It takes no lock, stores
//! nothing that is shared and takes no memory, so it may be made anywhere; a reader may be made and
//! dropped at any time. Above registry_core, which has the halves, and fde_members, which says to
//! which FDE a member leads.
#![tactic(auto)]

mod reader;

pub use reader::{FdeFound, FdeReader};
