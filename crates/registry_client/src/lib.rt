//! A registry for callers outside of Rattle: clients and readers, and what they are told.
//!
//! Above the registry (`registry_core`) and a thread's last hits (`frame_cache`), below the exports
//! to C (`registry_c`). All clients of a registry share its words; each has a caller of its own. No
//! call waits, and none but those that make, split, join or close takes memory: a lookup is one
//! try, and an update is one try that takes each lock by one step or says that it is busy. What is
//! told of an answer is a plain struct.
#![tactic(auto)]

mod attempt;
mod client;
mod find;
mod kinds;
mod limits;
mod member;
mod reader;
mod splits;
mod updates;

pub use attempt::{Attempt, RegistryAnswer};
pub use client::Client;
pub use find::{LookupBy, RegistryFound, RegistryPlace};
pub use limits::{LimitFault, RegistryLimits};
pub use member::{MemberFault, RegistryMember};
pub use reader::RegistryReader;
pub use splits::{JoinAnswer, SplitFault};
