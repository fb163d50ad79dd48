//! What becomes of an exception. A function's table of call sites (its language-specific data area,
//! LSDA) says of an address whether the exception goes on to the caller, what is to be cleaned up,
//! and where it is caught. The crate stands on the cursor and the grammar of `eh_bytes`, and takes
//! no memory for a verdict. Which format is read stands in `specs/`: `CallSites` and `Actions` have
//! its parts, `Verdicts` says what they come to.
//!
//! Above that and the walk of `unwind_step`, `raise` goes through a recorded stack in two phases:
//! it searches for the handler, and then asks again for each frame up to the handler's. What a
//! raise is stands in `specs/Raising`.
#![tactic(auto)]

mod actions;
mod call_sites;
mod fault;
mod judgement;
mod laws;
mod lsda;
mod outcome;
mod phases;
mod raised;

pub use fault::LsdaFault;
pub use laws::{steady_answers_change_no_raise, tables_have_one_verdict};
pub use lsda::verdict;
pub use outcome::Verdict;
pub use phases::raise;
pub use raised::{Phase, RaiseEnd, Raised};
