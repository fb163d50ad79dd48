//! The shared words of the registry under one invariant, and one call for each kind of single step
//! on them.
//!
//! All that threads share is one table of words: the clock, the free head, the loader's version
//! lock, the nodes of the tree and two copies of the loader's list. A thread steps on it with a
//! `Caller`, which is passed by `&mut` beside the shared `&Words`. Each step is one sequentially
//! consistent access to one word. What a caller has seen and done stands in its log, plain data
//! that exists in the proofs alone (`log`); `specs/Logs`, `specs/Sights` and `specs/Steps` say what
//! each step makes of it. What holds of all words and all logs between any two steps is the table's
//! invariant (`specs/TableInvariant`, and `specs/Callers` for callers); `specs/Places` has where
//! each word stands.
//!
//! A caller splits off others and makes notes for them; a caller may join another, or learn a note.
//! Each has a share, a part of its maker's, and who has the whole knows that it is alone (`share`).
//! A `Reader` only loads: it has no share, so nobody waits for it, and it may be made and dropped
//! at any time. A `Looker` is either.
//!
//! Who writes which word, under which lock, and why it is safe to read it without one:
//!
//! - The clock: each accepted update, by one exchange, under its leaf's lock or the loader's. Each
//!   of its values is one moment of the history.
//! - The free head: who takes a node off the list, or gives one back, under that node's lock. An
//!   exchange finds whether it changed.
//! - A version: who takes that lock and lets go of it. One that was let go of never comes back.
//! - A node's other words: who holds its lock. Its version, found again, tells that nobody stored
//!   in it meanwhile.
//! - The active copy of the loader's list: nobody. The clock's upper half, found again, tells that
//!   it was active meanwhile.
//! - The other copy: who publishes next, under the loader's lock. Nobody else reads it.
//!
//! The layer above the model (reg_model: updates, histories, receipts) and the tree as pure values
//! (tree_shape: what a node is; tree_laws: when contents are a lawful tree). From atomic_table it
//! takes the steps, each proved to keep a rule that it is given. The rule here is the whole
//! invariant. Built are the steps on version locks, on nodes, on the free head, on the clock and
//! the loader's copies, the commit of an update of the tree, and callers, notes and readers that
//! come and go.
#![tactic(auto)]

mod caller;
mod clock;
mod commits;
pub mod exchange;
mod head;
mod initial;
mod lifecycle;
mod log;
mod looker;
mod nodes;
pub mod places;
mod readers;
mod rule;
mod seats;
mod share;
mod words;

pub use caller::{Caller, Note};
pub use log::{
    Ask, Budget, CallerTrace, CopySight, Holding, Holdings, Lineage, LoadEvent, LoadedWord,
    LoaderHolding, LockId, Log, NodeSight, ReceiptList, Receipts, Role, Sights, Terms,
};
pub use looker::Looker;
pub use places::{FIRST_NODE, NODE_WORDS};
pub use readers::Reader;
pub use words::Words;
