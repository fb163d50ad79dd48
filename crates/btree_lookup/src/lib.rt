//! The registered half of a lookup over the shared words.
//!
//! A try takes no lock and stores nothing. It goes down from the root by single loads: the version
//! of a node, its count, eight separators or all fifteen, and the child; then the child's version,
//! and the parent's again. At the leaf it loads all bases, the clock, and the leaf's version again.
//! Where each version was found again, what was read is the tree's at the clock; else the try says
//! which word it found changed or locked.
//!
//! A search counts words, and doesn't stop at the one that ends it: the processor would guess that
//! end wrong about once a node. So words behind a node's count are loaded too.
//!
//! The layer above word_rule, which has the single steps, says what a version that is found again
//! tells, and appends the receipt.
#![tactic(auto)]

mod entry;
mod lookup;
pub mod visit;

pub use lookup::try_find;
