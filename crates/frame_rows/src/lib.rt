//! The row of an address: how the CFA and each column of the frame before are found there, after
//! DWARF 5, section 6.4. Above `frame_parse`, which hands out instructions, this crate knows what
//! they do to rules. What the rule of one column is stands in `specs/Columns`, without the others:
//! a fold of the instructions that concern it. The code goes through all columns at once
//! (`specs/Rows`); that both agree is the theorem. Nothing here takes memory.
#![tactic(auto)]

mod base;
mod laws;
mod placed_row;
mod row;
mod rule;
mod walk;

pub use laws::{initial_rows_are_the_cies, placed_rows_are_rows};
pub use placed_row::PlacedRow;
pub use row::Row;
pub use rule::{CfaRule, CfaRuleWith, PlacedCfaRule, PlacedRule, Rule, RuleWith};
pub use walk::{initial_row, row_at};
