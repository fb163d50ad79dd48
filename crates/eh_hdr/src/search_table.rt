//! The table of a header by itself, for who keeps the section elsewhere.

ghost use Rattle.std.specs.Prelude.{◌≡◌, IfSome};
ghost use Rattle.std.specs.Option.{option_map};
ghost use Rattle.frame_parse.specs.Sections.{first_cover};
ghost use Rattle.eh_hdr.specs.Tables.{IsSortedTable};

use crate::lookup::table_cover;
use crate::table::TableEntry;
use frame_parse::{Fde, Section};
use std::marker::Model;

/// What a header searches: its entries, where it has a table.
#[derive(Drop)]
pub struct SearchTable {
    entries: Option<Vec<TableEntry>>,
}

impl Model for SearchTable {
    ghost use Rattle.std.specs.Prelude.{List, Option};
    ghost use Rattle.std.specs.Option.{option_map};
    ghost use Rattle.eh_hdr.specs.declared.table.TableEntry.{TableEntry};

    ghost Value = { Option (List TableEntry) };

    ghost view = { λ t. option_map (λ es. es.items) t.entries };
}

impl SearchTable {
    pub(crate) fn new(entries: Option<Vec<TableEntry>>) -> SearchTable
        ensures { result ≡ option_map (λ es. es.items) entries }
    {
        SearchTable { entries }
    }

    /// The FDE that the lookup of its section finds.
    pub fn fde_at<'s>(&self, section: &'s Section, pc: u64) -> Option<Fde<'s>>
        requires { IsSortedTable section.now.fdes self.now }
        ensures entry { option_map (λ f. f.entry) result ≡ first_cover pc section.now.fdes }
        ensures section { IfSome result
            (λ f. (f.section ≡ section.now.address) × (f.bytes ≡ section.now.bytes)) }
    {
        match &self.entries {
            None => section.fde_at(pc),
            Some(entries) => table_cover(section, entries, pc),
        }
    }
}
