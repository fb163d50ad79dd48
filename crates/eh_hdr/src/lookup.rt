//! The search among the entries of a table.

ghost use Rattle.std.specs.Prelude.{◌≡◌, ◌<◌, length, None, Some, IfSome, IfNone, slice_get};
ghost use Rattle.std.specs.Prelude.{if◌then◌else◌};
ghost use Rattle.std.specs.List.{All};
ghost use Rattle.std.specs.Option.{option_and_then, option_map};
ghost use Rattle.frame_parse.specs.Sections.{IsAscending, covers, first_cover};
ghost use Rattle.eh_hdr.specs.Tables.{locations, IsLastUpTo, IsSortedTable};

use crate::table::TableEntry;
use frame_parse::{Fde, Section};

/// All of a number where something holds, else 0, without a branch: the processor would guess wrong
/// half of the time.
#[inline(always)]
fn where_holds(number: usize, holds: bool) -> usize
    ensures { result ≡ (if holds then number else 0) }
{
    number * usize::from(holds)
}

/// The last entry whose location is not above an address. The search halves those that may be it,
/// which begin at `base`.
pub(crate) fn last_up_to(entries: &[TableEntry], pc: u64) -> Option<usize>
    requires { IsAscending (locations entries.now) }
    ensures some { IfSome result (λ i. IsLastUpTo pc entries.now i) }
    ensures none { IfNone result (All (λ e. pc < e.location) entries.now) }
{
    let mut base = 0;
    let mut size = entries.len();
    while size > 1 {
        let half = size / 2;
        base += where_holds(half, entries[base + half].location <= pc);
        size -= half;
    }
    if base < entries.len() && entries[base].location <= pc {
        Some(base)
    } else {
        None
    }
}

/// The FDE of a number, where it covers an address.
fn covering(section: &Section, index: usize, pc: u64) -> Option<Fde<'_>>
    requires { index < length section.now.fdes }
    ensures entry { option_map (λ f. f.entry) result ≡ option_and_then
        (λ f. if covers pc f then Some f else None) (slice_get section.now.fdes index) }
    ensures section { IfSome result
        (λ f. (f.section ≡ section.now.address) × (f.bytes ≡ section.now.bytes)) }
{
    let fde = section.fde(index);
    if fde.first() <= pc && pc - fde.first() < fde.range() {
        Some(fde)
    } else {
        None
    }
}

/// The FDE that covers an address, by a table of the section.
pub(crate) fn table_cover<'s>(
    section: &'s Section,
    entries: &[TableEntry],
    pc: u64,
) -> Option<Fde<'s>>
    requires { IsSortedTable section.now.fdes (Some entries.now) }
    ensures entry { option_map (λ f. f.entry) result ≡ first_cover pc section.now.fdes }
    ensures section { IfSome result
        (λ f. (f.section ≡ section.now.address) × (f.bytes ≡ section.now.bytes)) }
{
    match last_up_to(entries, pc) {
        None => None,
        Some(index) => covering(section, entries[index].fde, pc),
    }
}
