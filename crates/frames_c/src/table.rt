//! The FDEs of a section as a plain table, which any number of threads search at once.

ghost use Rattle.std.specs.Prelude.{◌≡◌, ◌≤◌, ◌<◌, Option, length, take, if◌then◌else◌};
ghost use Rattle.std.specs.List.Sorted.{IsPermutation, IsNonDecreasingBy};
ghost use Rattle.std.specs.Option.{unwrap_or};
ghost use Rattle.c_handle.specs.Handles.{LeadsNowhere, LeadsSomewhere};
ghost use Rattle.frames_c.specs.declared.table.FramesEntry.{FramesEntry};
ghost use Rattle.frames_c.specs.Fdes.{is_there};
ghost use Rattle.frames_c.specs.Held.{held_section};
ghost use Rattle.frames_c.specs.TableEntries.{entry_told, entries_told, entry_has, entries_apart};
ghost use Rattle.frames_c.specs.TableEntries.{AnswersTable, IsSearched};

use crate::handles::SectionHandle;
use frame_parse::{Fde, Section};
use std::alloc::Global;

/// The addresses that an FDE covers, and the place of its first byte among those of the section.
#[repr(C)]
#[derive(Clone, Copy)]
pub struct FramesEntry {
    pub first: u64,
    pub range: u64,
    pub place: u64,
}

impl FramesEntry {
    fn of(fde: &Fde<'_>) -> FramesEntry
        ensures { result ≡ entry_told fde.now.entry }
    {
        FramesEntry {
            first: fde.first(),
            range: fde.range(),
            place: fde.place() as u64,
        }
    }

    fn has(&self, pc: u64) -> bool
        ensures { result ≡ entry_has pc self.now }
    {
        self.first <= pc && pc - self.first < self.range
    }
}

/// Writes an entry for each FDE that isn't empty, in order of bytes. How many there are.
fn fill(section: &Section, entries: &mut [FramesEntry]) -> usize
    requires { length section.now.fdes ≤ length entries.old }
    ensures entries { take result entries.new ≡ entries_told section.now.fdes }
    ensures room { result ≤ length entries.new }
{
    let mut count = 0;
    for index in 0..section.count() {
        let fde = section.fde(index);
        if fde.range() > 0 {
            entries[count] = FramesEntry::of(&fde);
            count += 1;
        }
    }
    count
}

/// Whether each range ends before the next begins.
fn entries_apart(entries: &[FramesEntry]) -> bool
    ensures { result ≡ entries_apart entries.now }
{
    let mut left = entries;
    while let [first, second, ..] = left {
        if second.first < first.first || second.first - first.first < first.range {
            return false;
        }
        left = &left[1..];
    }
    true
}

/// Puts entries in order of first addresses. Whether no two share an address.
fn order(entries: &mut [FramesEntry]) -> bool
    ensures same { IsPermutation entries.old entries.new }
    ensures ordered { IsNonDecreasingBy (λ e. e.first) entries.new }
    ensures length { length entries.new ≡ length entries.old }
    ensures apart { result ≡ entries_apart entries.new }
{
    entries.sort_unstable_by_key(|entry| entry.first);
    entries_apart(entries)
}

/// Makes the table of a section. What came of it, and of how many entries it is.
fn table(section: &Section, entries: &mut [FramesEntry]) -> (u64, usize)
    ensures table { AnswersTable section.now.fdes entries.old result.0 result.1 entries.new }
    ensures room { result.1 ≤ length entries.old }
{
    if entries.len() < section.count() {
        return (1, 0);
    }
    let count = fill(section, entries);
    if order(&mut entries[..count]) {
        (0, count)
    } else {
        (2, count)
    }
}

/// Makes a table of the FDEs that aren't empty. What came of it: 0 that it stands in the first
/// `count` entries, 1 that there is less room than the section has FDEs, 2 that two FDEs share an
/// address, so that no table finds what the section does.
#[unsafe(no_mangle)]
pub extern "C" fn frames_c_table(
    alloc: Global,
    section: SectionHandle,
    entries: &mut [FramesEntry],
    count: &mut usize,
    back: &mut SectionHandle,
) -> u64
    requires held { LeadsSomewhere section.held }
    requires back { LeadsNowhere back.old.held }
    ensures back { back.new.held ≡ section.held }
    ensures table { AnswersTable (held_section section.held).fdes entries.old result count.new
        entries.new }
    ensures room { count.new ≤ length entries.old }
{
    let share = section.open(alloc);
    let (made, entries_made) = table(share.get().section(), entries);
    *count = entries_made;
    *back = SectionHandle::of(share);
    made
}

/// An entry that has an address. The search halves those that may have it, which begin at `base`.
fn searched(entries: &[FramesEntry], pc: u64) -> Option<FramesEntry>
    ensures { IsSearched entries.now pc result }
{
    let mut base = 0;
    let mut size = entries.len();
    while size > 1 {
        let half = size / 2;
        base += where_begun(half, entries[base + half].first <= pc);
        size -= half;
    }
    if base < entries.len() && entries[base].has(pc) {
        Some(entries[base])
    } else {
        None
    }
}

/// All of a number where an entry begins up to the address, else 0, without a branch: the processor
/// would guess wrong half of the time.
#[inline(always)]
fn where_begun(number: usize, begun: bool) -> usize
    ensures { result ≡ (if begun then number else 0) }
{
    number * usize::from(begun)
}

/// The entry of a table that has an address; false where none has, and then nothing is written. It
/// takes no section. Whatever the entries are, one that is written is one of them and has the
/// address.
#[unsafe(no_mangle)]
pub extern "C" fn frames_c_search(entries: &[FramesEntry], pc: u64, out: &mut FramesEntry) -> bool
    ensures { (found : Option FramesEntry) × IsSearched entries.now pc found
        × (result ≡ is_there found) × (out.new ≡ unwrap_or found out.old) }
{
    match searched(entries, pc) {
        None => false,
        Some(entry) => {
            *out = entry;
            true
        }
    }
}
