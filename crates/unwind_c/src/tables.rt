//! The search of the sorted table that a linker leaves in a loaded object.

ghost use Rattle.std.specs.Prelude.{◌≡◌, ◌<◌, length, true, false};
ghost use Rattle.unwind_c.specs.Tables.{BeginsAfter, BeginsUpTo, IsEntryUpTo};

/// Where code begins, and where its FDE stands. Both count from the table's header on.
#[repr(C)]
#[derive(Clone, Copy)]
pub struct UnwindEntry {
    pub first: i32,
    pub fde: i32,
}

/// Whether an entry begins up to a number. Else it begins after it.
fn begins_up_to(entry: &UnwindEntry, wanted: i64) -> bool
    ensures up_to { result ≡ true → BeginsUpTo wanted entry.now }
    ensures after { result ≡ false → BeginsAfter wanted entry.now }
{
    i64::from(entry.first) <= wanted
}

/// Whether an entry stands at a place, and it is the one that is wanted.
fn is_place(entries: &[UnwindEntry], wanted: i64, place: usize) -> bool
    ensures { result ≡ true → IsEntryUpTo entries.now wanted place }
{
    if place >= entries.len() || place > 0 && !begins_up_to(&entries[place], wanted) {
        return false;
    }
    place + 1 >= entries.len() || !begins_up_to(&entries[place + 1], wanted)
}

/// The place of the entry that is wanted, between two that come closer.
fn halved(entries: &[UnwindEntry], wanted: i64) -> usize
    requires { 0 < length entries.now }
    ensures { IsEntryUpTo entries.now wanted result }
{
    let mut low = 0;
    let mut high = entries.len();
    while high - low > 1 {
        let middle = low + (high - low) / 2;
        if begins_up_to(&entries[middle], wanted) {
            low = middle;
        } else {
            high = middle;
        }
    }
    low
}

/// The place of an entry that begins up to a number, or is the first, and whose next begins after
/// it. The guess is tried first, and any number will do.
#[unsafe(no_mangle)]
pub extern "C" fn unwind_c_place(entries: &[UnwindEntry], wanted: i64, guess: usize) -> usize
    requires some { 0 < length entries.now }
    ensures place { IsEntryUpTo entries.now wanted result }
{
    if is_place(entries, wanted, guess) {
        guess
    } else {
        halved(entries, wanted)
    }
}
