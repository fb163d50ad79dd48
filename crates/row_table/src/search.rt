//! The row of an address among those of an FDE.

ghost use Rattle.std.specs.Prelude.{◌≡◌, ◌+◌, ◌<◌, ◌≤◌, ℕ, length, get_or, if◌then◌else◌};
ghost use Rattle.std.specs.Prelude.{nat_le};

/// 1 where a start is up to the address, else 0, without a branch: the processor would guess wrong
/// half of the time.
#[inline(always)]
fn begun(start: u64, pc: u64) -> usize
    ensures { result ≡ (if nat_le start pc then 1 else 0) }
{
    usize::from(start <= pc)
}

/// The place of the greatest start up to an address, of those that ascend from one place up to
/// another; the first is up to it. Three quarters of those that it may be are passed by at a time,
/// by loads of which none waits for another, and at the end one.
pub(crate) fn last_start(starts: &[u64], from: usize, end: usize, pc: u64) -> usize
    requires some { from < end }
    requires within { end ≤ length starts.now }
    requires first { get_or starts.now from 0 ≤ pc }
    requires ascending { (j k : ℕ) → from ≤ j → j < k → k < end
        → get_or starts.now j 0 < get_or starts.now k 0 }
    ensures from { from ≤ result }
    ensures within { result < end }
    ensures reached { get_or starts.now result 0 ≤ pc }
    ensures last { result + 1 < end → pc < get_or starts.now (result + 1) 0 }
{
    let mut base = from;
    let mut size = end - from;
    'quarters: while size > 3 {
        let quarter = size / 4;
        let first = begun(starts[base + quarter], pc);
        let second = begun(starts[base + 2 * quarter], pc);
        let third = begun(starts[base + 3 * quarter], pc);
        base += (first + second + third) * quarter;
        size -= 3 * quarter;
    }
    'last: while size > 1 {
        base += begun(starts[base + 1], pc);
        size -= 1;
    }
    base
}
