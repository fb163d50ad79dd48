//! Ranges of addresses that C keeps itself: they are put in order, and searched.

ghost use Rattle.std.specs.Prelude.{◌≡◌, ◌<◌, ◌≤◌, ℕ, length, true, false};
ghost use Rattle.std.specs.List.Sorted.{IsNonDecreasingBy, IsPermutation};
ghost use Rattle.unwind_c.specs.Ranges.{AreSearchable, IsInRange, IsInRangeAt, IsOutsideAt};

/// The `size` addresses from `first` on, what stands there as the program knows it, and the address
/// after all that this range has and those before it.
#[repr(C)]
#[derive(Clone, Copy)]
pub struct UnwindRange {
    pub at: u64,
    pub first: u64,
    pub size: u64,
    pub reach: u64,
}

impl UnwindRange {
    fn has(&self, pc: u64) -> bool
        ensures yes { result ≡ true → IsInRange pc self.now }
        ensures no { result ≡ false → ¬ IsInRange pc self.now }
    {
        self.first <= pc && pc - self.first < self.size
    }
}

/// Puts ranges in order of their first addresses.
#[unsafe(no_mangle)]
pub extern "C" fn unwind_c_order(ranges: &mut [UnwindRange])
    ensures same { IsPermutation ranges.old ranges.new }
    ensures ordered { IsNonDecreasingBy (λ r. r.first) ranges.new }
{
    ranges.sort_unstable_by_key(|range| range.first);
}

/// Whether a range begins after an address. Then so do those behind it.
fn begins_after(ranges: &[UnwindRange], place: usize, pc: u64) -> bool
    requires { place < length ranges.now }
    ensures { result ≡ true → AreSearchable ranges.now → (i : ℕ) → place ≤ i
        → IsOutsideAt ranges.now pc i }
{
    ranges[place].first > pc
}

/// Whether no range up to one reaches an address.
fn is_passed(ranges: &[UnwindRange], place: usize, pc: u64) -> bool
    requires { place < length ranges.now }
    ensures { result ≡ true → AreSearchable ranges.now → (i : ℕ) → i ≤ place
        → IsOutsideAt ranges.now pc i }
{
    ranges[place].reach <= pc
}

/// How many ranges begin up to an address, if they are in order.
fn begun(ranges: &[UnwindRange], pc: u64) -> usize
    ensures within { result ≤ length ranges.now }
    ensures behind { AreSearchable ranges.now → (i : ℕ) → result ≤ i → IsOutsideAt ranges.now pc i }
{
    let mut low = 0;
    let mut high = ranges.len();
    while low < high {
        let middle = low + (high - low) / 2;
        if begins_after(ranges, middle, pc) {
            high = middle;
        } else {
            low = middle + 1;
        }
    }
    high
}

/// The place of a range that has an address, of ranges in order; else how many there are.
#[unsafe(no_mangle)]
pub extern "C" fn unwind_c_cover(ranges: &[UnwindRange], pc: u64) -> usize
    ensures found { result < length ranges.now → IsInRangeAt ranges.now pc result }
    ensures none { result ≡ length ranges.now → AreSearchable ranges.now → (i : ℕ)
        → IsOutsideAt ranges.now pc i }
    ensures within { result ≤ length ranges.now }
{
    let mut left = begun(ranges, pc);
    while left > 0 {
        left -= 1;
        if is_passed(ranges, left, pc) {
            break;
        }
        if ranges[left].has(pc) {
            return left;
        }
    }
    ranges.len()
}
