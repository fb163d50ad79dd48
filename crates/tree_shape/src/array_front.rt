//! Rows of items at the front of an array.

ghost use Rattle.std.specs.Prelude.{◌≡◌, ◌+◌, ◌-◌, ◌<◌, ◌≤◌, ◌++◌, Some, length, take, drop};
ghost use Rattle.std.specs.Prelude.{slice_get};

// Writes a list over a row, from a place on.
fn put<T: Copy>(row: &mut [T], place: usize, items: &[T])
    requires { place + length items.now ≤ length row.old }
    ensures { take (place + length items.now) row.new ≡ take place row.old ++ items.now }
{
    row[place..place + items.len()].copy_from_slice(items);
}

/// Writes three lists to the front of a row, one after another.
pub fn fill<T: Copy>(row: &mut [T], first: &[T], middle: &[T], last: &[T])
    requires { length first.now + length middle.now + length last.now ≤ length row.old }
    ensures { take (length first.now + length middle.now + length last.now) row.new
        ≡ first.now ++ middle.now ++ last.now }
{
    let from = first.len();
    put(row, 0, first);
    put(row, from, middle);
    put(row, from + middle.len(), last);
}

/// Two lists one after another, cut after `n` items: the two parts of what comes before the cut,
/// and of what comes after.
pub fn cut<'a, T: Copy>(
    first: &'a [T],
    last: &'a [T],
    n: usize,
) -> ((&'a [T], &'a [T]), (&'a [T], &'a [T]))
    requires { n ≤ length first.now + length last.now }
    ensures before { result.0.0.now ++ result.0.1.now ≡ take n (first.now ++ last.now) }
    ensures before_len { length result.0.0.now + length result.0.1.now ≡ n }
    ensures after_len { length result.1.0.now + length result.1.1.now + n
        ≡ length first.now + length last.now }
    ensures after { result.1.0.now ++ result.1.1.now ≡ drop n (first.now ++ last.now) }
{
    if n <= first.len() {
        ((&first[..n], &last[..0]), (&first[n..], last))
    } else {
        let more = n - first.len();
        ((first, &last[..more]), (&last[..0], &last[more..]))
    }
}

/// An item of two lists one after another.
pub fn item<T: Copy>(first: &[T], last: &[T], place: usize) -> T
    requires { place < length first.now + length last.now }
    ensures { slice_get (first.now ++ last.now) place ≡ Some result }
{
    if place < first.len() {
        first[place]
    } else {
        last[place - first.len()]
    }
}
