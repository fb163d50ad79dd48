//! Which FDE an entry names: that whose record begins at the entry's address.

ghost use Rattle.std.specs.Prelude.{◌≡◌, ◌<◌, ◌≤◌, ℕ, length, get_or, slice_get, Some, IfSome};
ghost use Rattle.std.specs.Option.{option_map};
ghost use Rattle.frame_parse.specs.Sections.{fde_starts};
ghost use Rattle.eh_hdr.specs.Places.{is_fde_at, named_fde};

use frame_parse::Section;

/// The number of the first FDE that doesn't begin before a place. The places ascend, so the search
/// halves them.
fn first_from(section: &Section, place: usize) -> usize
    ensures within { result ≤ length section.now.fdes }
    ensures below { (k : ℕ) → k < result → get_or (fde_starts section.now.fdes) k 0 < place }
    ensures above { (k : ℕ) → result ≤ k → k < length section.now.fdes
        → place ≤ get_or (fde_starts section.now.fdes) k 0 }
{
    section.known();
    let mut low = 0;
    let mut high = section.count();
    while low < high {
        let middle = low + (high - low) / 2;
        if section.fde_place(middle) < place {
            low = middle + 1;
        } else {
            high = middle;
        }
    }
    low
}

/// Whether an FDE begins at a place, and covers addresses from a location on.
fn is_fde_at(section: &Section, index: usize, place: usize, location: u64) -> bool
    requires { index < length section.now.fdes }
    ensures { option_map (is_fde_at place location) (slice_get section.now.fdes index)
        ≡ Some result }
{
    section.fde_place(index) == place && section.fde(index).first() == location
}

/// The number of the FDE whose record begins at an address and whose first address is this
/// location.
pub(crate) fn named_fde(section: &Section, address: u64, location: u64) -> Option<usize>
    ensures value { result ≡ named_fde section.now address location }
    ensures within { IfSome result (λ i. i < length section.now.fdes) }
{
    section.known();
    let place = address.wrapping_sub(section.address()) as usize;
    let index = first_from(section, place);
    if index < section.count() && is_fde_at(section, index, place, location) {
        Some(index)
    } else {
        None
    }
}
