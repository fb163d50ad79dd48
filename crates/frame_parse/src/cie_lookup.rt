//! The CIE of an FDE, among the earlier ones.

ghost use Rattle.std.specs.Prelude.{◌≡◌, ◌<◌, length, slice_index_or, IfSome};
ghost use Rattle.std.specs.Option.{option_map};
ghost use Rattle.frame_parse.specs.Entries.{no_cie};
ghost use Rattle.frame_parse.specs.Records.{cie_from, cie_after};
ghost use Rattle.frame_parse.specs.Sections.{starts, IsAscending};

use crate::records::CieRecord;

/// The number of the CIE that begins at a place. The CIEs are in order of bytes, so the search
/// halves them.
fn cie_from(cies: &[CieRecord], place: usize) -> Option<usize>
    requires { IsAscending (starts cies.now) }
    ensures value { option_map
        (λ i. slice_index_or cies.now i no_cie) result ≡ cie_from cies.now place }
    ensures within { IfSome result (λ i. i < length cies.now) }
{
    let mut low = 0;
    let mut high = cies.len();
    while low < high {
        let middle = low + (high - low) / 2;
        if cies[middle].start < place {
            low = middle + 1;
        } else {
            high = middle;
        }
    }
    if low < cies.len() && cies[low].start == place {
        Some(low)
    } else {
        None
    }
}

/// The number of the CIE to which a distance leads back from a place, of CIEs in order of bytes.
pub fn cie_after(cies: &[CieRecord], at: usize, distance: usize) -> Option<usize>
    requires { IsAscending (starts cies.now) }
    ensures value { option_map (λ i. slice_index_or cies.now i no_cie) result
        ≡ cie_after cies.now at distance }
    ensures within { IfSome result (λ i. i < length cies.now) }
{
    if at < distance {
        None
    } else {
        cie_from(cies, at - distance)
    }
}
