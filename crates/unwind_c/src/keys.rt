//! The keys under which sections stand.

ghost use Rattle.std.specs.Prelude.{◌≡◌, ◌≢◌, ◌++◌, [], ℕ, Contains, IsSomeAnd, drop, length, take};
ghost use Rattle.std.specs.Map.{keys_of};
ghost use Rattle.fde_writer.specs.Standing.{standing_under};
ghost use Rattle.c_handle.specs.Handles.{LeadsNowhere, LeadsSomewhere};

use crate::handles::FdeWriterHandle;
use std::alloc::Global;

/// How many keys the library lists: each under which sections stand. They are written, as far as
/// there is room for them, in no order.
#[unsafe(no_mangle)]
pub extern "C" fn unwind_c_keys(
    alloc: Global,
    writer: FdeWriterHandle,
    keys: &mut [u64],
    back: &mut FdeWriterHandle,
) -> usize
    requires writer { LeadsSomewhere writer.held }
    requires back { LeadsNowhere back.old.held }
    ensures count { IsSomeAnd writer.held (λ u. result ≡ length u.stands) }
    ensures written { IsSomeAnd writer.held (λ u. keys.new
        ≡ take (length keys.old) (keys_of u.stands) ++ drop (length u.stands) keys.old) }
    ensures listed { IsSomeAnd writer.held (λ u. (key : ℕ) → standing_under key u.stands ≢ []
        → Contains (keys_of u.stands) key) }
    ensures back { back.new.held ≡ writer.held }
{
    let open = writer.open(alloc);
    let count = open.keys(keys);
    *back = FdeWriterHandle::of(open);
    count
}
