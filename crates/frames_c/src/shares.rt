//! Sections, row tables and modules are shared and freed.

ghost use Rattle.std.specs.Prelude.{◌≡◌, true, false, Ok, IfSome};
ghost use Rattle.c_handle.specs.Handles.{LeadsNowhere, LeadsSomewhere};

use crate::handles::{ModulesHandle, RowTableHandle, SectionHandle};
use std::alloc::{AllocError, Global};

/// What was made, in a box of its own; none where memory runs out.
fn boxed<T: Drop>(alloc: Global, made: Result<T, AllocError>) -> Option<Box<T, Global>>
    ensures { IfSome result (λ boxed. made ≡ Ok boxed.value) }
{
    match made {
        Ok(value) => Box::new(alloc, value).ok(),
        Err(_) => None,
    }
}

/// Frees a share. The section goes with its last one.
#[unsafe(no_mangle)]
pub extern "C" fn frames_c_free(alloc: Global, section: SectionHandle)
    requires { LeadsSomewhere section.held }
{
    drop(section.open(alloc));
}

/// Another share of the section, for another thread; false where memory runs out.
#[unsafe(no_mangle)]
pub extern "C" fn frames_c_share(
    alloc: Global,
    section: SectionHandle,
    out: &mut SectionHandle,
    back: &mut SectionHandle,
) -> bool
    requires held { LeadsSomewhere section.held }
    requires back { LeadsNowhere back.old.held }
    requires out { LeadsNowhere out.old.held }
    ensures back { back.new.held ≡ section.held }
    ensures shared { result ≡ true → out.new.held ≡ section.held }
    ensures nothing { result ≡ false → LeadsNowhere out.new.held }
{
    let share = section.open(alloc);
    let shared = match boxed(alloc, share.another()) {
        Some(other) => {
            *out = SectionHandle::of(other);
            true
        }
        None => false,
    };
    *back = SectionHandle::of(share);
    shared
}

/// Frees a share. The table goes with its last one.
#[unsafe(no_mangle)]
pub extern "C" fn frames_c_row_table_free(alloc: Global, table: RowTableHandle)
    requires { LeadsSomewhere table.held }
{
    drop(table.open(alloc));
}

/// Another share of the table, for another thread; false where memory runs out.
#[unsafe(no_mangle)]
pub extern "C" fn frames_c_row_table_share(
    alloc: Global,
    table: RowTableHandle,
    out: &mut RowTableHandle,
    back: &mut RowTableHandle,
) -> bool
    requires held { LeadsSomewhere table.held }
    requires back { LeadsNowhere back.old.held }
    requires out { LeadsNowhere out.old.held }
    ensures back { back.new.held ≡ table.held }
    ensures shared { result ≡ true → out.new.held ≡ table.held }
    ensures nothing { result ≡ false → LeadsNowhere out.new.held }
{
    let share = table.open(alloc);
    let shared = match boxed(alloc, share.another()) {
        Some(other) => {
            *out = RowTableHandle::of(other);
            true
        }
        None => false,
    };
    *back = RowTableHandle::of(share);
    shared
}

/// Frees the modules, each with its share.
#[unsafe(no_mangle)]
pub extern "C" fn frames_c_modules_free(alloc: Global, modules: ModulesHandle)
    requires { LeadsSomewhere modules.held }
{
    drop(modules.open(alloc));
}

/// Another list of the same modules, each with another share, for another thread; false where
/// memory runs out. What is added to one of both lists isn't in the other.
#[unsafe(no_mangle)]
pub extern "C" fn frames_c_modules_share(
    alloc: Global,
    modules: ModulesHandle,
    out: &mut ModulesHandle,
    back: &mut ModulesHandle,
) -> bool
    requires modules { LeadsSomewhere modules.held }
    requires back { LeadsNowhere back.old.held }
    requires out { LeadsNowhere out.old.held }
    ensures back { back.new.held ≡ modules.held }
    ensures shared { result ≡ true → out.new.held ≡ modules.held }
    ensures nothing { result ≡ false → LeadsNowhere out.new.held }
{
    let list = modules.open(alloc);
    let shared = match boxed(alloc, list.another(alloc)) {
        Some(other) => {
            *out = ModulesHandle::of(other);
            true
        }
        None => false,
    };
    *back = ModulesHandle::of(list);
    shared
}
