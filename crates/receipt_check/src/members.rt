//! Questions to a list of members.

ghost use Rattle.std.specs.Prelude.{◌≡◌, ◌≤◌, ◌↔◌, ◌==◌, IsTrue, All, Contains, not};
ghost use Rattle.reg_model.specs.SpanData.{Overlaps};
ghost use Rattle.reg_model.specs.State.{at_base, at_span, IsFree};
ghost use Rattle.reg_model.specs.History.{without, with_payload};
ghost use Rattle.reg_model.specs.Query.{member_at};

use reg_model::{Member, Span};

/// The member that contains the address.
pub fn containing(members: &[Member], pc: u64) -> Option<Member>
    ensures { result ≡ member_at pc members.now }
{
    for member in members {
        if member.span.contains(pc) {
            return Some(*member);
        }
    }
    None
}

/// The member with this first address.
pub fn with_base(members: &[Member], base: u64) -> Option<Member>
    ensures { result ≡ at_base base members.now }
{
    for member in members {
        if member.span.first() == base {
            return Some(*member);
        }
    }
    None
}

/// The member with this whole span.
pub fn with_span(members: &[Member], span: &Span) -> Option<Member>
    ensures { result ≡ at_span span.now members.now }
{
    for member in members {
        if member.span == *span {
            return Some(*member);
        }
    }
    None
}

/// Whether no member overlaps the span.
pub fn is_free(members: &[Member], span: &Span) -> bool
    ensures { IsTrue result ↔ IsFree span.now members.now }
{
    for member in members {
        if member.span.overlaps(span) {
            return false;
        }
    }
    true
}

/// Whether none that overlaps the span begins below an address.
pub fn all_begin_from(members: &[Member], span: &Span, first: u64) -> bool
    ensures { IsTrue result
        ↔ All (λ m. Overlaps m.span span.now → first ≤ m.span.first) members.now }
{
    for member in members {
        if member.span.overlaps(span) && member.span.first() < first {
            return false;
        }
    }
    true
}

/// Whether the member stands in the list.
pub fn is_listed(members: &[Member], member: &Member) -> bool
    ensures { IsTrue result ↔ Contains members.now member.now }
{
    for listed in members {
        if listed == member {
            return true;
        }
    }
    false
}

/// Whether a removal names the member that goes, or none where there is none.
pub fn is_same(one: Option<Member>, other: Option<Member>) -> bool
    ensures { IsTrue result ↔ (one ≡ other) }
{
    match (one, other) {
        (None, None) => true,
        (Some(one), Some(other)) => one == other,
        _ => false,
    }
}

/// Removes the members with this first address.
pub fn remove_base(members: &mut Vec<Member>, base: u64)
    ensures { members.new.items ≡ without base members.old.items }
{
    members.retain(
        |member: &Member| -> bool
            ensures { result ≡ not (member.now.span.first == base) }
        { member.span.first() != base },
    );
}

/// Gives the members with this one's span its payload.
pub fn replace_in(members: &mut [Member], member: &Member)
    ensures { members.new ≡ with_payload member.now members.old }
{
    for listed in members.iter_mut() {
        if listed.span == member.span {
            *listed = *member;
        }
    }
}
