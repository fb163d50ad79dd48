//! The search of the fixed members.
ghost use Rattle.std.specs.Prelude.{◌≡◌};
ghost use Rattle.reg_model.specs.Query.{member_at};
ghost use Rattle.segment_array.specs.Ascending.{AscendFrom};

use reg_model::Member;

/// The member that contains the address. They ascend, so half of those that are left are passed by
/// at a time.
pub fn containing(members: &[Member], pc: u64) -> Option<Member>
    requires { AscendFrom 0 members.now }
    ensures { result ≡ member_at pc members.now }
{
    let mut left = members;
    while left.len() > 1 {
        let (low, high) = left.split_at(left.len() / 2);
        let first = &high[0];
        left = if first.span.first() <= pc { high } else { low };
    }
    match left {
        [member, ..] if member.span.contains(pc) => Some(*member),
        _ => None,
    }
}
