//! Members, as C tells them and is told them.

ghost use Rattle.std.specs.Prelude.{◌≡◌, ◌+◌, ◌-◌, ◌<◌, IfErr, IfOk};
ghost use Rattle.registry_client.specs.Members.{IsGivenMember, IsMemberFault, given_member};
ghost use Rattle.registry_client.specs.Members.{member_told, no_member};

use reg_model::{Member, Span};

/// So many addresses from the first one on, with a payload.
#[repr(C)]
#[derive(Clone, Copy, Debug, PartialEq, Eq)]
pub struct RegistryMember {
    pub first: u64,
    pub size: u64,
    pub payload: u32,
}

/// Why what C tells is no member: it has no addresses, or not below 2^64 - 1; or no such payload.
#[derive(Clone, Copy, Debug, PartialEq, Eq)]
pub enum MemberFault {
    Addresses,
    Payload,
}

impl RegistryMember {
    /// No addresses, where C is told of no member.
    pub fn none() -> RegistryMember
        ensures { result ≡ no_member }
    {
        RegistryMember {
            first: 0,
            size: 0,
            payload: 0,
        }
    }

    pub fn of(member: &Member) -> RegistryMember
        ensures { result ≡ member_told member.now }
    {
        let (first, last) = (member.span.first(), member.span.last());
        RegistryMember {
            first,
            size: last - first + 1,
            payload: member.payload,
        }
    }

    /// The member that C tells, where it has addresses below 2^64 - 1 and one of so many payloads.
    pub fn member(&self, payloads: u32) -> Result<Member, MemberFault>
        ensures member { IfOk result
            (λ m. (m ≡ given_member self.now) × IsGivenMember payloads self.now) }
        ensures fault { IfErr result (IsMemberFault payloads self.now) }
    {
        let Some(span) = Span::new(self.first, self.size) else {
            return Err(MemberFault::Addresses);
        };
        if self.payload >= payloads {
            return Err(MemberFault::Payload);
        }
        Ok(Member {
            span,
            payload: self.payload,
        })
    }
}
