//! What a registry is made with.

ghost use Rattle.std.specs.Prelude.{◌≡◌, Err, IfErr, IfOk, OnOk, map};
ghost use Rattle.registry_client.specs.Limits.{IsUnfixed, made_told};
ghost use Rattle.registry_client.specs.Members.{AreGivenMembers, given_member};

use crate::member::RegistryMember;
use c_handle::SizeFault;
use reg_model::Member;
use std::alloc::Global;

/// How many nodes its tree has, how many members may be loaded at a time, how many payloads there
/// are, and the program's own name for the registry.
#[repr(C)]
#[derive(Clone, Copy, Debug, PartialEq, Eq)]
pub struct RegistryLimits {
    pub nodes: u32,
    pub loads: u32,
    pub payloads: u32,
    pub name: u64,
}

/// Why a registry isn't made.
#[derive(Clone, Copy, Debug, PartialEq, Eq)]
pub enum LimitFault {
    NoMemory,
    Size(SizeFault),
    Fixed,
}

impl LimitFault {
    /// As C is told it.
    pub fn told(self) -> u64
        ensures { result ≡ made_told (Err self) }
    {
        match self {
            LimitFault::NoMemory => 1,
            LimitFault::Size(fault) => fault.told(),
            LimitFault::Fixed => 4,
        }
    }
}

/// The fixed members that C tells.
pub fn fixed_members(
    alloc: Global,
    payloads: u32,
    told: &[RegistryMember],
) -> Result<Vec<Member>, LimitFault>
    ensures members { IfOk result (λ v. v.items ≡ map given_member told.now) }
    ensures told { OnOk result (AreGivenMembers payloads 0 told.now) }
    ensures fault { IfErr result (IsUnfixed payloads told.now) }
{
    let mut members = Vec::new(alloc);
    let mut low = 0;
    let mut left = told;
    while let [member, rest @ ..] = left {
        let Ok(read) = member.member(payloads) else {
            return Err(LimitFault::Fixed);
        };
        if member.first < low {
            return Err(LimitFault::Fixed);
        }
        let Ok(()) = members.push(read) else {
            return Err(LimitFault::NoMemory);
        };
        low = member.first + member.size;
        left = rest;
    }
    Ok(members)
}
