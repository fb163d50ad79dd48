//! What came of a try of an update, and what C is told of it.

ghost use Rattle.std.specs.Prelude.{◌≡◌};
ghost use Rattle.registry_client.specs.Answers.{answer_or_told, done_told, fault_kind};
ghost use Rattle.registry_client.specs.Answers.{insertion_told, loading_told, overlap_told};
ghost use Rattle.registry_client.specs.Answers.{removal_told, removed_told};
ghost use Rattle.registry_client.specs.Answers.{replacement_told, stamp_told};

use crate::kinds::{ABSENT, BUSY, DONE, FULL, NO_MEMBER, NO_PAYLOAD, OVERLAP, SPENT};
use crate::member::{MemberFault, RegistryMember};
use node_store::Busy;
use reg_model::{Inserted, Loading, Member, Removed, Replaced};

/// What came of a try of an update: an answer; why it was given up, and then the call is still
/// begun; or that what C told is no member.
#[derive(Clone, Copy, Debug, PartialEq, Eq)]
pub enum Attempt<A> {
    Answered { answer: A },
    Busy { why: Busy },
    NoMember { why: MemberFault },
}

/// What C is told: a kind, the number of an accepted update or the stamp of any other answer, and
/// the member that overlaps, goes, or was there before.
#[repr(C)]
#[derive(Clone, Copy, Debug, PartialEq, Eq)]
pub struct RegistryAnswer {
    pub kind: u32,
    pub number: u32,
    pub stamp: u32,
    pub member: RegistryMember,
}

fn kind_of(why: MemberFault) -> u32
    ensures { result ≡ fault_kind why }
{
    match why {
        MemberFault::Addresses => NO_MEMBER,
        MemberFault::Payload => NO_PAYLOAD,
    }
}

impl RegistryAnswer {
    fn done(number: u32) -> RegistryAnswer
        ensures { result ≡ done_told number }
    {
        RegistryAnswer {
            kind: DONE,
            number,
            stamp: 0,
            member: RegistryMember::none(),
        }
    }

    fn removed(number: u32, member: &Member) -> RegistryAnswer
        ensures { result ≡ removed_told number member.now }
    {
        RegistryAnswer {
            kind: DONE,
            number,
            stamp: 0,
            member: RegistryMember::of(member),
        }
    }

    fn overlap(member: &Member, stamp: u32) -> RegistryAnswer
        ensures { result ≡ overlap_told member.now stamp }
    {
        RegistryAnswer {
            kind: OVERLAP,
            number: 0,
            stamp,
            member: RegistryMember::of(member),
        }
    }

    /// Any other answer of a kind, at a stamp, or at none.
    fn at(kind: u32, stamp: u32) -> RegistryAnswer
        ensures { result ≡ stamp_told kind stamp }
    {
        RegistryAnswer {
            kind,
            number: 0,
            stamp,
            member: RegistryMember::none(),
        }
    }

    pub fn of_insertion(answer: Result<Inserted, RegistryAnswer>) -> RegistryAnswer
        ensures { result ≡ insertion_told answer }
    {
        match answer {
            Ok(Inserted::Done { number }) => RegistryAnswer::done(number),
            Ok(Inserted::Overlap { member, stamp }) => RegistryAnswer::overlap(&member, stamp),
            Ok(Inserted::Full { stamp }) => RegistryAnswer::at(FULL, stamp),
            Ok(Inserted::Spent) => RegistryAnswer::at(SPENT, 0),
            Err(told) => told,
        }
    }

    /// As of an insertion.
    pub fn of_load(answer: Result<Loading, RegistryAnswer>) -> RegistryAnswer
        ensures { result ≡ loading_told answer }
    {
        RegistryAnswer::of_insertion(match answer {
            Ok(Loading::Done { number }) => Ok(Inserted::Done { number }),
            Ok(Loading::Overlap { member, stamp }) => Ok(Inserted::Overlap { member, stamp }),
            Ok(Loading::LoadFull { stamp }) => Ok(Inserted::Full { stamp }),
            Ok(Loading::Spent) => Ok(Inserted::Spent),
            Err(told) => Err(told),
        })
    }

    /// Of a replacement of this member, as C told it.
    pub fn of_replacement(
        told: &RegistryMember,
        answer: Result<Replaced, RegistryAnswer>,
    ) -> RegistryAnswer
        ensures { result ≡ replacement_told told.now answer }
    {
        match answer {
            Ok(Replaced::Done { number, payload }) => RegistryAnswer {
                kind: DONE,
                number,
                stamp: 0,
                member: RegistryMember { payload, ..*told },
            },
            Ok(Replaced::NotFound { stamp }) => RegistryAnswer::at(ABSENT, stamp),
            Ok(Replaced::Spent) => RegistryAnswer::at(SPENT, 0),
            Err(told) => told,
        }
    }

    pub fn of_removal(answer: Result<Removed, RegistryAnswer>) -> RegistryAnswer
        ensures { result ≡ removal_told answer }
    {
        match answer {
            Ok(Removed::Done { number, member }) => RegistryAnswer::removed(number, &member),
            Ok(Removed::NotFound { stamp }) => RegistryAnswer::at(ABSENT, stamp),
            Ok(Removed::Spent) => RegistryAnswer::at(SPENT, 0),
            Err(told) => told,
        }
    }
}

impl<A> Attempt<A> {
    /// The answer, or what C is told where there is none.
    pub fn answer(self) -> Result<A, RegistryAnswer>
        ensures { result ≡ answer_or_told self }
    {
        match self {
            Attempt::Answered { answer } => Ok(answer),
            Attempt::Busy { .. } => Err(RegistryAnswer::at(BUSY, 0)),
            Attempt::NoMember { why } => Err(RegistryAnswer::at(kind_of(why), 0)),
        }
    }
}
