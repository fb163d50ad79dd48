//! A section whose bad records cost themselves alone.

ghost use Rattle.std.specs.Prelude.{◌≡◌, ◌<◌, [], length, map, Some, IfOk, IfSome, IfNone};
ghost use Rattle.std.specs.List.{All};
ghost use Rattle.frame_parse.specs.Entries.{fde_among, HasCie};
ghost use Rattle.frame_parse.specs.Keeping.{KeepsFdes};
ghost use Rattle.frame_parse.specs.Sections.{fdes_of, first_cover, HasFdes};
ghost use Rattle.sound_records.specs.declared.answer.FdeAnswer.TheVariants.{Claimed};
ghost use Rattle.sound_records.specs.Laws.{answer_of};
ghost use Rattle.sound_records.specs.Items.{answer_at, items_of, refused_in, sound_in};
ghost use Rattle.sound_records.specs.Sections.{answer_told, claim_among, sound_section};

use crate::agrees_with_read;
use crate::answer::FdeAnswer;
use crate::refused::{RefusedRecord, claim_at, first_claim, place_behind};
use eh_bytes::Cursor;
use frame_parse::{
    CieRecord, Entry, Fde, FdeEntry, Section, is_end, records_are_kept, records_stand,
    section_is_answered, whole_record,
};
use std::alloc::{AllocError, Global};
use std::marker::Model;

/// The records of a section.
#[derive(Drop)]
struct Records {
    cies: Vec<CieRecord>,
    fdes: Vec<FdeEntry>,
    refused: Vec<RefusedRecord>,
}

/// The records of these bytes. What stands after one that isn't whole isn't read.
fn records_of(alloc: Global, section: u64, bytes: &[u8]) -> Result<Records, AllocError>
    ensures fdes { IfOk result (λ r. map (fde_among r.cies.items) r.fdes.items
        ≡ fdes_of (sound_in (items_of section bytes.now))) }
    ensures refused { IfOk result
        (λ r. r.refused.items ≡ refused_in (items_of section bytes.now)) }
    ensures cies { IfOk result (λ r. All (HasCie (length r.cies.items)) r.fdes.items) }
    ensures kept { IfOk result (λ r. KeepsFdes section bytes.now
        (map (fde_among r.cies.items) r.fdes.items)) }
{
    records_stand();
    records_are_kept();
    let mut at = 0;
    let mut cies = Vec::new(alloc);
    // An FDE of a compiler's has some 50 bytes.
    let mut fdes = Vec::with_capacity(alloc, bytes.len() / 48)?;
    let mut refused = Vec::new(alloc);
    while !is_end(&bytes[at..]) {
        let mut cursor = Cursor::new(bytes, at, bytes.len());
        match whole_record(&mut cursor, section, &cies) {
            Ok(Entry::Cie(cie)) => {
                cies.push(cie)?;
                at = cursor.at();
            }
            Ok(Entry::Fde(fde)) => {
                fdes.push(fde)?;
                at = cursor.at();
            }
            Err(fault) => {
                let claim = claim_at(section, bytes, at, &cies);
                refused.push(RefusedRecord {
                    start: at,
                    fault,
                    claim,
                })?;
                at = place_behind(bytes, at);
            }
        }
    }
    Ok(Records {
        cies,
        fdes,
        refused,
    })
}

/// The refused record that answers.
fn claim_among(section: &Section, refused: &[RefusedRecord], pc: u64) -> Option<RefusedRecord>
    ensures { result ≡ claim_among pc section.now.fdes refused.now }
{
    match first_claim(refused, pc) {
        None => None,
        Some(record) => match section.fde_at(pc) {
            None => Some(record),
            Some(fde) => {
                if fde.place() < record.start {
                    None
                } else {
                    Some(record)
                }
            }
        },
    }
}

/// A section of its sound records, and the records that were refused.
#[derive(Drop)]
pub struct SoundSection {
    section: Section,
    refused: Vec<RefusedRecord>,
}

impl Model for SoundSection {
    ghost use Rattle.std.specs.Prelude.{◌≡◌};
    ghost use Rattle.frame_parse.specs.Sections.{fdes_of};
    ghost use Rattle.sound_records.specs.Items.{items_of, refused_in, sound_in};
    ghost use Rattle.sound_records.specs.Sections.{SoundData};

    ghost Value = { SoundData };

    ghost view = { λ s. record { section = s.section; refused = s.refused.items } };

    ghost invariant = { λ s.
        (s.section.fdes ≡ fdes_of (sound_in (items_of s.section.address s.section.bytes)))
        × (s.refused.items ≡ refused_in (items_of s.section.address s.section.bytes)) };
}

impl SoundSection {
    /// The section whose bytes stand at an address.
    pub fn read(alloc: Global, address: u64, bytes: &[u8]) -> Result<SoundSection, AllocError>
        ensures { IfOk result (λ s. s ≡ sound_section address bytes.now) }
    {
        let records = records_of(alloc, address, bytes)?;
        let Records {
            cies,
            fdes,
            refused,
        } = records;
        let section = Section::of_records(alloc, address, bytes, cies, fdes)?;
        Ok(SoundSection { section, refused })
    }

    /// A section in which nothing was refused, as `Section::read` gives it.
    pub fn of_section(alloc: Global, section: Section) -> SoundSection
        requires { HasFdes section.address section.bytes section.fdes }
        ensures { result ≡ record { section = section; refused = [] } }
    {
        agrees_with_read();
        section_is_answered();
        let refused = Vec::new(alloc);
        SoundSection { section, refused }
    }

    /// The section of the sound records.
    pub fn section(&self) -> &Section
        ensures { result.now ≡ self.now.section }
    {
        &self.section
    }

    /// The refused records, in order of bytes.
    pub fn refused(&self) -> &[RefusedRecord]
        ensures { result.now ≡ self.now.refused }
    {
        &self.refused
    }

    /// The FDE that covers an address, or the refused record that claims it, by what stands first
    /// in the bytes.
    pub fn fde_at(&self, pc: u64) -> FdeAnswer<Fde<'_>>
        ensures { answer_told (λ f. f.entry) result
            ≡ answer_at pc (items_of self.now.section.address self.now.section.bytes) }
    {
        records_stand();
        let claim = first_claim(&self.refused, pc);
        match self.section.number_at(pc) {
            None => match claim {
                None => FdeAnswer::NoFde,
                Some(record) => FdeAnswer::Claimed(record),
            },
            Some(index) => {
                let fde = self.section.fde(index);
                match claim {
                    None => FdeAnswer::Found(fde),
                    Some(record) => {
                        if fde.place() < record.start {
                            FdeAnswer::Found(fde)
                        } else {
                            FdeAnswer::Claimed(record)
                        }
                    }
                }
            }
        }
    }

    /// The refused record that claims an address before any FDE that covers it. Where there is none
    /// the section of the sound records answers, and so do its rows and steps. Where no record is
    /// refused, that is one test.
    #[inline(always)]
    pub fn claim_at(&self, pc: u64) -> Option<RefusedRecord>
        ensures claim { result ≡ claim_among pc self.now.section.fdes self.now.refused }
        ensures claimed { IfSome result (λ x. answer_at pc
            (items_of self.now.section.address self.now.section.bytes) ≡ Claimed x) }
        ensures none { IfNone result (answer_at pc
            (items_of self.now.section.address self.now.section.bytes)
            ≡ answer_of (first_cover pc self.now.section.fdes)) }
    {
        records_stand();
        claim_among(&self.section, &self.refused, pc)
    }
}
