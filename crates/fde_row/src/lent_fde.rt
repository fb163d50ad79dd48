//! An FDE that was read by itself, and its rows.

ghost use Rattle.std.specs.Prelude.{◌≡◌, Ok, Err, IfOk, IfErr};
ghost use Rattle.frame_parse.specs.Sections.{covers};
ghost use Rattle.fde_row.specs.Pointers.{lsda_of, personality_of};
ghost use Rattle.fde_row.specs.Reading.{lone_fde};
ghost use Rattle.fde_row.specs.RowsOfFde.{IsRowOfFde};

use crate::pointed::{Pointed, pointed_by};
use crate::reading::{cie_at, fde_by};
use frame_parse::{CieRecord, Fde, FdeEntry, FrameFault};
use frame_rows::{Row, row_at};
use std::marker::Model;

/// What an FDE and its CIE say. Their bytes stay where they are.
#[derive(Drop)]
pub struct LentFde<'a> {
    section: u64,
    bytes: &'a [u8],
    cie: CieRecord,
    entry: FdeEntry,
}

impl<'a> Model for LentFde<'a> {
    ghost use Rattle.frame_parse.specs.Entries.{with_cie};
    ghost use Rattle.frame_parse.specs.Keeping.{EndsLow};
    ghost use Rattle.frame_parse.specs.Programs.{HasPrograms};
    ghost use Rattle.frame_parse.specs.Sections.{FdeData};

    ghost Value = { FdeData };

    ghost view = { λ f. record {
      section = f.section;
      bytes = f.bytes.now;
      entry = with_cie f.cie f.entry;
    } };

    ghost invariant = { λ f. HasPrograms f.section f.bytes.now (with_cie f.cie f.entry)
        × EndsLow (with_cie f.cie f.entry) };
}

impl<'a> LentFde<'a> {
    /// Reads the CIE and the FDE that begin at two places of a section's bytes, which are lent up
    /// to the end of the FDE at least. No other record is looked at.
    #[tactic(auto, unfolding(crate::specs::Reading::lone_fde))]
    pub fn read(
        section: u64,
        bytes: &'a [u8],
        cie: usize,
        fde: usize,
    ) -> Result<LentFde<'a>, FrameFault>
        ensures found { IfOk result (λ f. lone_fde section bytes.now cie fde ≡ Ok f.entry) }
        ensures section { IfOk result (λ f. f.section ≡ section) }
        ensures bytes { IfOk result (λ f. f.bytes ≡ bytes.now) }
        // The first refusal: the CIE's, or else the FDE's.
        ensures refused { IfErr result (λ fault. lone_fde section bytes.now cie fde ≡ Err fault) }
    {
        match cie_at(section, bytes, cie) {
            Err(fault) => Err(fault),
            Ok(cie) => match fde_by(section, bytes, &cie, fde) {
                Err(fault) => Err(fault),
                Ok(entry) => Ok(LentFde {
                    section,
                    bytes,
                    cie,
                    entry,
                }),
            },
        }
    }

    /// The FDE, as a section would lend it.
    pub fn fde(&self) -> Fde<'_>
        ensures { result ≡ self.now }
    {
        Fde::new(self.section, self.bytes, &self.cie, &self.entry)
    }

    /// The first address that it covers.
    pub fn first(&self) -> u64
        ensures { result ≡ self.now.entry.first }
    {
        self.entry.first
    }

    /// How many addresses it covers.
    pub fn range(&self) -> u64
        ensures { result ≡ self.now.entry.range }
    {
        self.entry.range
    }

    /// Whether the frame is one that a signal interrupted.
    pub fn signal(&self) -> bool
        ensures { result ≡ self.now.entry.cie.augmentation.signal }
    {
        self.cie.augmentation.signal
    }

    /// Its language-specific data.
    pub fn lsda(&self) -> Option<Pointed>
        ensures { result ≡ lsda_of self.now.entry }
    {
        pointed_by(self.cie.augmentation.lsda, self.entry.lsda)
    }

    /// Its personality routine.
    pub fn personality(&self) -> Option<Pointed>
        ensures { result ≡ personality_of self.now.entry }
    {
        let says = &self.cie.augmentation;
        pointed_by(says.personality_encoding, says.personality)
    }

    /// Whether it covers an address.
    pub fn covers(&self, pc: u64) -> bool
        ensures { result ≡ covers pc self.now.entry }
    {
        self.entry.first <= pc && pc < self.entry.first + self.entry.range
    }

    /// The row at an address, where it covers that.
    pub fn row(&self, pc: u64) -> Option<Row<'_>>
        ensures { IsRowOfFde self.now pc result }
    {
        if self.covers(pc) {
            Some(row_at(&self.fde(), pc))
        } else {
            None
        }
    }
}
