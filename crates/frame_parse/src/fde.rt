//! An FDE as a part of its section.

ghost use Rattle.std.specs.Prelude.{◌≡◌, List};
ghost use Rattle.frame_parse.specs.Blocks.{HaveExpressions};
ghost use Rattle.frame_parse.specs.Entries.{with_cie};
ghost use Rattle.frame_parse.specs.Instructions.{PlacedStep, StepData};
ghost use Rattle.frame_parse.specs.Programs.{HasPrograms, HasPlacedSteps};
ghost use Rattle.frame_parse.specs.Steps.{HasSteps, initial_in, program_in};
ghost use Rattle.frame_parse.specs.Steps.{left_of_initial, left_of_program};

use crate::instructions::{Context, ProgramKind, first_state};
use crate::placed_program::PlacedProgram;
use crate::program::Program;
use crate::program_state::{ProgramState, Remembered};
use crate::records::{CieRecord, FdeEntry};
use eh_bytes::Cursor;
use std::marker::Model;

/// An FDE of a section, lent from it.
#[derive(Drop)]
pub struct Fde<'a> {
    section: u64,
    bytes: &'a [u8],
    cie: &'a CieRecord,
    entry: &'a FdeEntry,
}

impl<'a> Model for Fde<'a> {
    ghost use Rattle.frame_parse.specs.Entries.{with_cie};
    ghost use Rattle.frame_parse.specs.Programs.{HasPrograms};
    ghost use Rattle.frame_parse.specs.Sections.{FdeData};

    ghost Value = { FdeData };

    ghost view = { λ f. record {
      section = f.section;
      bytes = f.bytes.now;
      entry = with_cie f.cie.now f.entry.now;
    } };

    ghost invariant = { λ f. HasPrograms f.section f.bytes.now (with_cie f.cie.now f.entry.now) };
}

impl<'a> Fde<'a> {
    /// The FDE of these records, whose programs stand in the bytes of the section at an address.
    pub fn new(section: u64, bytes: &'a [u8], cie: &'a CieRecord, entry: &'a FdeEntry) -> Fde<'a>
        requires { HasPrograms section bytes.now (with_cie cie.now entry.now) }
        ensures section { result.section ≡ section }
        ensures bytes { result.bytes ≡ bytes.now }
        ensures entry { result.entry ≡ with_cie cie.now entry.now }
    {
        Fde {
            section,
            bytes,
            cie,
            entry,
        }
    }

    /// The place of its first byte, that of its length, among the section's bytes.
    pub fn place(&self) -> usize
        ensures { result ≡ self.now.entry.start }
    {
        self.entry.start
    }

    /// The first address that it covers.
    pub fn first(&self) -> u64
        ensures { result ≡ self.now.entry.first }
    {
        self.entry.first
    }

    /// How many addresses it covers.
    pub fn range(&self) -> u64
        ensures { result ≡ self.now.entry.range }
    {
        self.entry.range
    }

    /// Its CIE.
    #[inline(always)]
    pub fn cie(&self) -> &'a CieRecord
        ensures { result.now ≡ self.now.entry.cie }
    {
        self.cie
    }

    /// Whether the frame is one that a signal interrupted.
    pub fn signal(&self) -> bool
        ensures { result ≡ self.now.entry.cie.augmentation.signal }
    {
        self.cie.augmentation.signal
    }

    /// The address of its language-specific data, or of a pointer to it where the encoding says so.
    pub fn lsda(&self) -> Option<u64>
        ensures { result ≡ self.now.entry.lsda }
    {
        self.entry.lsda
    }

    /// The address of its personality routine, or of a pointer to it where the encoding says so.
    pub fn personality(&self) -> Option<u64>
        ensures { result ≡ self.now.entry.cie.augmentation.personality }
    {
        self.cie.augmentation.personality
    }

    /// The bytes of its section.
    pub fn bytes(&self) -> &'a [u8]
        ensures { result.now ≡ self.now.bytes }
    {
        self.bytes
    }

    /// The initial instructions of its CIE, at its first address.
    pub fn initial(&self) -> Program<'a>
        ensures program { result ≡ initial_in self.now }
        ensures known { (steps : List StepData) × HasSteps result steps }
    {
        self.expressions_stand();
        Program::new(self.bytes, self.placed_initial())
    }

    /// Its instructions.
    pub fn program(&self) -> Program<'a>
        ensures program { result ≡ program_in self.now }
        ensures known { (steps : List StepData) × HasSteps result steps }
    {
        self.expressions_stand();
        Program::new(self.bytes, self.placed_program())
    }

    /// The initial instructions of its CIE, with the places of their expressions.
    pub fn placed_initial(&self) -> PlacedProgram<'a>
        ensures program { result ≡ left_of_initial self.now }
        ensures known { (steps : List PlacedStep) × HasPlacedSteps result steps }
    {
        let entry = self.entry;
        let cie = self.cie;
        let cursor = Cursor::new(self.bytes, cie.initial.at, cie.initial.end);
        let state = ProgramState {
            location: entry.first,
            offset: false,
            remembered: Remembered::new(),
        };
        let context = Context::new(self.section, cie, ProgramKind::Initial);
        PlacedProgram::new(context, state, cursor)
    }

    /// Its instructions, with the places of their expressions.
    pub fn placed_program(&self) -> PlacedProgram<'a>
        ensures program { result ≡ left_of_program self.now }
        ensures known { (steps : List PlacedStep) × HasPlacedSteps result steps }
    {
        let entry = self.entry;
        let cursor = Cursor::new(self.bytes, entry.program.at, entry.program.end);
        let state = first_state(self.cie, entry.first);
        let context = Context::new(self.section, self.cie, ProgramKind::Own);
        PlacedProgram::new(context, state, cursor)
    }

    /// The expressions of its instructions stand in the section's bytes, where their blocks say.
    pub fn expressions_stand(&self)
        ensures initial { (steps : List PlacedStep)
            → HasPlacedSteps (left_of_initial self.now) steps
            → HaveExpressions self.now.bytes steps }
        ensures program { (steps : List PlacedStep)
            → HasPlacedSteps (left_of_program self.now) steps
            → HaveExpressions self.now.bytes steps }
    {
        let _ = &self.bytes;
    }
}
