//! What the instructions of a program refer to.

ghost use Rattle.std.specs.Prelude.{◌≡◌};
ghost use Rattle.frame_parse.specs.Programs.{context_of, moves};

use crate::records::CieRecord;

/// Which of the two programs of an FDE.
#[derive(Clone, Copy, Debug, PartialEq, Eq)]
pub enum ProgramKind {
    /// The initial instructions of its CIE.
    Initial,
    /// Its own.
    Own,
}

/// What stays the same along a program: the section's address, what its instructions need of the
/// CIE, and which of the two programs it is.
#[derive(Clone, Copy, Debug, PartialEq, Eq)]
pub struct Context {
    pub section: u64,
    pub code_alignment: u64,
    pub data_alignment: i64,
    /// The encoding of addresses.
    pub pointers: u8,
    pub kind: ProgramKind,
}

impl ProgramKind {
    /// Whether its instructions may move the location.
    #[inline(always)]
    pub(crate) fn moves(self) -> bool
        ensures { result ≡ moves self }
    {
        match self {
            ProgramKind::Initial => false,
            ProgramKind::Own => true,
        }
    }
}

impl Context {
    pub(crate) fn new(section: u64, cie: &CieRecord, kind: ProgramKind) -> Context
        ensures { result ≡ context_of section cie.now kind }
    {
        Context {
            section,
            code_alignment: cie.code_alignment,
            data_alignment: cie.data_alignment,
            pointers: cie.augmentation.pointers,
            kind,
        }
    }
}
