//! The two records, each read where it stands.

ghost use Rattle.std.specs.Prelude.{◌≡◌, Ok, Err, IfOk, IfErr};
ghost use Rattle.frame_parse.specs.Entries.{with_cie};
ghost use Rattle.frame_parse.specs.Keeping.{CieKept, EndsLow};
ghost use Rattle.frame_parse.specs.Programs.{HasPrograms};
ghost use Rattle.fde_row.specs.Reading.{cie_at, fde_by};

use eh_bytes::Cursor;
use frame_parse::{CieRecord, Entry, FdeEntry, FrameFault, whole_record};

/// The CIE at a place of a section's bytes.
pub(crate) fn cie_at(section: u64, bytes: &[u8], at: usize) -> Result<CieRecord, FrameFault>
    ensures read { result ≡ cie_at section bytes.now at }
    ensures kept { IfOk result (CieKept section bytes.now) }
{
    if bytes.len() < at {
        return Err(FrameFault::Short { start: at, at });
    }
    let mut cursor = Cursor::new(bytes, at, bytes.len());
    match whole_record(&mut cursor, section, &[]) {
        Ok(Entry::Cie(cie)) => Ok(cie),
        Ok(Entry::Fde(_)) => Err(FrameFault::NoCie { start: at, at }),
        Err(fault) => Err(fault),
    }
}

/// The FDE at a place of a section's bytes, whose CIE is this one.
pub(crate) fn fde_by(
    section: u64,
    bytes: &[u8],
    cie: &CieRecord,
    at: usize,
) -> Result<FdeEntry, FrameFault>
    requires { CieKept section bytes.now cie.now }
    ensures found { IfOk result
        (λ f. fde_by section bytes.now cie.now at ≡ Ok (with_cie cie.now f)) }
    ensures refused { IfErr result (λ fault. fde_by section bytes.now cie.now at ≡ Err fault) }
    ensures programs { IfOk result (λ f. HasPrograms section bytes.now (with_cie cie.now f)) }
    ensures ends { IfOk result (λ f. EndsLow (with_cie cie.now f)) }
{
    if bytes.len() < at {
        return Err(FrameFault::Short { start: at, at });
    }
    let mut cursor = Cursor::new(bytes, at, bytes.len());
    match whole_record(&mut cursor, section, &[*cie]) {
        Ok(Entry::Fde(fde)) => Ok(fde),
        Ok(Entry::Cie(_)) => Err(FrameFault::NoCie { start: at, at }),
        Err(fault) => Err(fault),
    }
}
