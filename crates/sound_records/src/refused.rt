//! A record that is refused, and the addresses that it claims.

ghost use Rattle.std.specs.Prelude.{◌≡◌, ◌<◌, ◌≤◌, length, OnOk};
ghost use Rattle.eh_bytes.specs.CursorData.{Gives};
ghost use Rattle.frame_parse.specs.Sections.{starts, IsAscending};
ghost use Rattle.sound_records.specs.Items.{addresses, claimed, claims, extent, record_claim};
ghost use Rattle.sound_records.specs.Sections.{first_claim, left_behind, left_from};

use eh_bytes::Cursor;
use frame_parse::{
    CieRecord, FrameFault, RecordFault, cie_after, four_bytes, pointer, range, record_length,
};

/// Addresses from a first one on, as many as a refused FDE says.
#[derive(Clone, Copy, Debug, PartialEq, Eq)]
pub struct Claim {
    pub first: u64,
    pub range: u64,
}

/// A record that is refused.
#[derive(Clone, Copy, Debug, PartialEq, Eq)]
pub struct RefusedRecord {
    /// The place of its first byte, that of its length.
    pub start: usize,
    pub fault: FrameFault,
    /// The addresses of an FDE, where they could be read by an earlier CIE that is sound.
    pub claim: Option<Claim>,
}

/// Skips the length of a record, and as many bytes, whatever is in them.
#[tactic(auto, unfolding(crate::specs::Items::extent))]
fn skip_record(cursor: &mut Cursor, start: usize) -> Result<(), RecordFault>
    ensures read { Gives (λ x. x) (extent start).read cursor.old result cursor.new }
    ensures moves { OnOk result (length cursor.new.bytes < length cursor.old.bytes) }
{
    let length = record_length(cursor, start)?;
    match cursor.part(length as usize) {
        Ok(_) => Ok(()),
        Err(_) => Err(RecordFault::Short { at: start }),
    }
}

/// Where the record behind a refused one begins: at the end where the refused one isn't whole.
pub(crate) fn place_behind(bytes: &[u8], at: usize) -> usize
    requires { at < length bytes.now }
    ensures left { left_from bytes.now result ≡ left_behind bytes.now (left_from bytes.now at) }
    ensures within { result ≤ length bytes.now }
    ensures moves { at < result }
{
    let mut cursor = Cursor::new(bytes, at, bytes.len());
    match skip_record(&mut cursor, at) {
        Ok(()) => cursor.at(),
        Err(_) => bytes.len(),
    }
}

/// What stands after the length of an FDE: the addresses that it says.
#[tactic(auto, unfolding(crate::specs::Items::addresses))]
fn addresses(cursor: &mut Cursor, section: u64, earlier: &[CieRecord]) -> Result<Claim, RecordFault>
    requires { IsAscending (starts earlier.now) }
    ensures { Gives (λ c. c) (addresses section earlier.now).read cursor.old result cursor.new }
{
    let at = cursor.at();
    let id = four_bytes(cursor)?;
    if id == 0 {
        return Err(RecordFault::NoCie { at });
    }
    match cie_after(earlier, at, id as usize) {
        None => Err(RecordFault::NoCie { at }),
        Some(index) => {
            let pointers = earlier[index].augmentation.pointers;
            let first = pointer(cursor, section, pointers)?;
            let range = range(cursor, pointers, first)?;
            Ok(Claim { first, range })
        }
    }
}

/// The addresses that the record at the cursor says.
#[tactic(auto, unfolding(crate::specs::Items::record_claim))]
fn record_claim(
    cursor: &mut Cursor,
    section: u64,
    earlier: &[CieRecord],
) -> Result<Claim, RecordFault>
    requires { IsAscending (starts earlier.now) }
    ensures { Gives (λ c. c) (record_claim section earlier.now).read cursor.old result cursor.new }
{
    let start = cursor.at();
    let length = record_length(cursor, start)?;
    match cursor.part(length as usize) {
        Ok(inside) => {
            let mut inside = inside;
            addresses(&mut inside, section, earlier)
        }
        Err(_) => Err(RecordFault::Short { at: start }),
    }
}

/// What the refused record at a place claims.
#[tactic(auto, unfolding(crate::specs::Items::claimed))]
pub(crate) fn claim_at(
    section: u64,
    bytes: &[u8],
    at: usize,
    earlier: &[CieRecord],
) -> Option<Claim>
    requires ascending { IsAscending (starts earlier.now) }
    requires within { at ≤ length bytes.now }
    ensures { result ≡ claimed section earlier.now (left_from bytes.now at) }
{
    let mut cursor = Cursor::new(bytes, at, bytes.len());
    match record_claim(&mut cursor, section, earlier) {
        Ok(claim) => Some(claim),
        Err(_) => None,
    }
}

/// Whether a refused record claims an address.
fn claims(refused: &RefusedRecord, pc: u64) -> bool
    ensures { result ≡ claims pc refused.now.claim }
{
    match refused.claim {
        None => false,
        Some(claim) => claim.first <= pc && pc - claim.first < claim.range,
    }
}

/// The first of these records that claims an address.
pub(crate) fn first_claim(refused: &[RefusedRecord], pc: u64) -> Option<RefusedRecord>
    ensures { result ≡ first_claim pc refused.now }
{
    let mut left = refused;
    while let [first, rest @ ..] = left {
        if claims(first, pc) {
            return Some(*first);
        }
        left = rest;
    }
    None
}
