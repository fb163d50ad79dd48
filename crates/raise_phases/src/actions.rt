//! Action records and the types that they name.

ghost use Rattle.std.specs.Prelude.{◌≡◌, ◌≤◌, ◌+◌, ◌+ℤ◌, pos, length, drop, IfSome, Option};
ghost use Rattle.eh_bytes.specs.CursorData.{Gives};
ghost use Rattle.raise_phases.specs.declared.fault.LsdaFault.TheVariants as faults;
ghost use Rattle.raise_phases.specs.declared.outcome.Verdict.TheVariants as verdicts;
ghost use Rattle.raise_phases.specs.Actions.{ActionsData, type_width, type_place, type_catches};
ghost use Rattle.raise_phases.specs.Actions.{catches_at, type_of_table, filter_catches};
ghost use Rattle.raise_phases.specs.Actions.{accepted_filter, passing, action_record};
ghost use Rattle.raise_phases.specs.Actions.{place_among, after_filter, leads_on, chain_verdict};
ghost use Rattle.raise_phases.specs.Actions.{read_from};
ghost use Rattle.raise_phases.specs.Verdicts.{most_records};

use crate::call_sites::{TypeTable, lsda_field, sleb};
use crate::fault::LsdaFault;
use crate::outcome::Verdict;
use eh_bytes::{
    Cursor, DW_EH_PE_pcrel, DW_EH_PE_sdata2, DW_EH_PE_sdata4, DW_EH_PE_udata2, DW_EH_PE_udata4,
    application_of,
};
use std::marker::Model;

/// What a record says.
#[derive(Clone, Copy, Debug, PartialEq, Eq)]
pub(crate) enum ActionRecord {
    /// The type of its filter catches.
    Catches {
        filter: u64,
    },
    /// It doesn't. The next record stands at the displacement's own place, `at`, and it.
    Passes {
        filter: u64,
        at: usize,
        displacement: i64,
    },
}

/// The bytes of a table, and what decides whether its types catch.
#[derive(Drop)]
pub(crate) struct Actions<'a> {
    pub address: u64,
    pub bytes: &'a [u8],
    pub types: Option<TypeTable>,
    /// The kind of the exception.
    pub kind: u64,
}

impl<'a> Model for Actions<'a> {
    ghost use Rattle.raise_phases.specs.Actions.{ActionsData};

    ghost Value = { ActionsData };

    ghost view = { λ a. record {
      address = a.address;
      bytes = a.bytes.now;
      types = a.types;
      kind = a.kind;
    } };
}

/// How many records of a chain are read.
const MOST_RECORDS: usize = 255;

/// What is left of bytes from a place on.
pub(crate) fn cursor_from(bytes: &[u8], place: usize) -> Cursor<'_>
    requires { place ≤ length bytes.now }
    ensures { result ≡ record { bytes = drop place bytes.now; at = place } }
{
    Cursor::new(bytes, place, bytes.len())
}

/// How many bytes the number of a type has.
fn type_width(encoding: u8) -> u64
    ensures { result ≡ type_width encoding }
{
    match encoding % 16 {
        DW_EH_PE_udata2 | DW_EH_PE_sdata2 => 2,
        DW_EH_PE_udata4 | DW_EH_PE_sdata4 => 4,
        _ => 8,
    }
}

/// Whether the type at a place catches a kind, by its number. The table stands at an address.
fn type_catches(encoding: u8, address: u64, place: usize, number: u64, kind: u64) -> bool
    ensures { result ≡ type_catches encoding address place number kind }
{
    if number == 0 {
        return true;
    }
    if application_of(encoding) == DW_EH_PE_pcrel {
        number.wrapping_add(address).wrapping_add(place as u64) == kind
    } else {
        number == kind
    }
}

/// A filter that isn't negative.
fn accepted_filter(at: usize, filter: i64) -> Result<u64, LsdaFault>
    ensures { result ≡ accepted_filter at filter }
{
    if filter < 0 {
        Err(LsdaFault::Filter { at })
    } else {
        Ok(filter as u64)
    }
}

/// A record that doesn't catch, behind its filter.
#[tactic(auto, unfolding(crate::specs::Actions::passing))]
fn passing(cursor: &mut Cursor, filter: u64) -> Result<ActionRecord, LsdaFault>
    ensures { Gives (λ r. r) (passing filter).read cursor.old result cursor.new }
{
    let at = cursor.at();
    let displacement = sleb(cursor)?;
    Ok(ActionRecord::Passes {
        filter,
        at,
        displacement,
    })
}

/// What a chain comes to where nothing after this filter catches.
fn after_filter(pad: u64, filter: u64, otherwise: Verdict) -> Verdict
    ensures { result ≡ after_filter pad filter otherwise }
{
    if filter == 0 {
        Verdict::Cleanup { pad }
    } else {
        otherwise
    }
}

/// The place so far behind the front, where it is among so many bytes.
pub(crate) fn place_behind(count: usize, place: u128) -> Option<usize>
    ensures place { result ≡ place_among count (pos place) }
    ensures within { IfSome result (λ p. p ≤ count) }
{
    if place < count as u128 {
        Some(place as usize)
    } else {
        None
    }
}

/// The place to which a displacement at a place leads.
fn place_from(count: usize, at: usize, displacement: i64) -> Option<usize>
    ensures place { result ≡ place_among count (pos at +ℤ displacement) }
    ensures within { IfSome result (λ p. p ≤ count) }
{
    let place = at as i128 + displacement as i128;
    if place < 0 || place >= count as i128 {
        None
    } else {
        Some(place as usize)
    }
}

/// Whether a displacement leads to another record: 0 ends the chain.
fn leads_on(displacement: i64) -> bool
    ensures { result ≡ leads_on displacement }
{
    displacement < 0 || 0 < displacement
}

/// The place of a type among so many bytes.
fn type_place(count: usize, types: &TypeTable, index: u64) -> Option<usize>
    ensures place { result ≡ type_place count types.now index }
    ensures within { IfSome result (λ p. p ≤ count) }
{
    let before = index as u128 * type_width(types.encoding) as u128;
    if types.end < before {
        None
    } else {
        place_behind(count, types.end - before)
    }
}

impl<'a> Actions<'a> {
    /// Whether the type at a place catches, which the filter at another place names.
    fn catches_at(
        &self,
        types: &TypeTable,
        place: Option<usize>,
        at: usize,
    ) -> Result<bool, LsdaFault>
        requires { IfSome place (λ p. p ≤ length self.now.bytes) }
        ensures { result ≡ catches_at self.now (faults.TypeEntry at) types.now place }
    {
        match place {
            None => Err(LsdaFault::TypeEntry { at }),
            Some(place) => match cursor_from(self.bytes, place).number(types.encoding) {
                Err(_) => Err(LsdaFault::TypeEntry { at }),
                Ok(number) => Ok(type_catches(
                    types.encoding,
                    self.address,
                    place,
                    number,
                    self.kind,
                )),
            },
        }
    }

    /// Whether the type of a filter catches.
    #[tactic(auto, unfolding(crate::specs::Actions::type_of_table))]
    fn filter_catches(&self, at: usize, filter: u64) -> Result<bool, LsdaFault>
        ensures { result ≡ filter_catches self.now at filter }
    {
        if filter == 0 {
            return Ok(false);
        }
        match &self.types {
            None => Err(LsdaFault::TypeEntry { at }),
            Some(types) => self.catches_at(types, type_place(self.bytes.len(), types, filter), at),
        }
    }

    /// The next record.
    #[tactic(auto, unfolding(crate::specs::Actions::action_record))]
    fn record(&self, cursor: &mut Cursor) -> Result<ActionRecord, LsdaFault>
        ensures { Gives (λ r. r) (action_record self.now).read cursor.old result cursor.new }
    {
        let at = cursor.at();
        let filter = accepted_filter(at, sleb(cursor)?)?;
        if self.filter_catches(at, filter)? {
            Ok(ActionRecord::Catches { filter })
        } else {
            passing(cursor, filter)
        }
    }

    fn record_from(&self, place: usize) -> Result<ActionRecord, LsdaFault>
        requires { place ≤ length self.now.bytes }
        ensures { result ≡ read_from (action_record self.now) self.now.bytes place }
    {
        self.record(&mut cursor_from(self.bytes, place))
    }

    /// The place to which a displacement at a place leads, among the table's bytes.
    fn next_place(&self, at: usize, displacement: i64) -> Option<usize>
        ensures place { result ≡ place_among (length self.now.bytes) (pos at +ℤ displacement) }
        ensures within { IfSome result (λ p. p ≤ length self.now.bytes) }
    {
        place_from(self.bytes.len(), at, displacement)
    }

    /// What the chain from a place on comes to. Beside it stands the place where it is refused.
    pub(crate) fn chain(
        &self,
        pad: u64,
        before: usize,
        place: Option<usize>,
    ) -> Result<Verdict, LsdaFault>
        requires { IfSome place (λ p. p ≤ length self.now.bytes) }
        ensures { result
            ≡ chain_verdict self.now pad most_records before place verdicts.Continue }
    {
        let mut before = before;
        let mut next = place;
        let mut otherwise = Verdict::Continue;
        for _ in 0..MOST_RECORDS {
            let place = match next {
                None => return Err(LsdaFault::Chain { at: before }),
                Some(place) => place,
            };
            let record = self.record_from(place)?;
            match record {
                ActionRecord::Catches { filter } => return Ok(Verdict::Handler { pad, filter }),
                ActionRecord::Passes {
                    filter,
                    at,
                    displacement,
                } => {
                    otherwise = after_filter(pad, filter, otherwise);
                    if !leads_on(displacement) {
                        return Ok(otherwise);
                    }
                    before = place;
                    next = self.next_place(at, displacement);
                }
            }
        }
        Err(LsdaFault::Chain { at: before })
    }
}
