//! What a line says, whatever stands before it.

ghost use Rattle.std.specs.Prelude.{◌≡◌, length, MatchOption, None, Some};
ghost use Rattle.script_text.specs.Fields.{fields_after};
ghost use Rattle.event_script.specs.Reading.{GivesLine, one_decimal, one_hex, image_fields};
ghost use Rattle.event_script.specs.Reading.{snapshot_fields, memory_fields, fieldless};
ghost use Rattle.event_script.specs.Reading.{statement_of};
ghost use Rattle.script_text.specs.Fields.{all_hex_in};

use crate::reader::bytes::{hex_bytes_in, section_bytes};
use crate::reader::fault::LineFault;
use crate::reader::fields::{five_fields, has_any, has_count, next_field, only_field, two_fields};
use frame_expr::Regs;
use script_text::{
    Event, ImageFields, Kind, MemoryFields, Reason, SnapshotFields, Statement, decimal_in, hex_in,
};
use std::alloc::Global;

/// What a line of the kind says with the fields that follow its word.
#[tactic(auto, unfolding(crate::specs::Reading::statement_of))]
pub fn statement_of(alloc: Global, kind: Kind, rest: &[u8]) -> Result<Statement, LineFault>
    ensures { GivesLine result (statement_of kind (fields_after rest.now)) }
{
    match kind {
        Kind::Version => Ok(Statement::Version(one_decimal(rest)?)),
        Kind::Nodes => Ok(Statement::Nodes(one_decimal(rest)?)),
        Kind::Loads => Ok(Statement::Loads(one_decimal(rest)?)),
        Kind::Image => Ok(Statement::Image(image_fields(alloc, rest)?)),
        Kind::Fixed => Ok(Statement::Fixed(one_decimal(rest)?)),
        Kind::Snapshot => Ok(Statement::Snapshot(snapshot_fields(rest)?)),
        Kind::Memory => Ok(Statement::Memory(memory_fields(alloc, rest)?)),
        Kind::Round => fieldless(rest, Statement::Round),
        Kind::Thread => fieldless(rest, Statement::Thread),
        Kind::Register => one_decimal(rest).map(|image| Statement::Event(Event::Register {
            image,
        })),
        Kind::Deregister => one_hex(rest).map(|base| Statement::Event(Event::Deregister { base })),
        Kind::Replace => one_decimal(rest).map(|image| Statement::Event(Event::Replace { image })),
        Kind::Load => one_decimal(rest).map(|image| Statement::Event(Event::Load { image })),
        Kind::Unload => one_hex(rest).map(|base| Statement::Event(Event::Unload { base })),
        Kind::Find => one_hex(rest).map(|pc| Statement::Event(Event::Find { pc })),
        Kind::Unwind => one_decimal(rest).map(|snapshot| Statement::Event(Event::Unwind {
            snapshot,
        })),
        Kind::End => fieldless(rest, Statement::End),
    }
}

/// What a line says that has no field but its word.
fn fieldless(rest: &[u8], statement: Statement) -> Result<Statement, LineFault>
    ensures { GivesLine result (fieldless (fields_after rest.now) statement) }
{
    if has_any(rest) {
        return Err(Reason::Fields.into());
    }
    Ok(statement)
}

/// The one field that follows, a decimal number.
fn one_decimal(rest: &[u8]) -> Result<u32, LineFault>
    ensures { GivesLine result (one_decimal (fields_after rest.now)) }
{
    let field = only_field(rest).ok_or(Reason::Fields)?;
    Ok(decimal_in(field).ok_or(Reason::Spelling)?)
}

/// The one field that follows, a hexadecimal number.
fn one_hex(rest: &[u8]) -> Result<u64, LineFault>
    ensures { GivesLine result (one_hex (fields_after rest.now)) }
{
    let field = only_field(rest).ok_or(Reason::Fields)?;
    Ok(hex_in(field).ok_or(Reason::Spelling)?)
}

/// The fields of an image.
fn image_fields(alloc: Global, rest: &[u8]) -> Result<ImageFields, LineFault>
    ensures { GivesLine result (image_fields (fields_after rest.now)) }
{
    let (number, base, size, section, bytes) = five_fields(rest).ok_or(Reason::Fields)?;
    let number = decimal_in(number).ok_or(Reason::Spelling)?;
    let base = hex_in(base).ok_or(Reason::Spelling)?;
    let size = hex_in(size).ok_or(Reason::Spelling)?;
    let section = hex_in(section).ok_or(Reason::Spelling)?;
    let bytes = section_bytes(alloc, bytes)?.ok_or(Reason::Spelling)?;
    Ok(ImageFields {
        number,
        base,
        size,
        section,
        bytes,
    })
}

/// The numbers of the 17 columns.
fn columns_of(rest: &[u8]) -> Option<[u64; 17]>
    requires { length (fields_after rest.now) ≡ 17 }
    ensures { MatchOption result (all_hex_in (fields_after rest.now) ≡ None)
        (λ columns. all_hex_in (fields_after rest.now) ≡ Some columns) }
{
    let mut columns = [0; 17];
    let mut left = rest;
    for index in 0..17 {
        let (field, others) = next_field(left)?;
        columns[index] = hex_in(field)?;
        left = others;
    }
    Some(columns)
}

/// The fields of a snapshot: its number, and the numbers of its columns.
fn snapshot_fields(rest: &[u8]) -> Result<SnapshotFields, LineFault>
    ensures { GivesLine result (snapshot_fields (fields_after rest.now)) }
{
    if !has_count(rest, 18) {
        return Err(Reason::Fields.into());
    }
    let (first, others) = next_field(rest).ok_or(Reason::Fields)?;
    let number = decimal_in(first).ok_or(Reason::Spelling)?;
    let columns = columns_of(others).ok_or(Reason::Spelling)?;
    Ok(SnapshotFields {
        number,
        regs: Regs { columns },
    })
}

/// The fields of recorded memory: its address and its bytes.
fn memory_fields(alloc: Global, rest: &[u8]) -> Result<MemoryFields, LineFault>
    ensures { GivesLine result (memory_fields (fields_after rest.now)) }
{
    let (address, bytes) = two_fields(rest).ok_or(Reason::Fields)?;
    let address = hex_in(address).ok_or(Reason::Spelling)?;
    let bytes = hex_bytes_in(alloc, bytes)?.ok_or(Reason::Spelling)?;
    Ok(MemoryFields { address, bytes })
}
