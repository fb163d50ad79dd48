//! Lines of images: read at once, where nothing is wrong with them.

ghost use Rattle.std.specs.Prelude.{◌≡◌, ◌^◌, ◌<◌, ◌∷◌, IfOk, IfSome, codes, decimal};
ghost use Rattle.script_text.specs.Digits.{hex};
ghost use Rattle.script_text.specs.Fields.{fields_after, pieces};
ghost use Rattle.script_text.specs.Statements.{HasForm, statement_line};
ghost use Rattle.script_text.specs.declared.statement.Statement.TheVariants as statement;

use crate::reader::bytes::section_bytes;
use crate::reader::events::after_word;
use crate::reader::fields::{first_field, next_field};
use reg_model::NoMemory;
use script_text::{ImageFields, decimal_in, hex_in};
use std::alloc::Global;

/// The numbers of an image's line, and what stands behind the space after them.
#[derive(Clone, Copy)]
struct ImageNumbers<'a> {
    number: u32,
    base: u64,
    size: u64,
    section: u64,
    digits: &'a [u8],
}

/// What follows the space.
fn after_space(rest: &[u8]) -> Option<&[u8]>
    ensures { IfSome result (λ fields. fields_after rest.now ≡ pieces 32 fields.now) }
{
    match rest {
        [] => None,
        [_, fields @ ..] => Some(fields),
    }
}

/// The numbers of the line, where it is an image's and they are spelled as they must be.
fn numbers_of(line: &[u8]) -> Option<ImageNumbers<'_>>
    ensures { IfSome result (λ image. (image.number < 2 ^ 32) × (image.base < 2 ^ 64)
        × (image.size < 2 ^ 64) × (image.section < 2 ^ 64)
        × (pieces 32 line.now
        ≡ codes "image" ∷ decimal image.number ∷ hex image.base ∷ hex image.size
        ∷ hex image.section ∷ pieces 32 image.digits.now)) }
{
    let fields = after_word(line, b"image ")?;
    let (number, rest) = first_field(fields);
    let (base, rest) = next_field(rest)?;
    let (size, rest) = next_field(rest)?;
    let (section, rest) = next_field(rest)?;
    let digits = after_space(rest)?;
    let number = decimal_in(number)?;
    let base = hex_in(base)?;
    let size = hex_in(size)?;
    let section = hex_in(section)?;
    Some(ImageNumbers {
        number,
        base,
        size,
        section,
        digits,
    })
}

/// The image that the line spells. None where it spells none: then the line is read field by field,
/// which finds the reason.
pub fn image_of(alloc: Global, line: &[u8]) -> Result<Option<ImageFields>, NoMemory>
    ensures { IfOk result (λ found. IfSome found (λ image. HasForm (statement.Image image)
        × (pieces 32 line.now ≡ statement_line (statement.Image image)))) }
{
    let Some(numbers) = numbers_of(line) else {
        return Ok(None);
    };
    let Some(bytes) = section_bytes(alloc, numbers.digits)? else {
        return Ok(None);
    };
    Ok(Some(ImageFields {
        number: numbers.number,
        base: numbers.base,
        size: numbers.size,
        section: numbers.section,
        bytes,
    }))
}
