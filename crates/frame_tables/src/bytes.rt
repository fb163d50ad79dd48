//! Fields of bytes, one after another.

use crate::words::{LineWords, Refusal, WantedWord, hexadecimal, refuse};
use eh_bytes::{ByteFault, Cursor};
use std::fmt::Display;

/// `read BYTES FROM TO FIELD..`: each field in turn, from one place of the bytes to another.
pub fn read(words: LineWords<'_>, text: &mut String) -> Result<(), Refusal> {
    let bytes = words.bytes(1)?;
    fields(words, &bytes, text)
}

/// The fields of the bytes.
fn fields(words: LineWords<'_>, bytes: &[u8], text: &mut String) -> Result<(), Refusal> {
    let (from, to) = (words.decimal(2)?, words.decimal(3)?);
    if to > bytes.len() {
        return Err(refuse(3, WantedWord::Place));
    }
    if from > to {
        return Err(refuse(2, WantedWord::Place));
    }
    let mut cursor = Cursor::new(bytes, from, to);
    for index in 4..words.len() {
        if index > 4 {
            text.push_str(", ")?;
        }
        if !field(&mut cursor, words.get(index), text)? {
            return Err(refuse(index, WantedWord::Field));
        }
    }
    Ok(())
}

/// Tells a field, by its name and what stands after a colon. False where there is no such one.
fn field(cursor: &mut Cursor<'_>, word: &str, text: &mut String) -> Result<bool, Refusal> {
    match word.split_once(':') {
        None => plain_field(cursor, word, text),
        Some(("take", count)) => match count.parse() {
            Ok(count) => bytes_told(cursor.take(count), text),
            Err(_) => Ok(false),
        },
        Some(("part", rest)) => part(cursor, rest, text),
        Some(("number", encoding)) => match encoding_of(encoding) {
            Some(encoding) => hexadecimal_told(cursor.number(encoding), text),
            None => Ok(false),
        },
        Some(("pointer", rest)) => pointer(cursor, rest, text),
        Some(_) => Ok(false),
    }
}

fn plain_field(cursor: &mut Cursor<'_>, name: &str, text: &mut String) -> Result<bool, Refusal> {
    match name {
        "at" => told(Ok(cursor.at()), text),
        "left" => told(Ok(cursor.left()), text),
        "u8" => hexadecimal_told(cursor.u8().map(u64::from), text),
        "u16" => hexadecimal_told(cursor.u16().map(u64::from), text),
        "u32" => hexadecimal_told(cursor.u32().map(u64::from), text),
        "u64" => hexadecimal_told(cursor.u64(), text),
        "i8" => told(cursor.i8(), text),
        "i16" => told(cursor.i16(), text),
        "i32" => told(cursor.i32(), text),
        "uleb" => told(cursor.uleb(), text),
        "sleb" => told(cursor.sleb(), text),
        "text" => bytes_told(cursor.text(), text),
        _ => Ok(false),
    }
}

/// `pointer:ENCODING:ADDRESS` in a section at an address.
fn pointer(cursor: &mut Cursor<'_>, rest: &str, text: &mut String) -> Result<bool, Refusal> {
    let Some((encoding, section)) = rest.split_once(':') else {
        return Ok(false);
    };
    match (encoding_of(encoding), hexadecimal(section)) {
        (Some(encoding), Some(section)) => {
            hexadecimal_told(cursor.pointer(encoding, section), text)
        }
        _ => Ok(false),
    }
}

/// `part:COUNT:FIELD`: the place of the next bytes, how many they are, and a plain field in them.
fn part(cursor: &mut Cursor<'_>, rest: &str, text: &mut String) -> Result<bool, Refusal> {
    let Some((count, name)) = rest.split_once(':') else {
        return Ok(false);
    };
    let Ok(count) = count.parse() else {
        return Ok(false);
    };
    match cursor.part(count) {
        Ok(mut part) => {
            write!(text, "at {} left {} ", part.at(), part.left())?;
            plain_field(&mut part, name, text)
        }
        Err(fault) => told::<usize>(Err(fault), text),
    }
}

fn encoding_of(word: &str) -> Option<u8> {
    u8::from_str_radix(word, 16).ok()
}

fn told<T: Display + Drop>(read: Result<T, ByteFault>, text: &mut String) -> Result<bool, Refusal> {
    match read {
        Ok(value) => write!(text, "{value}")?,
        Err(fault) => write!(text, "{fault:?}")?,
    }
    Ok(true)
}

fn hexadecimal_told(read: Result<u64, ByteFault>, text: &mut String) -> Result<bool, Refusal> {
    match read {
        Ok(value) => write!(text, "{value:x}")?,
        Err(fault) => write!(text, "{fault:?}")?,
    }
    Ok(true)
}

fn bytes_told(read: Result<&[u8], ByteFault>, text: &mut String) -> Result<bool, Refusal> {
    match read {
        Ok(bytes) => hex_told(bytes, text)?,
        Err(fault) => write!(text, "{fault:?}")?,
    }
    Ok(true)
}

/// Bytes in pairs of digits, or a dash where there are none.
pub fn hex_told(bytes: &[u8], text: &mut String) -> Result<(), Refusal> {
    if bytes.is_empty() {
        text.push_str("-")?;
    }
    for byte in bytes {
        write!(text, "{byte:02x}")?;
    }
    Ok(())
}
