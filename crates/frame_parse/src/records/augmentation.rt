//! The augmentation of a CIE: its letters, and the data that they speak of.

ghost use Rattle.std.specs.Prelude.{◌≡◌};
ghost use Rattle.eh_bytes.specs.CursorData.{Gives};
ghost use Rattle.frame_parse.specs.Records.{is_one_of, are_letters, is_augmentation};
ghost use Rattle.frame_parse.specs.Records.{letter, letters, augmentation_data};

use super::fields::{code_encoding, data, data_encoding, optional_pointer, uleb};
use crate::fault::RecordFault;
use eh_bytes::{Cursor, DW_EH_PE_absptr, DW_EH_PE_omit};

/// What the augmentation data of a CIE says.
#[derive(Clone, Copy, Debug, PartialEq, Eq)]
pub struct Augmentation {
    /// The encoding of an FDE's addresses.
    pub pointers: u8,
    /// The encoding of an FDE's LSDA pointer, or `DW_EH_PE_omit`.
    pub lsda: u8,
    pub personality: Option<u64>,
    /// The encoding of the personality's pointer, or `DW_EH_PE_omit`.
    pub personality_encoding: u8,
    pub signal: bool,
}

impl Augmentation {
    /// What holds where nothing is said.
    pub const PLAIN: Augmentation = Augmentation {
        pointers: DW_EH_PE_absptr,
        lsda: DW_EH_PE_omit,
        personality: None,
        personality_encoding: DW_EH_PE_omit,
        signal: false,
    };
}

fn is_one_of(letter: u8, letters: &[u8]) -> bool
    ensures { result ≡ is_one_of letter letters.now }
{
    letters.iter().any(|other| letter == *other)
}

/// Whether each is L, P, R or S, and none comes twice.
fn are_letters(letters: &[u8]) -> bool
    ensures { result ≡ are_letters letters.now }
{
    match letters {
        [] => true,
        [b'L' | b'P' | b'R' | b'S', rest @ ..] => !is_one_of(letters[0], rest) && are_letters(rest),
        _ => false,
    }
}

/// Whether the text is empty, or `z` and letters.
pub(crate) fn is_augmentation(text: &[u8]) -> bool
    ensures { result ≡ is_augmentation text.now }
{
    match text {
        [] => true,
        [b'z', rest @ ..] => are_letters(rest),
        _ => false,
    }
}

/// What one letter says.
#[tactic(auto, unfolding(crate::specs::Records::letter))]
fn letter(
    cursor: &mut Cursor,
    section: u64,
    which: u8,
    mut so_far: Augmentation,
) -> Result<Augmentation, RecordFault>
    ensures { Gives (λ a. a) (letter section which so_far).read cursor.old result cursor.new }
{
    match which {
        b'L' => so_far.lsda = data_encoding(cursor)?,
        b'P' => {
            let encoding = data_encoding(cursor)?;
            so_far.personality = if encoding == DW_EH_PE_omit {
                None
            } else {
                optional_pointer(cursor, section, encoding)?
            };
            so_far.personality_encoding = encoding;
        }
        b'R' => so_far.pointers = code_encoding(cursor)?,
        _ => so_far.signal = true,
    }
    Ok(so_far)
}

/// What the letters say, one after another.
#[tactic(auto, unfolding(crate::specs::Records::letters))]
fn letters(
    cursor: &mut Cursor,
    section: u64,
    text: &[u8],
    so_far: Augmentation,
) -> Result<Augmentation, RecordFault>
    ensures { Gives (λ a. a) (letters section text.now so_far).read
        cursor.old result cursor.new }
{
    match text {
        [] => Ok(so_far),
        [first, rest @ ..] => {
            let so_far = letter(cursor, section, *first, so_far)?;
            letters(cursor, section, rest, so_far)
        }
    }
}

/// The augmentation data after a text, which is there where the text begins with `z`.
#[tactic(auto, unfolding(crate::specs::Records::augmentation_data))]
pub(crate) fn augmentation_data(
    cursor: &mut Cursor,
    section: u64,
    text: &[u8],
) -> Result<Augmentation, RecordFault>
    ensures { Gives (λ a. a) (augmentation_data section text.now).read
        cursor.old result cursor.new }
{
    match text {
        [] => Ok(Augmentation::PLAIN),
        [_, rest @ ..] => {
            let length = uleb(cursor)?;
            let at = cursor.at();
            let mut data = data(RecordFault::Short { at }, cursor, length)?;
            letters(&mut data, section, rest, Augmentation::PLAIN)
        }
    }
}
