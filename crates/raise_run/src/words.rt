//! The words of the command line.

ghost use Rattle.std.specs.Prelude.{◌≡◌, map};
ghost use Rattle.std.specs.String.{string_bytes};
ghost use Rattle.raise_run.specs.Words.{request_in, request_of};

use event_script::{decimal_in, hex_in};

/// What the words ask for: a snapshot of the script, and the kind of the exception.
#[derive(Clone, Copy, Debug, PartialEq, Eq)]
pub struct RaiseRequest {
    pub snapshot: u32,
    pub kind: u64,
}

/// What two words ask for, a decimal and a hexadecimal number as in a script. None where they
/// aren't such.
pub fn request_of(words: &[String]) -> Option<RaiseRequest>
    ensures { result ≡ request_of (map string_bytes words.now) }
{
    match words {
        [snapshot, kind] => request_in(snapshot.as_bytes(), kind.as_bytes()),
        _ => None,
    }
}

fn request_in(snapshot: &[u8], kind: &[u8]) -> Option<RaiseRequest>
    ensures { result ≡ request_in snapshot.now kind.now }
{
    let snapshot = decimal_in(snapshot)?;
    let kind = hex_in(kind)?;
    Some(RaiseRequest { snapshot, kind })
}
