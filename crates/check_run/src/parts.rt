//! The two parts of the input: a script, and the text of a journal.

ghost use Rattle.std.specs.Prelude.{◌≡◌, ◌≤◌, length};
ghost use Rattle.script_text.specs.Fields.{pieces};
ghost use Rattle.check_run.specs.Parts.{script_length};

use journal_reader::next_line;

/// How many bytes of the input the script has: those up to the first line `end`, with its line
/// feed, or all of them where there is no such line.
pub fn script_length(bytes: &[u8]) -> usize
    ensures count { result ≡ script_length (pieces 10 bytes.now) }
    ensures within { result ≤ length bytes.now }
{
    let mut rest = bytes;
    while let Some((line, after)) = next_line(rest) {
        rest = after;
        if line == b"end".as_slice() {
            return bytes.len() - rest.len();
        }
    }
    bytes.len()
}
