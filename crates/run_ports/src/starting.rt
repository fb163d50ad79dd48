//! What a program is started with.

ghost use Rattle.std.specs.Prelude.{◌≡◌, [], IfOk};

use crate::buffered::BufferedSink;
use crate::standard::{StandardInput, StandardOutput};
use std::alloc::{AllocError, AllocGlobal};
use std::env::{self, Env};
use std::io::{ErrorKind, Read};
use std::sync::Wait;
use std::time::Clock;

/// Takes the words of the command line behind the program's name, standard input, and standard
/// output, for which pieces are gathered. Words that are not text are told as one empty word, which
/// no program takes.
pub fn start<P: Env + AllocGlobal + Print + Clock + Wait, R: Read + Drop>(
    rt: &P,
    reader: R,
) -> Result<
    (
        Vec<String>,
        StandardInput<'_, P, R>,
        BufferedSink<StandardOutput<'_, P>>,
    ),
    AllocError,
>
    ensures { IfOk result (λ given. given.2.held ≡ []) }
{
    let mut words = Vec::new(rt.alloc());
    match env::args(rt) {
        Ok(args) => {
            for word in args.skip(1) {
                words.push(word)?;
            }
        }
        Err(error) if error.kind() == ErrorKind::OutOfMemory => return Err(AllocError),
        Err(_) => words.push(String::new(rt.alloc()))?,
    }
    let source = StandardInput::new(rt, reader);
    let sink = BufferedSink::new(rt.alloc(), StandardOutput::new(rt));
    Ok((words, source, sink))
}
