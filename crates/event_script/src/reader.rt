//! The reader of scripts.

ghost use Rattle.std.specs.Prelude.{List, ℕ, [], ◌++◌, IfOk, IfErr};
ghost use Rattle.script_text.specs.Spelling.{IsScript};
ghost use Rattle.event_script.specs.Fault.{Tells, IsOfScript};
ghost use Rattle.event_script.specs.Taken.{HasTaken};

mod bytes;
mod draft;
mod events;
mod fault;
mod fields;
mod good_lines;
mod images;
mod kinds;
mod snapshot_draft;
mod statement;
mod totals;

use crate::reader::good_lines::GoodLines;
pub use fault::ScriptFault;
use script_text::Script;
use std::alloc::Global;
use std::marker::Model;
use std::mem::replace;

/// Reads a script whose bytes come in pieces. No more of them are kept than of the line that goes
/// on. Behind a first bad line they are taken without being looked at.
#[derive(Drop)]
pub struct ScriptReader {
    reading: Result<GoodLines, ScriptFault>,
}

impl Model for ScriptReader {
    ghost use Rattle.std.specs.Prelude.{Result};
    ghost use Rattle.event_script.specs.Taken.{LinesData};
    ghost use Rattle.event_script.specs.declared.reader.fault.ScriptFault.{ScriptFault};

    ghost Value = { Result LinesData ScriptFault };

    ghost view = { λ r. r.reading };
}

impl ScriptReader {
    /// Before the first byte.
    pub fn new(alloc: Global) -> Self
        ensures { HasTaken [] result }
    {
        ScriptReader {
            reading: Ok(GoodLines::new(alloc)),
        }
    }

    /// Takes a piece behind the bytes before.
    pub fn take(&mut self, piece: &[u8])
        ensures { (bytes : List ℕ) → HasTaken bytes self.old
            → HasTaken (bytes ++ piece.now) self.new }
    {
        let reading = replace(&mut self.reading, Err(ScriptFault::NoMemory));
        self.reading = match reading {
            Ok(lines) => lines.take(piece),
            Err(fault) => Err(fault),
        };
    }

    /// The script that the bytes spell.
    pub fn finish(self) -> Result<Script, ScriptFault>
        ensures ok { (bytes : List ℕ) → HasTaken bytes self
            → IfOk result (λ script. IsScript bytes script) }
        ensures bad { (bytes : List ℕ) → HasTaken bytes self
            → IfErr result (λ fault. Tells bytes fault) }
        ensures memory { (bytes : List ℕ) → HasTaken bytes self → IfErr result IsOfScript }
    {
        let ScriptReader { reading } = self;
        let draft = reading?.finish()?;
        Ok(Script {
            version: draft.version,
            nodes: draft.nodes,
            loads: draft.loads,
            images: draft.images,
            sections: draft.sections,
            fixed: draft.fixed,
            snapshots: draft.snapshots,
            rounds: draft.rounds,
        })
    }
}

/// The script that the bytes spell.
pub fn read(alloc: Global, bytes: &[u8]) -> Result<Script, ScriptFault>
    ensures ok { IfOk result (λ script. IsScript bytes.now script) }
    ensures bad { IfErr result (λ fault. Tells bytes.now fault) }
    ensures memory { IfErr result IsOfScript }
{
    let mut reader = ScriptReader::new(alloc);
    reader.take(bytes);
    reader.finish()
}
