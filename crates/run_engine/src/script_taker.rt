//! The reader of scripts as one who takes a source's bytes.

use event_script::ScriptReader;
use run_ports::Taker;
use std::alloc::AllocError;

/// Hands bytes on to a reader as they come.
#[derive(Drop)]
pub struct ScriptTaker {
    pub reader: ScriptReader,
}

impl Taker for ScriptTaker {
    ghost use Rattle.event_script.specs.Taken.{HasTaken};

    ghost has_taken = { λ taker bytes. HasTaken bytes taker.reader };

    fn take(&mut self, piece: &[u8]) -> Result<(), AllocError> {
        self.reader.take(piece);
        Ok(())
    }
}
