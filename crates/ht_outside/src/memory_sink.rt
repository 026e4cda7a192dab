//! A sink in memory.
ghost use Rattle.std.specs.Prelude.{Some};

use crate::{Sink, SinkError};

/// Keeps what is written. It takes whole pieces and never fails.
#[derive(Debug, Drop)]
pub struct MemorySink {
    pub bytes: Vec<u8>,
}

impl Sink for MemorySink {
    ghost contents = { λ s. Some s.bytes.items };

    ghost faults = { λ _. 0 };

    fn write(&mut self, piece: &[u8]) -> Result<usize, SinkError> {
        match self.bytes.extend_from_slice(piece) {
            Ok(()) => Ok(piece.len()),
            Err(_) => Err(SinkError::OutOfMemory),
        }
    }
}
