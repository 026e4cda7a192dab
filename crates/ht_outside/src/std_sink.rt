//! A sink over a writer of std, as standard output.
use crate::{Sink, SinkError};
use std::io::Write;

/// Hands pieces to a writer. It tells of what is written there what the writer tells, and standard
/// output tells nothing. A write that fails or takes nothing is a fault, and the count of faults stands still at its greatest number.
#[derive(Drop)]
pub struct StdSink<W> {
    pub to: W,
    pub faults: u64,
}

impl<W: Write> Sink for StdSink<W> {
    ghost contents = { λ s. W.contents s.to };

    ghost faults = { λ s. s.faults };

    fn write(&mut self, piece: &[u8]) -> Result<usize, SinkError> {
        match self.to.write(piece) {
            Ok(count) if count > 0 => Ok(count),
            _ => {
                self.faults = self.faults.saturating_add(1);
                Err(SinkError::Failed)
            }
        }
    }
}
