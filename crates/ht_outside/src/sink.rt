//! Where text is written.
ghost use Rattle.std.specs.Prelude.{◌≡◌, ◌<◌, ◌≤◌, ℕ, List, length, Option, IfOk, IsOk};
ghost use Rattle.std.specs.Io.KnownBytes.{WriteAppends};
ghost use Rattle.ht_outside.specs.Faults.{IsCaused};
ghost use Rattle.ht_outside.specs.declared.sink.SinkError.TheVariants.{Failed};

/// Why a sink took nothing.
#[derive(Clone, Copy, Debug, PartialEq, Eq)]
pub enum SinkError {
    Failed,
    OutOfMemory,
}

/// A place to which text goes.
pub trait Sink {
    /// The bytes written so far, where the sink tells them.
    ghost contents: { Self → Option (List ℕ) };

    /// How many calls have failed.
    ghost faults: { Self → ℕ };

    /// Takes bytes of the piece from its front, at least one, and answers how many. At an error it
    /// took none.
    fn write(&mut self, piece: &[u8]) -> Result<usize, SinkError>
        requires { 0 < length piece.now }
        ensures count { IfOk result (λ n. (0 < n) × (n ≤ length piece.now)) }
        ensures bytes { WriteAppends (contents self.old) (contents self.new) result piece.now }
        ensures cause { IsCaused Failed result (faults self.old) (faults self.new) };
}
