//! What holds of all metadata files.
ghost use Rattle.std.specs.Prelude.{◌≡◌, ℕ, List};
ghost use Rattle.type_scope.specs.Traces.{Trace};
ghost use Rattle.trace_metadata.specs.Files.{IsTrace, IsRefused};
ghost use Rattle.trace_metadata.specs.declared.cause.MetaCause.{MetaCause};

/// A file declares at most one trace, and where it declares one it is refused nowhere. It is refused at one place at most, for
/// one cause.
pub fn one_trace()
    ensures trace { (bytes : List ℕ) (a b : Trace) → IsTrace bytes a → IsTrace bytes b → a ≡ b }
    ensures refused { (bytes : List ℕ) (t : Trace) (cause : MetaCause) → IsTrace bytes t → ¬ (IsRefused bytes cause) }
    ensures one_refusal { (bytes : List ℕ) (a b : MetaCause) → IsRefused bytes a → IsRefused bytes b → a ≡ b }
{}
