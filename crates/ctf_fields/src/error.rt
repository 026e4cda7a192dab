//! Why a field can't be read.
use std::alloc::AllocError;
use trace_types::OutOfMemory;

/// Why a field can't be read: the first cause, in the order of reading.
#[derive(Clone, Copy, Debug, PartialEq, Eq)]
pub enum FieldError {
    /// A bit lies at or past the end.
    ShortContent,
    /// No label that holds the tag names a field of the variant.
    NoVariant,
    /// A sequence has more than 1,048,576 elements.
    TooLong,
    OutOfMemory,
}

impl From<OutOfMemory> for FieldError {
    ghost use Rattle.std.specs.Prelude.{◌≡◌};
    ghost use Rattle.ctf_fields.specs.declared.error.FieldError.TheVariants as variant;

    ghost from_gives = { λ _ e. e ≡ variant.OutOfMemory };

    fn from(_error: OutOfMemory) -> FieldError {
        FieldError::OutOfMemory
    }
}

impl From<AllocError> for FieldError {
    ghost use Rattle.std.specs.Prelude.{◌≡◌};
    ghost use Rattle.ctf_fields.specs.declared.error.FieldError.TheVariants as variant;

    ghost from_gives = { λ _ e. e ≡ variant.OutOfMemory };

    fn from(_error: AllocError) -> FieldError {
        FieldError::OutOfMemory
    }
}
