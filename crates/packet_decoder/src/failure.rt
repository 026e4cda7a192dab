//! Why a packet gives nothing.
use ctf_fields::FieldError;
use std::alloc::AllocError;
use trace_types::{Cause, OutOfMemory};

/// The packet is refused, or memory ran out.
#[derive(Clone, Copy, Debug, PartialEq, Eq)]
pub enum Failure {
    Refused(Cause),
    OutOfMemory,
}

impl From<Cause> for Failure {
    ghost use Rattle.std.specs.Prelude.{◌≡◌};
    ghost use Rattle.packet_decoder.specs.declared.failure.Failure.TheVariants as variant;

    ghost from_gives = { λ cause e. e ≡ variant.Refused cause };

    fn from(cause: Cause) -> Failure {
        Failure::Refused(cause)
    }
}

impl From<OutOfMemory> for Failure {
    ghost use Rattle.std.specs.Prelude.{◌≡◌};
    ghost use Rattle.packet_decoder.specs.declared.failure.Failure.TheVariants as variant;

    ghost from_gives = { λ _ e. e ≡ variant.OutOfMemory };

    fn from(_error: OutOfMemory) -> Failure {
        Failure::OutOfMemory
    }
}

impl From<AllocError> for Failure {
    ghost use Rattle.std.specs.Prelude.{◌≡◌};
    ghost use Rattle.packet_decoder.specs.declared.failure.Failure.TheVariants as variant;

    ghost from_gives = { λ _ e. e ≡ variant.OutOfMemory };

    fn from(_error: AllocError) -> Failure {
        Failure::OutOfMemory
    }
}
