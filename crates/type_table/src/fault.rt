//! Why an item couldn't be typed.
use crate::cause::MetaItemCause;
use std::alloc::{AllocError, AllocFailed};
use trace_types::OutOfMemory;

/// The item breaks a rule, or memory ran out.
#[derive(Clone, Copy, Debug, PartialEq, Eq)]
pub enum Fault {
    Breaks(MetaItemCause),
    OutOfMemory,
}

impl From<AllocError> for Fault {
    ghost use Rattle.std.specs.Prelude.{◌≡◌};
    ghost use Rattle.type_table.specs.declared.fault.Fault.TheVariants as variant;

    ghost from_gives = { λ _ e. e ≡ variant.OutOfMemory };

    fn from(_error: AllocError) -> Fault {
        Fault::OutOfMemory
    }
}

impl<T: Drop> From<AllocFailed<T>> for Fault {
    ghost use Rattle.std.specs.Prelude.{◌≡◌};
    ghost use Rattle.type_table.specs.declared.fault.Fault.TheVariants as variant;

    ghost from_gives = { λ _ e. e ≡ variant.OutOfMemory };

    fn from(_error: AllocFailed<T>) -> Fault {
        Fault::OutOfMemory
    }
}

impl From<OutOfMemory> for Fault {
    ghost use Rattle.std.specs.Prelude.{◌≡◌};
    ghost use Rattle.type_table.specs.declared.fault.Fault.TheVariants as variant;

    ghost from_gives = { λ _ e. e ≡ variant.OutOfMemory };

    fn from(_error: OutOfMemory) -> Fault {
        Fault::OutOfMemory
    }
}

impl From<MetaItemCause> for Fault {
    ghost use Rattle.std.specs.Prelude.{◌≡◌};
    ghost use Rattle.type_table.specs.declared.fault.Fault.TheVariants as variant;

    ghost from_gives = { λ cause e. e ≡ variant.Breaks cause };

    fn from(cause: MetaItemCause) -> Fault {
        Fault::Breaks(cause)
    }
}
