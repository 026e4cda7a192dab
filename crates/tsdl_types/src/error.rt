//! Why a metadata text is refused.
use std::error::Error;
use std::fmt;
use trace_types::OutOfMemory;
use type_table::MetaItemCause;

/// The first item that breaks a rule, counted from 1, or lack of memory.
#[derive(Clone, Copy, Debug, PartialEq, Eq)]
pub enum MetaError {
    Item { item: u64, cause: MetaItemCause },
    OutOfMemory,
}

impl fmt::Display for MetaError {
    fn fmt<W: fmt::Write>(&self, f: &mut fmt::Formatter<W>) -> fmt::Result {
        match self {
            MetaError::Item { item, cause } => write!(f, "item {item}: {cause}"),
            MetaError::OutOfMemory => write!(f, "out of memory"),
        }
    }
}

impl Error for MetaError {}

impl From<OutOfMemory> for MetaError {
    ghost use Rattle.std.specs.Prelude.{◌≡◌};
    ghost use Rattle.tsdl_types.specs.declared.error.MetaError.TheVariants as variant;

    ghost from_gives = { λ _ e. e ≡ variant.OutOfMemory };

    fn from(_error: OutOfMemory) -> MetaError {
        MetaError::OutOfMemory
    }
}
