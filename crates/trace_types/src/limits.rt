//! The limits of a run, and of what it reads.

/// How many hosts a run may have.
pub const MAX_HOSTS: usize = 64;

/// Times and keys lie below this, in ns.
pub const TIME_END: u64 = 0x4000_0000_0000_0000;

/// The greatest number of events of a list, and of accepted events and marks of all hosts of a run.
pub const MAX_EVENTS: u64 = 2_097_152;

/// How many braces of a metadata text may be open at one place.
pub const MAX_BRACES: u32 = 40;

/// How many types deep a type may go, itself among them.
pub const MAX_TYPE_DEPTH: u32 = 32;

/// How many items an array or a sequence may have.
pub const MAX_ITEMS: u64 = 1_048_576;
