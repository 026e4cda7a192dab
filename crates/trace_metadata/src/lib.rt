//! The metadata file of a trace, from its bytes to what it declares (CTF 1.8, section 7).
#![tactic(auto)]

mod cause;
mod laws;
mod reading;

pub use cause::MetaCause;
pub use laws::one_trace;
pub use reading::{MetadataError, read_metadata};
