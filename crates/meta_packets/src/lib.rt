//! The packets of a metadata file, and the text that they carry (CTF 1.8, section 7.1).
#![tactic(auto)]

mod header;
mod joining;
mod laws;

pub use header::MetaPacketCause;
pub use joining::{MetaPacketError, join};
pub use laws::one_text;
