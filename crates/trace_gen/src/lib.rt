//! Traces whose events are known, for trying the analysis.
#![tactic(auto)]

mod acts;
mod events;
mod field;
mod folders;
mod laws;
mod metadata;
mod packets;

pub use folders::make;
pub use laws::each_host;
