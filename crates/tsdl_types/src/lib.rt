//! What the items of a text of metadata declare (CTF 1.8, sections 4 to 7).
#![tactic(auto)]

mod blocks;
mod entries;
mod error;
mod items;
mod laws;
mod resolving;
mod scopes;
mod uuids;
mod whole_blocks;

pub use error::MetaError;
pub use laws::small_types_of_traces;
pub use resolving::resolve;
