//! The merge of hosts' events on the clocks of their roots, and where the messages between hosts stand in it.
#![tactic(auto)]

mod depths;
pub mod laws;
mod lists;
mod merging;
mod place_lists;
mod placed;
mod placing;

pub use merging::merge;
pub use placed::Placed;
pub use placing::{inverted, place};
