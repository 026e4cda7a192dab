//! Hosts on one clock: their messages, the lines between their clocks, the forest of hosts, and their merge.
#![tactic(auto)]

pub mod laws;
mod sync;
mod synced;

pub use sync::synchronize;
pub use synced::SyncedHosts;
