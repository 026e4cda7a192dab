//! Requests of disks: which completion belongs to which issue, and what is told of each device.
#![tactic(auto)]

mod act;
mod device;
mod laws;
mod notes;
mod table;
#[cfg(test)]
mod tests;

pub use device::{DIGITS, Device};
pub use laws::{one_answer, pairs_of_places};
pub use table::{DiskTable, requests};
