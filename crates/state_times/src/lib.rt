//! How long attributes had which values, in the window of a merge.
#![tactic(auto)]

pub mod laws;
mod row;
mod times;
mod window;

pub use times::{PathTimes, StateTimes, times_of};
pub use window::{first_key, last_key};
