//! Events in order of time: a sort that keeps the order of what has one time.
#![tactic(auto)]

mod sorts;

pub use sorts::sort_by_time;
