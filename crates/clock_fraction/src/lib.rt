//! Exact lines from one clock to another: slopes that are fractions, heights that are rounded down.
#![tactic(auto)]

pub mod laws;
mod line;
mod order;
mod pair_map;
mod slope;

pub use line::Line;
pub use order::compare;
pub use pair_map::PairMap;
pub use slope::Slope;
