//! The hosts of a run as a forest: what maps the clocks of each pair have, and whose clock each host is brought to.
#![tactic(auto)]

pub mod laws;
mod pair_fits;
mod parent;
mod place;
mod points;
mod trees;

pub use pair_fits::fits;
pub use parent::{Parent, Parents};
pub use trees::forest;
